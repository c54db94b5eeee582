// What tools/kept_bytes links: the values that an integrator keeps, stored where a program outside the language reads their bytes. To the logic all NaNs are
// one, so that no contract says which bits a kept NaN has in memory, and 02 (W-206) does. It is a fixture of that test and not a library for other languages.
#![tactic(auto)]

ghost use Rattle.std.specs.Prelude.{◌≡◌, length};
ghost use Rattle.number.specs.Tabulated.{tabulated};
ghost use Rattle.kept_bytes.specs.Fixture.{kept_after, kept_number};

use kept::KeptValues;
use wheel::WheelPreintegration;

// Makes an integrator with the parameters, as a log has them, sends it through the events and stores what it then keeps.
#[unsafe(no_mangle)]
pub extern "C" fn kept_values(parameters: &[u8], events: &[u8], out: &mut [f64])
    ensures { out.new ≡ tabulated (length out.old) (kept_number (kept_after parameters.now events.now)) }
{
    let drive = records::drive_of(parameters);
    let made = WheelPreintegration::new(drive, records::noise_of(parameters));
    let state = made.unwrap_or(WheelPreintegration::BLANK);
    let ran = runs::run(state, events);
    store(ran.state.kept, out);
}

fn store(kept: KeptValues, out: &mut [f64])
    ensures { out.new ≡ tabulated (length out.old) (kept_number kept) }
{
    for (i, x) in out.iter_mut().enumerate() {
        *x = number_of(kept, i);
    }
}

// The nine numbers of the rate noise, then the radians per tick. By the index: out is as long as the C program makes it, and kept_number says what stands at
// each place.
fn number_of(kept: KeptValues, i: usize) -> f64
    ensures { result ≡ kept_number kept i }
{
    if i < 9 {
        kept.rate_noise[i]
    } else {
        kept.radians_per_tick
    }
}
