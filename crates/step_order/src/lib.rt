// What of a reading is refused before anything is composed, in 01's order, with 02's refusals at their places. From kornia's wheel.rs.
#![tactic(auto)]

ghost use Rattle.std.specs.Prelude.{◌≡◌};
ghost use Rattle.step_order.specs.Order.{interval_fits, reading_fits, said_fit};

use drive::{DifferentialDrive, Refusal, WheelMeasurement, WheelNoise};
use interval::Interval;

// What of a reading is refused whatever came before it.
#[tactic(auto, unfolding(crate::specs::Order::reading_fits))]
pub fn reading_fits(
    drive: DifferentialDrive,
    noise: WheelNoise,
    m: WheelMeasurement,
) -> Result<(), Refusal>
    ensures { said_fit result ≡ reading_fits drive noise m }
{
    if !noise.is_valid() {
        return Err(Refusal::InvalidNoise);
    }
    if !drive.is_valid() {
        return Err(Refusal::InvalidKinematics);
    }
    if !m.valid {
        return Err(Refusal::Invalid);
    }
    if !m.is_finite() {
        return Err(Refusal::NonFinite);
    }
    if !m.reading.is_in_range(drive.counter_width) {
        return Err(Refusal::TickRange);
    }
    Ok(())
}

// What of the interval from the last reading is refused before anything is composed.
#[tactic(auto, unfolding(crate::specs::Order::interval_fits))]
pub fn interval_fits(
    heading: f64,
    last: WheelMeasurement,
    m: WheelMeasurement,
    i: Interval,
) -> Result<(), Refusal>
    ensures { said_fit result ≡ interval_fits heading last m i }
{
    if i.dt < 0.0 {
        return Err(Refusal::OutOfOrder(m.timestamp, last.timestamp));
    }
    if i.dt == 0.0 {
        return Err(Refusal::Duplicate(m.timestamp));
    }
    if !last.reading.is_same_kind(m.reading) {
        return Err(Refusal::MixedReadings);
    }
    if sincos::is_above_four(i.angle) | sincos::is_above_four(heading) {
        return Err(Refusal::AngleRange);
    }
    if !number::is_finite(i.angle) {
        return Err(Refusal::NonFinite);
    }
    Ok(())
}
