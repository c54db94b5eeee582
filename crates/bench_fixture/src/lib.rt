// What bench/ links and times against the Rust: a few entries as plain functions over numbers and slices, with a fixed cart, board and sigmas. It is a
// fixture of the bench and not a library for other languages: of a run only the time comes back.
#![tactic(auto)]

ghost use Rattle.std.specs.Prelude.{◌≡◌, get_or, length};
ghost use Rattle.std.specs.Float.{nan};
ghost use Rattle.number.specs.Float.{◌⊕◌};
ghost use Rattle.root.specs.Root.{or_nan, sqrt_of};
ghost use Rattle.sincos.specs.Turn.{turn_of};
ghost use Rattle.runs.specs.Events.{events_in};
ghost use Rattle.runs.specs.Run.{ran_of};
ghost use Rattle.wheel_odom.specs.Information.{information_of};
ghost use Rattle.log_lines.specs.Lines.{lines_of};
ghost use Rattle.imu_window.specs.Batch.{batch_of};
ghost use Rattle.window_order.specs.Window.{buffer_after};
ghost use Rattle.bench_fixture.specs.Fixture.{board, cart, symmetric_measurement};

use drive::{DifferentialDrive, WheelNoise};
use imu::PreintegratedImu;
use inertial::{ImuBias, ImuCalib};
use wheel::WheelPreintegration;
use wheel_odom::WheelOdomMeasurement;

// The square root of x, NaN where it has none.
#[unsafe(no_mangle)]
pub extern "C" fn bench_root(x: f64) -> f64
    ensures { result ≡ or_nan (sqrt_of x) }
{
    root::formula::root_or_nan(x)
}

// The sine and the cosine of x, added up, so that neither goes unused.
#[unsafe(no_mangle)]
pub extern "C" fn bench_sine_plus_cosine(x: f64) -> f64
    ensures { result ≡ (turn_of x).sin ⊕ (turn_of x).cos }
{
    let v = sincos::formula::turn_of(x);
    v.sin + v.cos
}

// How long a run of events took, on a cart with wheels of 0.1 m, a track of 0.5 m, 65,536 ticks to a turn and counters of 64 bits.
#[unsafe(no_mangle)]
pub extern "C" fn bench_wheel_run(events: &[u8]) -> f64
    ensures { result ≡ (ran_of cart (events_in events.now)).state.accumulated.dt }
{
    let drive = DifferentialDrive {
        left_radius: 0.1,
        right_radius: 0.1,
        track_width: 0.5,
        ticks_per_revolution: 65536.0,
        counter_width: 64,
    };
    let made = WheelPreintegration::new(drive, WheelNoise::DEFAULT);
    let fresh = made.unwrap_or(WheelPreintegration::BLANK);
    runs::run(fresh, events).state.dt()
}

// How many bytes the replay of a log prints, into fixed room: nothing here uses the heap.
#[unsafe(no_mangle)]
pub extern "C" fn bench_replay(log: &[u8]) -> usize
    ensures { result ≡ length (lines_of log.now) }
{
    let mut out = [0u8; 65536];
    log_lines::replay(log, &mut out)
}

// Orders the samples from t0 to t1 at the front of `order`.
#[unsafe(no_mangle)]
pub extern "C" fn bench_order(samples: &[f64], t0: f64, t1: f64, order: &mut [usize])
    ensures { order.new ≡ buffer_after samples.now t0 t1 order.old }
{
    let _ = window_order::ordered_window(samples, t0, t1, order);
}

// The first entry of the information of a measurement with the default sigmas, its covariance exactly symmetric.
#[unsafe(no_mangle)]
pub extern "C" fn bench_information(
    heading: f64,
    cxx: f64,
    cxy: f64,
    cxw: f64,
    cyy: f64,
    cyw: f64,
    cww: f64,
) -> f64
    ensures { result ≡ get_or (information_of (symmetric_measurement heading cxx cxy cxw cyy cyw cww)).value 0 nan }
{
    let covariance = [cxx, cxy, cxw, cxy, cyy, cyw, cxw, cyw, cww];
    let m = WheelOdomMeasurement::new([0.0, 0.0, heading], covariance);
    // A match, since with map_or the contract stayed open.
    match m.information() {
        Ok(matrix) => matrix[0],
        Err(_) => 0.0,
    }
}

// How long a batch of samples took, on a board with no biases and some noise.
#[unsafe(no_mangle)]
pub extern "C" fn bench_inertial_batch(samples: &[f64]) -> f64
    ensures { result ≡ (batch_of board samples.now).value.dt }
{
    let calib = ImuCalib {
        gyro_noise: 0.001,
        accel_noise: 0.01,
        gyro_bias_noise: 0.001,
        accel_bias_noise: 0.01,
    };
    let mut state = PreintegratedImu::new(ImuBias::ZERO, calib).unwrap_or(PreintegratedImu::BLANK);
    let _ = imu_window::integrate_batch(&mut state, samples);
    state.dt
}
