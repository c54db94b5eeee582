// The formula alone, for a caller that has tested its input: twist, its columns and rates of any drive and readings. The entries that refuse are
// `DifferentialDrive::twist`, `twist_jacobian` and `wheel_rates_from_ticks`.
ghost use Rattle.std.specs.Prelude.{◌≡◌};
ghost use Rattle.drive.specs.Drive.{columns_of, mean_rates, radians_per_tick, rate_from_ticks, rates_between, rates_from_ticks, twist_of};

use crate::{BodyTwist, DifferentialDrive, Reading, TwistColumns, WheelRates};
use number::TAU;

// The base's twist from the wheels' angular velocities.
#[tactic(auto, unfolding(crate::specs::Drive::twist_of))]
pub fn twist_of(drive: DifferentialDrive, w: WheelRates) -> BodyTwist
    ensures { result ≡ twist_of drive w }
{
    let left = drive.left_radius * w.left;
    let right = drive.right_radius * w.right;
    BodyTwist {
        vx: 0.5 * (left + right),
        vy: 0.0,
        wz: (right - left) / drive.track_width,
    }
}

// How the twist moves with each rate: the same at all rates.
#[tactic(auto, unfolding(crate::specs::Drive::columns_of))]
pub fn columns(drive: DifferentialDrive) -> TwistColumns
    ensures { result ≡ columns_of drive }
{
    TwistColumns {
        left: BodyTwist {
            vx: drive.left_radius / 2.0,
            vy: 0.0,
            wz: -(drive.left_radius / drive.track_width),
        },
        right: BodyTwist {
            vx: drive.right_radius / 2.0,
            vy: 0.0,
            wz: drive.right_radius / drive.track_width,
        },
    }
}

// How far a wheel turns from one encoder count to the next.
#[tactic(auto, unfolding(crate::specs::Drive::radians_per_tick))]
pub fn radians_per_tick(drive: DifferentialDrive) -> f64
    ensures { result ≡ radians_per_tick drive }
{
    TAU / drive.ticks_per_revolution
}

#[tactic(auto, unfolding(crate::specs::Drive::rate_from_ticks))]
fn rate_from_ticks(per_tick: f64, difference: i64, dt: f64) -> f64
    ensures { result ≡ rate_from_ticks per_tick difference dt }
{
    number::whole_to_f64(difference) * per_tick / dt
}

#[tactic(auto, unfolding(crate::specs::Drive::rates_from_ticks))]
pub(crate) fn rates_from_ticks(per_tick: f64, left: i64, right: i64, dt: f64) -> WheelRates
    ensures { result ≡ rates_from_ticks per_tick left right dt }
{
    WheelRates {
        left: rate_from_ticks(per_tick, left, dt),
        right: rate_from_ticks(per_tick, right, dt),
    }
}

// The rates over the dt seconds from one reading to the next of its kind: ticks give the mean rates exactly, angular velocities are averaged.
pub fn rates_between(
    drive: DifferentialDrive,
    per_tick: f64,
    from: Reading,
    to: Reading,
    dt: f64,
) -> WheelRates
    ensures { result ≡ rates_between drive per_tick from to dt }
{
    match (from, to) {
        (Reading::Ticks(left, right), Reading::Ticks(l, r)) => {
            let dl = number::tick_difference(drive.counter_width, left, l);
            let dr = number::tick_difference(drive.counter_width, right, r);
            rates_from_ticks(per_tick, dl, dr, dt)
        }
        (Reading::AngularVelocity(left, right), Reading::AngularVelocity(l, r)) => mean_rates(
            left, right, l, r,
        ),
        _ => WheelRates {
            left: 0.0,
            right: 0.0,
        },
    }
}

// The mean of two readings, left and right.
#[tactic(auto, unfolding(crate::specs::Drive::mean_rates))]
fn mean_rates(left: f64, right: f64, l: f64, r: f64) -> WheelRates
    ensures { result ≡ mean_rates left right l r }
{
    WheelRates {
        left: 0.5 * (left + l),
        right: 0.5 * (right + r),
    }
}
