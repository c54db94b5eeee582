// The formula alone, for a caller that has tested its input: the interval between any two readings, its motion, and what is accumulated with it. The
// entry that refuses is the wheel step, `WheelPreintegration::integrate`.
ghost use Rattle.std.specs.Prelude.{◌≡◌};
ghost use Rattle.interval.specs.Accumulated.{advanced as advanced_of};
ghost use Rattle.interval.specs.Interval.{doubled as doubled_of, interval_motion, interval_of, ratio_of};

use crate::{Accumulated, Interval, MAX_SUBSTEP_ANGLE, MAX_SUBSTEP_SECONDS};
use arc::formula::from_twist_increment;
use drive::formula::{rates_between, twist_of};
use drive::{DifferentialDrive, WheelMeasurement};
use planar::PlanarMotion;
use planar::formula::composed;

#[tactic(auto, unfolding(crate::specs::Interval::interval_of))]
pub fn interval_of(
    drive: DifferentialDrive,
    per_tick: f64,
    last: WheelMeasurement,
    m: WheelMeasurement,
) -> Interval
    ensures { result ≡ interval_of drive per_tick last m }
{
    let dt = m.timestamp - last.timestamp;
    let rates = rates_between(drive, per_tick, last.reading, m.reading, dt);
    let twist = twist_of(drive, rates);
    let cut = number::halvings(ratio(dt, twist.wz));
    let substep = dt / cut.parts;
    Interval {
        dt,
        twist,
        halvings: cut.count,
        substep,
        angle: twist.wz * substep,
    }
}

// How many times longer the interval is than a substep may be, in time or in angle.
#[tactic(auto, unfolding(crate::specs::Interval::ratio_of))]
fn ratio(dt: f64, wz: f64) -> f64
    ensures { result ≡ ratio_of dt wz }
{
    number::larger(
        dt / MAX_SUBSTEP_SECONDS,
        number::size(wz * dt) / MAX_SUBSTEP_ANGLE,
    )
}

// The motion over all substeps. Mapping a whole interval's noise through one exponential Jacobian would treat it as a constant perturbation and lose
// the variance that white noise builds up along a turn; the two halves' noise is independent.
#[tactic(auto, unfolding(crate::specs::Interval::interval_motion))]
fn interval_motion(rate_noise: [f64; 9], i: Interval) -> PlanarMotion
    ensures { result ≡ interval_motion rate_noise i }
{
    let v = i.twist;
    let h = i.substep;
    let q = mat3::scaled(rate_noise, h);
    doubled(
        from_twist_increment(v.vx * h, v.vy * h, v.wz * h, q),
        i.halvings,
    )
}

// The motion composed with itself, k times.
fn doubled(p: PlanarMotion, k: u32) -> PlanarMotion
    ensures { result ≡ doubled_of k p }
{
    let mut motion = p;
    for _ in 0..k {
        motion = composed(motion, motion);
    }
    motion
}

// What is accumulated with one interval more.
#[tactic(auto, unfolding(crate::specs::Accumulated::advanced))]
pub fn advanced(a: Accumulated, rate_noise: [f64; 9], i: Interval) -> Accumulated
    ensures { result ≡ advanced_of a rate_noise i }
{
    let motion = composed(a.motion, interval_motion(rate_noise, i));
    let dt = a.dt + i.dt;
    Accumulated { motion, dt }
}
