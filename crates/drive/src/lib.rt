// What the wheel encoders report, the drive that they sit on, and its noise. From the upper half of kornia's wheel.rs.
#![tactic(auto)]

pub mod formula;
mod kinematics;
mod noise;
mod readings;
mod refusals;

// Left and right; positive drives the base forward.
#[derive(Clone, Copy)]
pub enum Reading {
    // Cumulative encoder counts.
    Ticks(i64, i64),
    // Angular velocities in rad/s.
    AngularVelocity(f64, f64),
}

// One sample: its time in seconds, what it reads, and whether the driver vouches for it. A flag and no Option, since a state that is handed in, and the order of
// the refusals, have the reading of an invalid sample too.
#[derive(Clone, Copy)]
pub struct WheelMeasurement {
    pub timestamp: f64,
    pub reading: Reading,
    pub valid: bool,
}

// Planar velocity of the base, in base axes: forward and leftward in m/s, yaw rate in rad/s, counter-clockwise seen from above.
#[derive(Clone, Copy)]
pub struct BodyTwist {
    pub vx: f64,
    pub vy: f64,
    pub wz: f64,
}

// Wheel angular velocities in rad/s.
#[derive(Clone, Copy)]
pub struct WheelRates {
    pub left: f64,
    pub right: f64,
}

// How the twist moves with the left and with the right rate. It and `WheelRates` are two records, as in the definitions: one for any content would say of
// neither what it holds.
#[derive(Clone, Copy)]
pub struct TwistColumns {
    pub left: BodyTwist,
    pub right: BodyTwist,
}

// The wheels' radii and the distance between their contact points in metres, encoder counts per wheel turn, and the bits of the encoders' counters:
// below 64 they start again at 0 where they are full. Any number may stand there, as in a log: one that no encoder has is refused. Each wheel has its own radius,
// since tyres wear unevenly.
#[derive(Clone, Copy)]
pub struct DifferentialDrive {
    pub left_radius: f64,
    pub right_radius: f64,
    pub track_width: f64,
    pub ticks_per_revolution: f64,
    pub counter_width: u64,
}

// Per-wheel angular velocity noise in rad/s/√Hz, and lateral (side-slip) velocity noise of the base in m/s/√Hz. A differential drive has no
// lateral motion, so without the latter the covariance is singular.
#[derive(Clone, Copy)]
pub struct WheelNoise {
    pub wheel_rate: f64,
    pub lateral_velocity: f64,
}

// Why a reading, a drive or a noise is refused. The number and the values of each case are in specs/Refusals.antt. No `Eq`, since two cases carry f64s.
#[derive(Clone, Copy, Debug, PartialEq)]
pub enum Refusal {
    // The reading is flagged invalid.
    Invalid,
    // A named input or a result is infinite or NaN.
    NonFinite,
    // The reading's time and the last one's, which is later.
    OutOfOrder(f64, f64),
    // The time that repeats.
    Duplicate(f64),
    // Ticks after rates, or rates after ticks.
    MixedReadings,
    // A noise number is not finite or below 0.
    InvalidNoise,
    // A radius, track or ticks per turn is not finite and above 0, or the counter width is none of 16, 24, 32 and 64.
    InvalidKinematics,
    // A finite angle above 4 in size.
    AngleRange,
    // A count that a counter of the drive's width does not show.
    TickRange,
}
