// The motion that a cart's wheels measured between two keyframes: its information, and the composing of two. From kornia's wheel_odom.rs.
#![tactic(auto)]

ghost use Rattle.std.specs.Prelude.{◌≡◌};
ghost use Rattle.wheel_odom.specs.Information.{row_of};

mod info;
mod measurement;

use number::Numbered;

// (dx, dy, dθ) and its covariance, column by column; out-of-plane translation sigma in metres, roll and pitch sigma in radians.
// The two stand by themselves and not as a PlanarMotion, as in the Rust: 01's statements are on the covariance of a measurement, and name it so.
#[derive(Clone, Copy)]
pub struct WheelOdomMeasurement {
    pub delta: [f64; 3],
    pub covariance: [f64; 9],
    pub z_sigma: f64,
    pub tilt_sigma: f64,
}

// Why a measurement has no information.
#[derive(Clone, Copy, Debug, PartialEq, Eq)]
pub enum Refusal {
    // The sigmas, the numbers or the covariance allow none.
    NoInformation,
    AngleRange,
    NonFinite,
}

impl Numbered for Refusal {
    ghost row_of = { row_of };

    fn number(self) -> u64 {
        match self {
            Refusal::NoInformation => 9,
            Refusal::AngleRange => 8,
            Refusal::NonFinite => 2,
        }
    }
}
