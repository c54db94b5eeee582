// Still stretches: when a cart is parked, two keyframes are linked by a factor that says so. From kornia's stationary.rs.
#![tactic(auto)]

mod factor;
mod join;

ghost use Rattle.std.specs.Prelude.{◌≡◌};
ghost use Rattle.stationary.specs.Join.{row_of};

use inertial::ImuCalib;
use number::Numbered;

// The mean raw gyro rate in rad/s, body frame, and the seconds of samples behind it. The rate is three named numbers and not an array, since specs/ names
// each: an array would be no plainer there.
#[derive(Clone, Copy)]
pub struct StationaryGyro {
    pub x: f64,
    pub y: f64,
    pub z: f64,
    pub covered_s: f64,
}

#[derive(Clone, Copy)]
pub struct StationaryFactor {
    // Earlier and later keyframe.
    pub from_idx: usize,
    pub to_idx: usize,
    // Seconds between the two: scales the bias random walk.
    pub span_s: f64,
    // None where no rate was measured.
    pub gyro: Option<StationaryGyro>,
    pub calib: ImuCalib,
    // Sigmas of the zero relative translation (m) and rotation (rad), and of the zero velocity at each end (m/s).
    pub translation_sigma_m: f64,
    pub rotation_sigma_rad: f64,
    pub velocity_sigma_m_s: f64,
    // Threshold on the twelve-row pose and velocity chi².
    pub huber_chi2: Option<f64>,
}

// Why two factors are not joined.
#[derive(Clone, Copy, Debug, PartialEq, Eq)]
pub enum Refusal {
    InvalidFactor,
    NotJoined,
    NonFinite,
}

impl Numbered for Refusal {
    ghost row_of = { row_of };

    fn number(self) -> u64 {
        match self {
            Refusal::InvalidFactor => 11,
            Refusal::NotJoined => 10,
            Refusal::NonFinite => 2,
        }
    }
}
