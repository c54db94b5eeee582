// Readings of an inertial sensor accumulated between two frames: rotation, velocity and position, their covariance, and how they move with the
// biases. From kornia's imu.rs; what its readings and noise are made of is the crate `inertial`, and what stands above one step are `imu_correction`
// and `imu_window`.
#![tactic(auto)]

mod state;
mod step;

ghost use Rattle.imu.specs.Answers.{row_of};

use inertial::{ImuBias, ImuCalib};
use number::Numbered;
pub use state::is_finite_bias;

#[derive(Clone, Copy)]
pub struct PreintegratedImu {
    // Accumulated rotation, velocity and position, and the time that they took. Not an `imu_step::Motion` in one field: the definitions of specs/State.antt
    // name each field, by kornia's name.
    pub delta_rotation: [f64; 9],
    pub delta_velocity: [f64; 3],
    pub delta_position: [f64; 3],
    pub dt: f64,
    // The biases that were taken off, and the sensor's noise.
    pub bias: ImuBias,
    pub calib: ImuCalib,
    // Of rotation, velocity and position, nine rows and columns; and of the biases of gyroscope and accelerometer, six.
    pub covariance: [f64; 81],
    pub bias_covariance: [f64; 36],
    // How rotation, velocity and position move with the biases.
    pub d_rotation_d_bias_gyro: [f64; 9],
    pub d_velocity_d_bias_gyro: [f64; 9],
    pub d_velocity_d_bias_accel: [f64; 9],
    pub d_position_d_bias_gyro: [f64; 9],
    pub d_position_d_bias_accel: [f64; 9],
}

// Why a call is refused, each case named as in 01's table of refusals. The state is then as it came.
#[derive(Clone, Copy, Debug, PartialEq, Eq)]
pub enum Refusal {
    NonFinite,
    OutOfOrder,
    Duplicate,
    InvalidNoise,
    AngleRange,
}

impl Numbered for Refusal {
    ghost row_of = { row_of };

    fn number(self) -> u64 {
        match self {
            Refusal::NonFinite => 2,
            Refusal::OutOfOrder => 3,
            Refusal::Duplicate => 4,
            Refusal::InvalidNoise => 6,
            Refusal::AngleRange => 8,
        }
    }
}

// The size of standard gravity in m/s².
pub const GRAVITY_MAGNITUDE: f64 = 9.81;
