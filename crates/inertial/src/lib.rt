// The plain records of the inertial parts: a reading, the biases, the noise densities; and samples, which are readings in flat numbers. From kornia's imu.rs.
#![tactic(auto)]

pub mod samples;

ghost use Rattle.inertial.specs.Samples.{row_of};

use number::Numbered;

// One reading: its time in seconds, angular velocity in rad/s and acceleration in m/s², both in the body frame.
#[derive(Clone, Copy)]
pub struct ImuMeasurement {
    pub timestamp: f64,
    pub gyro: [f64; 3],
    pub accel: [f64; 3],
}

// Biases of the gyroscope and the accelerometer.
#[derive(Clone, Copy)]
pub struct ImuBias {
    pub gyro: [f64; 3],
    pub accel: [f64; 3],
}

impl ImuBias {
    pub const ZERO: ImuBias = ImuBias {
        gyro: [0.0; 3],
        accel: [0.0; 3],
    };
}

// Noise densities from the sensor's data sheet: white noise of the gyroscope (rad/s/√Hz) and the accelerometer (m/s²/√Hz), and the random walk of
// their biases (rad/s²/√Hz, m/s³/√Hz).
#[derive(Clone, Copy)]
pub struct ImuCalib {
    pub gyro_noise: f64,
    pub accel_noise: f64,
    pub gyro_bias_noise: f64,
    pub accel_bias_noise: f64,
}

// Why numbers are not taken as samples, each case named as in 01's table of refusals.
#[derive(Clone, Copy, Debug, PartialEq, Eq)]
pub enum Refusal {
    BadLength,
    TooMany,
}

impl Numbered for Refusal {
    ghost row_of = { row_of };

    fn number(self) -> u64 {
        match self {
            Refusal::BadLength => 12,
            Refusal::TooMany => 13,
        }
    }
}
