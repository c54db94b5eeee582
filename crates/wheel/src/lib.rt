// Wheel odometry: the integrator that takes one reading at a time. From the lower half of kornia's wheel.rs.
#![tactic(auto)]

mod state;
mod step;

use drive::{DifferentialDrive, WheelMeasurement, WheelNoise};
use interval::Accumulated;
use kept::KeptValues;

// What an integrator is made with. Calls take the two apart, since the definitions of specs/ (`make_of`, `change_of`, `kept_of`, `reading_fits`) do.
#[derive(Clone, Copy)]
pub struct Settings {
    pub drive: DifferentialDrive,
    pub noise: WheelNoise,
}

// The kept values are those of the settings, unless a state with others is handed in.
#[derive(Clone, Copy)]
pub struct WheelPreintegration {
    pub settings: Settings,
    pub kept: KeptValues,
    pub accumulated: Accumulated,
    // The last reading that was taken, where the next interval starts.
    pub last: Option<WheelMeasurement>,
}
