// A stationary constraint between two keyframes, over a span of any length. Its caller says that the stretch is still.
ghost use Rattle.std.specs.Prelude.{◌≡◌};
ghost use Rattle.stationary.specs.Factor.{factor_of, finite_mean, valid_factor, valid_gyro, valid_sigmas, valid_walk, with_gyro};

use crate::{StationaryFactor, StationaryGyro};
use inertial::ImuCalib;

impl StationaryGyro {
    pub fn new(x: f64, y: f64, z: f64, covered_s: f64) -> StationaryGyro
        ensures { result ≡ record { x = x; y = y; z = z; covered_s = covered_s } }
    {
        StationaryGyro { x, y, z, covered_s }
    }

    #[tactic(auto, unfolding(crate::specs::Factor::finite_mean))]
    pub fn is_finite(self) -> bool
        ensures { result ≡ finite_mean self }
    {
        number::is_finite(self.x) & number::is_finite(self.y) & number::is_finite(self.z)
    }
}

impl StationaryFactor {
    // 2 mm and 0.002 rad: the camera of a parked cart does not move.
    pub const DEFAULT_TRANSLATION_SIGMA_M: f64 = 0.002;

    pub const DEFAULT_ROTATION_SIGMA_RAD: f64 = 0.002;
    // 1 cm/s.
    pub const DEFAULT_VELOCITY_SIGMA_M_S: f64 = 0.01;
    // The twelve-dimensional chi² at 95 %.
    pub const DEFAULT_HUBER_CHI2: f64 = 21.03;

    // A factor with the default sigmas and limit and no gyro mean.
    pub fn new(from_idx: usize, to_idx: usize, span_s: f64, calib: ImuCalib) -> StationaryFactor
        ensures { result ≡ factor_of from_idx to_idx span_s calib }
    {
        StationaryFactor {
            from_idx,
            to_idx,
            span_s,
            gyro: None,
            calib,
            translation_sigma_m: StationaryFactor::DEFAULT_TRANSLATION_SIGMA_M,
            rotation_sigma_rad: StationaryFactor::DEFAULT_ROTATION_SIGMA_RAD,
            velocity_sigma_m_s: StationaryFactor::DEFAULT_VELOCITY_SIGMA_M_S,
            huber_chi2: Some(StationaryFactor::DEFAULT_HUBER_CHI2),
        }
    }

    pub fn with_gyro(self, gyro: StationaryGyro) -> StationaryFactor
        ensures { result ≡ with_gyro self gyro }
    {
        StationaryFactor {
            gyro: Some(gyro),
            ..self
        }
    }

    // Whether the factor can enter a solve.
    #[tactic(auto, unfolding(crate::specs::Factor::valid_factor))]
    pub fn is_valid(self) -> bool
        ensures { result ≡ valid_factor self }
    {
        (self.from_idx != self.to_idx)
            & number::is_finite_positive(self.span_s)
            & self.has_valid_sigmas()
            & has_valid_walk(self.calib)
            & robust::is_valid(self.huber_chi2)
            & is_valid_gyro(self.gyro, self.calib.gyro_noise)
    }

    #[tactic(auto, unfolding(crate::specs::Factor::valid_sigmas))]
    fn has_valid_sigmas(self) -> bool
        ensures { result ≡ valid_sigmas self }
    {
        number::is_finite_positive(self.translation_sigma_m)
            & number::is_finite_positive(self.rotation_sigma_rad)
            & number::is_finite_positive(self.velocity_sigma_m_s)
    }
}

// No mean, or a finite one over a time above 0, with a gyro noise above 0.
fn is_valid_gyro(gyro: Option<StationaryGyro>, noise: f64) -> bool
    ensures { result ≡ valid_gyro gyro noise }
{
    gyro.is_none_or(|g| {
        number::is_finite_positive(g.covered_s) & number::is_finite_positive(noise) & g.is_finite()
    })
}

#[tactic(auto, unfolding(crate::specs::Factor::valid_walk))]
fn has_valid_walk(calib: ImuCalib) -> bool
    ensures { result ≡ valid_walk calib }
{
    number::is_finite_positive(calib.gyro_bias_noise)
        & number::is_finite_positive(calib.accel_bias_noise)
}
