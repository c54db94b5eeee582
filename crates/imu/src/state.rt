// The state that readings are accumulated into.
ghost use Rattle.std.specs.Prelude.{◌≡◌};
ghost use Rattle.number.specs.Float.{◌⊗◌};
ghost use Rattle.imu.specs.State.{finite_bias, finite_calib, finite_jacobians, finite_measurement, finite_motion, finite_state, fresh as fresh_of, make_of, told_made, told_widened, valid_calib, walked as walked_of, widened_of};
ghost use Rattle.imu.specs.Step.{motion_of};

use crate::{PreintegratedImu, Refusal};
use imu_step::Motion;
use inertial::{ImuBias, ImuCalib, ImuMeasurement};

impl PreintegratedImu {
    // Stands where no state was made.
    pub const BLANK: PreintegratedImu = PreintegratedImu {
        delta_rotation: [0.0; 9],
        delta_velocity: [0.0; 3],
        delta_position: [0.0; 3],
        dt: 0.0,
        bias: ImuBias::ZERO,
        calib: ImuCalib {
            gyro_noise: 0.0,
            accel_noise: 0.0,
            gyro_bias_noise: 0.0,
            accel_bias_noise: 0.0,
        },
        covariance: [0.0; 81],
        bias_covariance: [0.0; 36],
        d_rotation_d_bias_gyro: [0.0; 9],
        d_velocity_d_bias_gyro: [0.0; 9],
        d_velocity_d_bias_accel: [0.0; 9],
        d_position_d_bias_gyro: [0.0; 9],
        d_position_d_bias_accel: [0.0; 9],
    };

    // Nothing accumulated yet.
    #[tactic(auto, unfolding(crate::specs::State::make_of))]
    pub fn new(bias: ImuBias, calib: ImuCalib) -> Result<PreintegratedImu, Refusal>
        ensures { told_made result ≡ make_of bias calib }
    {
        if !is_valid_calib(calib) {
            return Err(Refusal::InvalidNoise);
        }
        if !is_finite_bias(bias) {
            return Err(Refusal::NonFinite);
        }
        Ok(fresh(bias, calib))
    }

    // Widens the random walk of the biases by some seconds beyond the time integrated: for an edge whose bias link also covers time outside its
    // samples, such as a still stretch before it. Seconds that are not finite or not above 0 change nothing.
    #[tactic(auto, unfolding(crate::specs::State::widened_of))]
    pub fn widen_bias_walk(&mut self, seconds: f64) -> Result<(), number::Refusal>
        ensures { told_widened result self.new ≡ widened_of self.old seconds }
    {
        if !number::is_finite_positive(seconds) {
            return Ok(());
        }
        let bias_covariance = self.walked(seconds);
        if !mat9::is_finite_diagonal(bias_covariance) {
            return Err(number::Refusal::NonFinite);
        }
        self.bias_covariance = bias_covariance;
        Ok(())
    }

    // The covariance of the biases after so many seconds more.
    #[tactic(auto, unfolding(crate::specs::State::walked))]
    pub(crate) fn walked(&self, seconds: f64) -> [f64; 36]
        ensures { result ≡ walked_of self.now seconds }
    {
        mat9::with_raised_diagonal(
            self.bias_covariance,
            walk(self.calib.gyro_bias_noise, seconds),
            walk(self.calib.accel_bias_noise, seconds),
        )
    }

    #[tactic(auto, unfolding(crate::specs::State::finite_state))]
    pub fn is_finite(&self) -> bool
        ensures { result ≡ finite_state self.now }
    {
        self.has_finite_motion()
            & is_finite_bias(self.bias)
            & is_finite_calib(self.calib)
            & mat9::all_finite(&self.covariance)
            & mat9::all_finite(&self.bias_covariance)
            & self.has_finite_jacobians()
    }

    pub(crate) fn motion(&self) -> Motion
        ensures { result ≡ motion_of self.now }
    {
        Motion {
            rotation: self.delta_rotation,
            velocity: self.delta_velocity,
            position: self.delta_position,
        }
    }

    #[tactic(auto, unfolding(crate::specs::State::finite_motion))]
    fn has_finite_motion(&self) -> bool
        ensures { result ≡ finite_motion self.now }
    {
        self.motion().is_finite() & number::is_finite(self.dt)
    }

    #[tactic(auto, unfolding(crate::specs::State::finite_jacobians))]
    fn has_finite_jacobians(&self) -> bool
        ensures { result ≡ finite_jacobians self.now }
    {
        mat3::is_finite(self.d_rotation_d_bias_gyro)
            & mat3::is_finite(self.d_velocity_d_bias_gyro)
            & mat3::is_finite(self.d_velocity_d_bias_accel)
            & mat3::is_finite(self.d_position_d_bias_gyro)
            & mat3::is_finite(self.d_position_d_bias_accel)
    }
}

fn fresh(bias: ImuBias, calib: ImuCalib) -> PreintegratedImu
    ensures { result ≡ fresh_of bias calib }
{
    PreintegratedImu {
        delta_rotation: mat3::identity(),
        bias,
        calib,
        ..PreintegratedImu::BLANK
    }
}

// What a bias of this density walks in so many seconds: its variance.
fn walk(density: f64, seconds: f64) -> f64
    ensures { result ≡ density ⊗ density ⊗ seconds }
{
    density * density * seconds
}

// The four are written out, here and below: a closure over the densities is no shorter, and `all` would stop at the first, where these do not branch.
#[tactic(auto, unfolding(crate::specs::State::valid_calib))]
fn is_valid_calib(calib: ImuCalib) -> bool
    ensures { result ≡ valid_calib calib }
{
    number::is_finite_not_negative(calib.gyro_noise)
        & number::is_finite_not_negative(calib.accel_noise)
        & number::is_finite_not_negative(calib.gyro_bias_noise)
        & number::is_finite_not_negative(calib.accel_bias_noise)
}

#[tactic(auto, unfolding(crate::specs::State::finite_calib))]
fn is_finite_calib(calib: ImuCalib) -> bool
    ensures { result ≡ finite_calib calib }
{
    number::is_finite(calib.gyro_noise)
        & number::is_finite(calib.accel_noise)
        & number::is_finite(calib.gyro_bias_noise)
        & number::is_finite(calib.accel_bias_noise)
}

#[tactic(auto, unfolding(crate::specs::State::finite_bias))]
pub fn is_finite_bias(bias: ImuBias) -> bool
    ensures { result ≡ finite_bias bias }
{
    vec3::is_finite_vector(bias.gyro) & vec3::is_finite_vector(bias.accel)
}

#[tactic(auto, unfolding(crate::specs::State::finite_measurement))]
pub(crate) fn is_finite_measurement(m: ImuMeasurement) -> bool
    ensures { result ≡ finite_measurement m }
{
    number::is_finite(m.timestamp)
        & vec3::is_finite_vector(m.gyro)
        & vec3::is_finite_vector(m.accel)
}
