// One step: a reading held for a time.
ghost use Rattle.std.specs.Prelude.{◌≡◌};
ghost use Rattle.imu.specs.Inside.Lean.{lean_advanced_by};
ghost use Rattle.imu.specs.State.{told_integrated};
ghost use Rattle.imu.specs.Step.{accel_in, step_of, turn_in};

use crate::{PreintegratedImu, Refusal, state};
use imu_step::Motion;
use inertial::ImuMeasurement;
use rotation::Increment;

impl PreintegratedImu {
    // The reading held for dt seconds.
    #[tactic(auto, unfolding(crate::specs::Step::step_of, crate::specs::Step::angle_in))]
    pub fn integrate(&mut self, measurement: ImuMeasurement, dt: f64) -> Result<(), Refusal>
        ensures { told_integrated result self.new ≡ step_of self.old measurement dt }
    {
        if !(state::is_finite_measurement(measurement) & number::is_finite(dt)) {
            return Err(Refusal::NonFinite);
        }
        if dt < 0.0 {
            return Err(Refusal::OutOfOrder);
        }
        if dt == 0.0 {
            return Err(Refusal::Duplicate);
        }
        let d = rotation::increment_of(self.turn_in(measurement, dt));
        if sincos::is_above_four(d.angle) {
            return Err(Refusal::AngleRange);
        }
        if !number::is_finite(d.angle) {
            return Err(Refusal::NonFinite);
        }
        let state = self.advanced_by(d, self.accel_in(measurement), dt);
        if !state.is_finite() {
            return Err(Refusal::NonFinite);
        }
        *self = state;
        Ok(())
    }

    // (ω − bg)·dt.
    #[tactic(auto, unfolding(crate::specs::Step::turn_in))]
    fn turn_in(&self, m: ImuMeasurement, dt: f64) -> [f64; 3]
        ensures { result ≡ turn_in self.now m dt }
    {
        vec3::vector_scaled(vec3::vector_difference(m.gyro, self.bias.gyro), dt)
    }

    // The acceleration less its bias.
    #[tactic(auto, unfolding(crate::specs::Step::accel_in))]
    fn accel_in(&self, m: ImuMeasurement) -> [f64; 3]
        ensures { result ≡ accel_in self.now m }
    {
        vec3::vector_difference(m.accel, self.bias.accel)
    }

    // The state after dt seconds of the acceleration a and the turn d. Every line uses values from before the step.
    #[tactic(auto, unfolding(crate::specs::Inside::Lean::lean_advanced_by, crate::specs::Step::advanced_with))]
    fn advanced_by(&self, d: Increment, a: [f64; 3], dt: f64) -> PreintegratedImu
        ensures { result ≡ lean_advanced_by self.now d a dt }
    {
        let rotation = self.delta_rotation;
        let rg = self.d_rotation_d_bias_gyro;
        let vg = self.d_velocity_d_bias_gyro;
        let va = self.d_velocity_d_bias_accel;
        let g = mat3::product(rotation, rotation::hat_of(a));
        let Motion {
            rotation: delta_rotation,
            velocity: delta_velocity,
            position: delta_position,
        } = imu_step::motion_after(self.motion(), d, a, dt);
        PreintegratedImu {
            delta_rotation,
            delta_velocity,
            delta_position,
            dt: self.dt + dt,
            covariance: imu_step::covariance_after(
                &self.covariance,
                self.calib,
                rotation,
                d,
                g,
                dt,
            ),
            bias_covariance: self.walked(dt),
            d_rotation_d_bias_gyro: imu_step::rotation_by_gyro(rg, d, dt),
            d_velocity_d_bias_gyro: imu_step::velocity_by_gyro(vg, rg, g, dt),
            d_velocity_d_bias_accel: imu_step::velocity_by_accel(va, rotation, dt),
            d_position_d_bias_gyro: imu_step::position_by_gyro(
                self.d_position_d_bias_gyro,
                vg,
                rg,
                g,
                dt,
            ),
            d_position_d_bias_accel: imu_step::position_by_accel(
                self.d_position_d_bias_accel,
                va,
                rotation,
                dt,
            ),
            ..*self
        }
    }
}
