// The deltas of an inertial accumulation at another bias, to first order, with no reading integrated anew; and the prediction of the next frame. From
// kornia's imu.rs.
#![tactic(auto)]

ghost use Rattle.std.specs.Prelude.{◌≡◌};
ghost use Rattle.imu_correction.specs.Correction.{accel_change, corrected_of, correction_turn, gyro_change, position_with, predict_of, predicted_state, rotation_with_bias, told_predicted, told_rotation, told_vector, vector_with, velocity_with};

use imu::PreintegratedImu;
pub use imu_step::Motion;
use inertial::ImuBias;

// ΔR · Exp(∂ΔR/∂bg · δbg).
#[tactic(auto, unfolding(crate::specs::Correction::rotation_with_bias, crate::specs::Correction::rotation_with))]
pub fn delta_rotation_with_bias(
    state: PreintegratedImu,
    bias: ImuBias,
) -> Result<[f64; 9], sincos::Refusal>
    ensures { told_rotation result ≡ rotation_with_bias state bias }
{
    if !imu::is_finite_bias(bias) {
        return Err(sincos::Refusal::NonFinite);
    }
    let d = rotation::increment_of(correction_turn(&state, bias));
    if sincos::is_above_four(d.angle) {
        return Err(sincos::Refusal::AngleRange);
    }
    let rotation = mat3::product(state.delta_rotation, d.exp);
    if !(number::is_finite(d.angle) & mat3::is_finite(rotation)) {
        return Err(sincos::Refusal::NonFinite);
    }
    Ok(rotation)
}

// Δv + ∂Δv/∂bg · δbg + ∂Δv/∂ba · δba.
#[tactic(auto, unfolding(crate::specs::Correction::velocity_with))]
pub fn delta_velocity_with_bias(
    state: PreintegratedImu,
    bias: ImuBias,
) -> Result<[f64; 3], number::Refusal>
    ensures { told_vector result ≡ corrected_of bias (velocity_with state bias) }
{
    corrected(
        &state,
        bias,
        state.delta_velocity,
        state.d_velocity_d_bias_gyro,
        state.d_velocity_d_bias_accel,
    )
}

// Δp + ∂Δp/∂bg · δbg + ∂Δp/∂ba · δba.
#[tactic(auto, unfolding(crate::specs::Correction::position_with))]
pub fn delta_position_with_bias(
    state: PreintegratedImu,
    bias: ImuBias,
) -> Result<[f64; 3], number::Refusal>
    ensures { told_vector result ≡ corrected_of bias (position_with state bias) }
{
    corrected(
        &state,
        bias,
        state.delta_position,
        state.d_position_d_bias_gyro,
        state.d_position_d_bias_accel,
    )
}

// x + ∂x/∂bg · δbg + ∂x/∂ba · δba.
#[tactic(auto, unfolding(crate::specs::Correction::accel_change, crate::specs::Correction::corrected_of, crate::specs::Correction::gyro_change, crate::specs::Correction::vector_with))]
fn corrected(
    state: &PreintegratedImu,
    bias: ImuBias,
    x: [f64; 3],
    by_gyro: [f64; 9],
    by_accel: [f64; 9],
) -> Result<[f64; 3], number::Refusal>
    ensures { told_vector result ≡ corrected_of bias (vector_with x by_gyro by_accel (gyro_change state.now bias) (accel_change state.now bias)) }
{
    if !imu::is_finite_bias(bias) {
        return Err(number::Refusal::NonFinite);
    }
    let gyro = vec3::vector_difference(bias.gyro, state.bias.gyro);
    let accel = vec3::vector_difference(bias.accel, state.bias.accel);
    let vector = vec3::vector_sum(
        vec3::vector_sum(x, mat3::transform(by_gyro, gyro)),
        mat3::transform(by_accel, accel),
    );
    if !vec3::is_finite_vector(vector) {
        return Err(number::Refusal::NonFinite);
    }
    Ok(vector)
}

#[tactic(auto, unfolding(crate::specs::Correction::correction_turn, crate::specs::Correction::gyro_change))]
fn correction_turn(state: &PreintegratedImu, bias: ImuBias) -> [f64; 3]
    ensures { result ≡ correction_turn state.now bias }
{
    mat3::transform(
        state.d_rotation_d_bias_gyro,
        vec3::vector_difference(bias.gyro, state.bias.gyro),
    )
}

// The motion at the next frame, from rotation r, velocity v and position p at this one, with gravity g, all in the world. r, v and
// p stand one by one and not as a Motion, as in the definitions `predict_of` and `predicted_state`.
#[tactic(auto, unfolding(crate::specs::Correction::finite_prediction, crate::specs::Correction::predict_of))]
pub fn predict(
    state: PreintegratedImu,
    r: [f64; 9],
    v: [f64; 3],
    p: [f64; 3],
    g: [f64; 3],
) -> Result<Motion, number::Refusal>
    ensures { told_predicted result ≡ predict_of state r v p g }
{
    if !(mat3::is_finite(r)
        & vec3::is_finite_vector(v)
        & vec3::is_finite_vector(p)
        & vec3::is_finite_vector(g))
    {
        return Err(number::Refusal::NonFinite);
    }
    let next = predicted_state(&state, r, v, p, g);
    if !next.is_finite() {
        return Err(number::Refusal::NonFinite);
    }
    Ok(next)
}

#[tactic(auto, unfolding(crate::specs::Correction::predicted_state))]
fn predicted_state(
    state: &PreintegratedImu,
    r: [f64; 9],
    v: [f64; 3],
    p: [f64; 3],
    g: [f64; 3],
) -> Motion
    ensures { result ≡ predicted_state state.now r v p g }
{
    let dt = state.dt;
    Motion {
        rotation: mat3::product(r, state.delta_rotation),
        velocity: vec3::vector_sum(
            vec3::vector_sum(v, vec3::vector_scaled(g, dt)),
            mat3::transform(r, state.delta_velocity),
        ),
        position: vec3::vector_sum(
            vec3::vector_sum(
                vec3::vector_sum(p, vec3::vector_scaled(v, dt)),
                vec3::vector_scaled(g, imu_step::half_square(dt)),
            ),
            mat3::transform(r, state.delta_position),
        ),
    }
}
