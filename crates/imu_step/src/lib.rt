// What one inertial step makes of each part of the state: rotation, velocity and position, their covariance, and how they move with the biases. From
// kornia's imu.rs.
#![tactic(auto)]

ghost use Rattle.std.specs.Prelude.{◌≡◌, ◌&&◌};
ghost use Rattle.mat3.specs.Matrix.{finite_matrix};
ghost use Rattle.vec3.specs.Vector.{finite_vector};
ghost use Rattle.imu_step.specs.Inside.Lean.{lean_covariance_after};
ghost use Rattle.imu_step.specs.Parts.{half_square, less_half_square, less_times, matrix_a, matrix_b, matrix_n, motion_after, position_after, position_by_accel, position_by_gyro, rotation_after, rotation_by_gyro, velocity_after, velocity_by_accel, velocity_by_gyro};

use inertial::ImuCalib;
use rotation::Increment;

// Accumulated rotation, velocity and position.
#[derive(Clone, Copy)]
pub struct Motion {
    pub rotation: [f64; 9],
    pub velocity: [f64; 3],
    pub position: [f64; 3],
}

impl Motion {
    // Stands where there is none.
    pub const BLANK: Motion = Motion {
        rotation: [0.0; 9],
        velocity: [0.0; 3],
        position: [0.0; 3],
    };

    pub fn is_finite(self) -> bool
        ensures { result ≡ (finite_matrix self.rotation && finite_vector self.velocity && finite_vector self.position) }
    {
        mat3::is_finite(self.rotation)
            & vec3::is_finite_vector(self.velocity)
            & vec3::is_finite_vector(self.position)
    }
}

pub fn half_square(dt: f64) -> f64
    ensures { result ≡ half_square dt }
{
    0.5 * dt * dt
}

// The functions from here on are alike in form only: each is one line of the file's update, and the definition of its name in specs/Parts.antt.

// −ΔR·[a]×·dt, of g = ΔR·[a]×.
fn less_times(g: [f64; 9], dt: f64) -> [f64; 9]
    ensures { result ≡ less_times g dt }
{
    mat3::scaled(g, -dt)
}

// −½·ΔR·[a]×·dt².
fn less_half_square(g: [f64; 9], dt: f64) -> [f64; 9]
    ensures { result ≡ less_half_square g dt }
{
    mat3::scaled(g, -0.5 * dt * dt)
}

// How an error of the state before grows into one of the state after.
fn matrix_a(exp: [f64; 9], g: [f64; 9], dt: f64) -> [f64; 81]
    ensures { result ≡ matrix_a exp g dt }
{
    let none = mat3::zeros();
    let same = mat3::identity();
    mat9::block3x3_to_9x9([
        mat3::transpose(exp),
        none,
        none,
        less_times(g, dt),
        same,
        none,
        less_half_square(g, dt),
        mat3::scaled(same, dt),
        same,
    ])
}

// How the sensor's noise enters the state.
#[tactic(auto, unfolding(crate::specs::Parts::matrix_b))]
fn matrix_b(jacobian: [f64; 9], rotation: [f64; 9], dt: f64) -> [f64; 54]
    ensures { result ≡ matrix_b jacobian rotation dt }
{
    let none = mat3::zeros();
    mat9::block3x2_to_9x6([
        mat3::scaled(jacobian, dt),
        none,
        none,
        mat3::scaled(rotation, dt),
        none,
        mat3::scaled(rotation, half_square(dt)),
    ])
}

// The densities are of continuous time, so that a reading held for dt has the variance density²/dt.
#[tactic(auto, unfolding(crate::specs::Parts::matrix_n))]
fn matrix_n(calib: ImuCalib, dt: f64) -> [f64; 36]
    ensures { result ≡ matrix_n calib dt }
{
    mat9::diag_6x6(
        calib.gyro_noise * calib.gyro_noise / dt,
        calib.accel_noise * calib.accel_noise / dt,
    )
}

// A·C·Aᵀ + B·N·Bᵀ. A, B and N are mostly zeros, and what meets a zero is left out of the products.
#[tactic(auto, unfolding(crate::specs::Inside::Lean::lean_covariance_after))]
pub fn covariance_after(
    before: &[f64; 81],
    calib: ImuCalib,
    rotation: [f64; 9],
    d: Increment,
    g: [f64; 9],
    dt: f64,
) -> [f64; 81]
    ensures { result ≡ lean_covariance_after before.now calib rotation d g dt }
{
    let a = matrix_a(d.exp, g, dt);
    let b = matrix_b(d.jacobian, rotation, dt);
    let n = matrix_n(calib, dt);
    lean9::carried(&a, before, &b, &n)
}

#[tactic(auto, unfolding(crate::specs::Parts::position_by_gyro))]
pub fn position_by_gyro(pg: [f64; 9], vg: [f64; 9], rg: [f64; 9], g: [f64; 9], dt: f64) -> [f64; 9]
    ensures { result ≡ position_by_gyro pg vg rg g dt }
{
    mat3::sum(
        mat3::sum(pg, mat3::scaled(vg, dt)),
        mat3::product(less_half_square(g, dt), rg),
    )
}

#[tactic(auto, unfolding(crate::specs::Parts::position_by_accel))]
pub fn position_by_accel(pa: [f64; 9], va: [f64; 9], rotation: [f64; 9], dt: f64) -> [f64; 9]
    ensures { result ≡ position_by_accel pa va rotation dt }
{
    mat3::difference(
        mat3::sum(pa, mat3::scaled(va, dt)),
        mat3::scaled(rotation, half_square(dt)),
    )
}

#[tactic(auto, unfolding(crate::specs::Parts::velocity_by_gyro))]
pub fn velocity_by_gyro(vg: [f64; 9], rg: [f64; 9], g: [f64; 9], dt: f64) -> [f64; 9]
    ensures { result ≡ velocity_by_gyro vg rg g dt }
{
    mat3::sum(vg, mat3::product(less_times(g, dt), rg))
}

#[tactic(auto, unfolding(crate::specs::Parts::velocity_by_accel))]
pub fn velocity_by_accel(va: [f64; 9], rotation: [f64; 9], dt: f64) -> [f64; 9]
    ensures { result ≡ velocity_by_accel va rotation dt }
{
    mat3::difference(va, mat3::scaled(rotation, dt))
}

#[tactic(auto, unfolding(crate::specs::Parts::rotation_by_gyro))]
pub fn rotation_by_gyro(rg: [f64; 9], d: Increment, dt: f64) -> [f64; 9]
    ensures { result ≡ rotation_by_gyro rg d dt }
{
    mat3::difference(
        mat3::product(mat3::transpose(d.exp), rg),
        mat3::scaled(d.jacobian, dt),
    )
}

#[tactic(auto, unfolding(crate::specs::Parts::position_after))]
fn position_after(position: [f64; 3], velocity: [f64; 3], u: [f64; 3], dt: f64) -> [f64; 3]
    ensures { result ≡ position_after position velocity u dt }
{
    vec3::vector_sum(
        vec3::vector_sum(position, vec3::vector_scaled(velocity, dt)),
        vec3::vector_scaled(u, half_square(dt)),
    )
}

#[tactic(auto, unfolding(crate::specs::Parts::velocity_after))]
fn velocity_after(velocity: [f64; 3], u: [f64; 3], dt: f64) -> [f64; 3]
    ensures { result ≡ velocity_after velocity u dt }
{
    vec3::vector_sum(velocity, vec3::vector_scaled(u, dt))
}

// Composed, then brought back onto the rotations, so that rounding does not drift away from them.
fn rotation_after(rotation: [f64; 9], d: Increment) -> [f64; 9]
    ensures { result ≡ rotation_after rotation d }
{
    rotation::normalized(mat3::product(rotation, d.exp))
}

// The motion after dt seconds of the acceleration a and the turn d. Every line uses values from before the step.
#[tactic(auto, unfolding(crate::specs::Parts::motion_after))]
pub fn motion_after(before: Motion, d: Increment, a: [f64; 3], dt: f64) -> Motion
    ensures { result ≡ motion_after before d a dt }
{
    let turned = rotation_after(before.rotation, d);
    let u = mat3::transform(before.rotation, a);
    Motion {
        rotation: turned,
        velocity: velocity_after(before.velocity, u, dt),
        position: position_after(before.position, before.velocity, u, dt),
    }
}
