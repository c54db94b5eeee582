// What depends only on drive and noise and is kept in the integrator, so that no reading works it out again: 02, W-206. From kornia's wheel.rs, which
// works it out at each.
#![tactic(auto)]

ghost use Rattle.std.specs.Prelude.{◌≡◌};
ghost use Rattle.kept.specs.Kept.{beside_zero, kept_of, rate_noise};

use drive::formula::{columns, radians_per_tick};
use drive::{DifferentialDrive, TwistColumns, WheelNoise};

// The covariance per second of the twist, and how far a wheel turns from one encoder count to the next.
#[derive(Clone, Copy)]
pub struct KeptValues {
    pub rate_noise: [f64; 9],
    pub radians_per_tick: f64,
}

impl KeptValues {
    // Stands where there are none.
    pub const BLANK: KeptValues = KeptValues {
        rate_noise: [0.0; 9],
        radians_per_tick: 0.0,
    };
}

// The values worked out from drive and noise. Those can be fit and a value be infinite or NaN; a NaN is stored as 7ff8000000000000.
#[tactic(auto, unfolding(crate::specs::Kept::kept_of))]
pub fn kept_of(drive: DifferentialDrive, noise: WheelNoise) -> KeptValues
    ensures { result ≡ kept_of drive noise }
{
    KeptValues {
        rate_noise: settled_noise(rate_noise(drive, noise)),
        radians_per_tick: settled(radians_per_tick(drive)),
    }
}

// J · Jᵀ · σ², and the side-slip.
#[tactic(auto, unfolding(crate::specs::Kept::rate_noise))]
fn rate_noise(drive: DifferentialDrive, noise: WheelNoise) -> [f64; 9]
    ensures { result ≡ rate_noise drive noise }
{
    let j = beside_zero(columns(drive));
    let wheel = noise.wheel_rate * noise.wheel_rate;
    let lateral = noise.lateral_velocity * noise.lateral_velocity;
    let turned = mat3::scaled(mat3::product(j, mat3::transpose(j)), wheel);
    mat3::sum(turned, mat3::diagonal(0.0, lateral, 0.0))
}

// The two columns, and a third of zeros.
fn beside_zero(c: TwistColumns) -> [f64; 9]
    ensures { result ≡ beside_zero c }
{
    [
        c.left.vx, c.left.vy, c.left.wz, c.right.vx, c.right.vy, c.right.wz, 0.0, 0.0, 0.0,
    ]
}

// ---- one NaN in memory too. To the logic each of these gives back what it is given, since there all NaNs are one. A processor has many: one that it makes
// of infinity less infinity has a sign bit on x86-64 and none on Arm. Here it is a constant, the compiler's, whose bits tools/kept_bytes.py reads back.

fn settled(x: f64) -> f64
    ensures { result ≡ x }
{
    if x != x { 0.0 / 0.0 } else { x }
}

// A loop: by `map` and by `array::from_fn` the proof that what comes of it is q itself did not close.
fn settled_noise(q: [f64; 9]) -> [f64; 9]
    ensures { result ≡ q }
{
    let mut s = q;
    for x in &mut s {
        *x = settled(*x);
    }
    s
}
