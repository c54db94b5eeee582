// Turns in space: the exponential and its right Jacobian, and the way back onto the rotations. From kornia's imu.rs.
#![tactic(auto)]

ghost use Rattle.std.specs.Prelude.{◌≡◌};
ghost use Rattle.rotation.specs.Rotation.{across as across_of, closed_forms, coefficients_of, exp_by, hat_of, increment_of, jacobian_by, normalized as normalized_of, series_of, unit as unit_of};

// A = sin θ / θ, B = (1 − cos θ) / θ², C = (θ − sin θ) / θ³.
#[derive(Clone, Copy)]
pub struct Coefficients {
    pub a: f64,
    pub b: f64,
    pub c: f64,
}

// The angle of a turn, its exponential and its right Jacobian.
#[derive(Clone, Copy)]
pub struct Increment {
    pub angle: f64,
    pub exp: [f64; 9],
    pub jacobian: [f64; 9],
}

// The turn v: its axis times its angle.
#[tactic(auto, unfolding(crate::specs::Rotation::increment_of))]
pub fn increment_of(v: [f64; 3]) -> Increment
    ensures { result ≡ increment_of v }
{
    let square = vec3::dot(v, v);
    let angle = root::formula::root_or_nan(square);
    let k = coefficients_of(square, angle);
    let h = hat_of(v);
    let h2 = mat3::product(h, h);
    Increment {
        angle,
        exp: exp_by(k, h, h2),
        jacobian: jacobian_by(k, h, h2),
    }
}

// Below 1e-6 the closed forms cancel catastrophically, so the series stand in.
#[tactic(auto, unfolding(crate::specs::Rotation::coefficients_of))]
fn coefficients_of(square: f64, angle: f64) -> Coefficients
    ensures { result ≡ coefficients_of square angle }
{
    if square < 0.000001 {
        return series_of(square);
    }
    closed_forms(square, angle)
}

#[tactic(auto, unfolding(crate::specs::Rotation::series_of))]
fn series_of(square: f64) -> Coefficients
    ensures { result ≡ series_of square }
{
    let fourth = square * square;
    Coefficients {
        a: 1.0 - square / 6.0 + fourth / 120.0,
        b: 0.5 - square / 24.0 + fourth / 720.0,
        c: 1.0 / 6.0 - square / 120.0 + fourth / 5040.0,
    }
}

#[tactic(auto, unfolding(crate::specs::Rotation::closed_forms))]
fn closed_forms(square: f64, angle: f64) -> Coefficients
    ensures { result ≡ closed_forms square angle }
{
    let turn = sincos::formula::turn_of(angle);
    Coefficients {
        a: turn.sin / angle,
        b: (1.0 - turn.cos) / square,
        c: (angle - turn.sin) / (square * angle),
    }
}

// The cross product with v, as a matrix.
pub fn hat_of(v: [f64; 3]) -> [f64; 9]
    ensures { result ≡ hat_of v }
{
    mat3::hat(v[0], v[1], v[2])
}

// I + A·H + B·H².
#[tactic(auto, unfolding(crate::specs::Rotation::exp_by))]
fn exp_by(k: Coefficients, h: [f64; 9], h2: [f64; 9]) -> [f64; 9]
    ensures { result ≡ exp_by k h h2 }
{
    mat3::sum(
        mat3::sum(mat3::identity(), mat3::scaled(h, k.a)),
        mat3::scaled(h2, k.b),
    )
}

// I − B·H + C·H².
#[tactic(auto, unfolding(crate::specs::Rotation::jacobian_by))]
fn jacobian_by(k: Coefficients, h: [f64; 9], h2: [f64; 9]) -> [f64; 9]
    ensures { result ≡ jacobian_by k h h2 }
{
    mat3::sum(
        mat3::difference(mat3::identity(), mat3::scaled(h, k.b)),
        mat3::scaled(h2, k.c),
    )
}

// The rotation nearest to what rounding has left of one: Gram and Schmidt's way on the first two columns, and their cross product.
#[tactic(auto, unfolding(crate::specs::Rotation::normalized))]
pub fn normalized(r: [f64; 9]) -> [f64; 9]
    ensures { result ≡ normalized_of r }
{
    let [first, second, _] = mat3::columns(r);
    let e0 = unit(first);
    let e1 = unit(across(second, e0));
    mat3::from_columns(e0, e1, vec3::cross(e0, e1))
}

#[tactic(auto, unfolding(crate::specs::Rotation::unit))]
fn unit(v: [f64; 3]) -> [f64; 3]
    ensures { result ≡ unit_of v }
{
    vec3::vector_scaled(v, 1.0 / root::formula::root_or_nan(vec3::dot(v, v)))
}

// v without its part along the unit vector e.
#[tactic(auto, unfolding(crate::specs::Rotation::across))]
fn across(v: [f64; 3], e: [f64; 3]) -> [f64; 3]
    ensures { result ≡ across_of v e }
{
    vec3::vector_difference(v, vec3::vector_scaled(e, vec3::dot(v, e)))
}
