// Three numbers by value as a vector, as the Rust's `Vec3F64`.
#![tactic(auto)]

ghost use Rattle.std.specs.Prelude.{◌≡◌};
ghost use Rattle.vec3.specs.Vector.{cross as cross_of, dot as dot_of, finite_vector, vector_difference, vector_scaled, vector_sum};

// The sum, coordinate by coordinate. It, the difference and the scaled vector are one line each here, in mat3 and in mat9: std's `array::from_fn` is the function
// for any size, and one of our own around it would state its closure's contract once more.
pub fn vector_sum(a: [f64; 3], b: [f64; 3]) -> [f64; 3]
    ensures { result ≡ vector_sum a b }
{
    std::array::from_fn(|i| a[i] + b[i])
}

// The difference, coordinate by coordinate.
pub fn vector_difference(a: [f64; 3], b: [f64; 3]) -> [f64; 3]
    ensures { result ≡ vector_difference a b }
{
    std::array::from_fn(|i| a[i] - b[i])
}

// Every coordinate times s.
pub fn vector_scaled(v: [f64; 3], s: f64) -> [f64; 3]
    ensures { result ≡ vector_scaled v s }
{
    std::array::from_fn(|i| v[i] * s)
}

// The scalar product.
pub fn dot(a: [f64; 3], b: [f64; 3]) -> f64
    ensures { result ≡ dot_of a b }
{
    a[0] * b[0] + a[1] * b[1] + a[2] * b[2]
}

// The cross product.
pub fn cross(a: [f64; 3], b: [f64; 3]) -> [f64; 3]
    ensures { result ≡ cross_of a b }
{
    let [a0, a1, a2] = a;
    let [b0, b1, b2] = b;
    [a1 * b2 - a2 * b1, a2 * b0 - a0 * b2, a0 * b1 - a1 * b0]
}

// None of the three numbers is an infinity or a NaN.
#[tactic(auto, unfolding(crate::specs::Vector::three_finite))]
pub fn is_finite_vector(v: [f64; 3]) -> bool
    ensures { result ≡ finite_vector v }
{
    number::is_finite(v[0]) & number::is_finite(v[1]) & number::is_finite(v[2])
}
