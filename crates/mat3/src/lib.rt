// 3×3 matrices of f64: nine numbers by value, column by column, as the Rust's `Mat3F64` stores them. In the names of locals `m12` is what stands in row 1 and
// column 2.
#![tactic(auto)]

ghost use Rattle.std.specs.Prelude.{◌≡◌, ◌∷◌, []};
ghost use Rattle.mat3.specs.Matrix.{column as column_of, columns as columns_of, diagonal as diagonal_of, difference as difference_of, finite_matrix, hat as hat_of, identity as identity_of, product as product_of, scaled as scaled_of, sum as sum_of, transform as transform_of, transpose as transpose_of, yaw as yaw_of, zeros as zeros_of};

// 0 everywhere.
pub fn zeros() -> [f64; 9]
    ensures { result ≡ zeros_of }
{
    [0.0; 9]
}

// 1 on the diagonal, and 0 elsewhere.
pub fn identity() -> [f64; 9]
    ensures { result ≡ identity_of }
{
    [1.0, 0.0, 0.0, 0.0, 1.0, 0.0, 0.0, 0.0, 1.0]
}

// The product a · b: each sum adds k = 0, 1, 2 in that order.
pub fn product(a: [f64; 9], b: [f64; 9]) -> [f64; 9]
    ensures { result ≡ product_of a b }
{
    let [first, second, third] = columns(b);
    from_columns(
        transform(a, first),
        transform(a, second),
        transform(a, third),
    )
}

// The product of a with the three numbers v.
pub fn transform(a: [f64; 9], v: [f64; 3]) -> [f64; 3]
    ensures { result ≡ transform_of a v }
{
    let [a00, a10, a20, a01, a11, a21, a02, a12, a22] = a;
    let [v0, v1, v2] = v;
    [
        a00 * v0 + a01 * v1 + a02 * v2,
        a10 * v0 + a11 * v1 + a12 * v2,
        a20 * v0 + a21 * v1 + a22 * v2,
    ]
}

// Rows and columns exchanged.
pub fn transpose(a: [f64; 9]) -> [f64; 9]
    ensures { result ≡ transpose_of a }
{
    let [a00, a10, a20, a01, a11, a21, a02, a12, a22] = a;
    [a00, a01, a02, a10, a11, a12, a20, a21, a22]
}

// The sum, entry by entry.
pub fn sum(a: [f64; 9], b: [f64; 9]) -> [f64; 9]
    ensures { result ≡ sum_of a b }
{
    std::array::from_fn(|n| a[n] + b[n])
}

// The difference, entry by entry.
pub fn difference(a: [f64; 9], b: [f64; 9]) -> [f64; 9]
    ensures { result ≡ difference_of a b }
{
    std::array::from_fn(|n| a[n] - b[n])
}

// Every entry times s.
pub fn scaled(a: [f64; 9], s: f64) -> [f64; 9]
    ensures { result ≡ scaled_of a s }
{
    std::array::from_fn(|n| a[n] * s)
}

// a, b, c on the diagonal, and 0 elsewhere.
pub fn diagonal(a: f64, b: f64, c: f64) -> [f64; 9]
    ensures { result ≡ diagonal_of a b c }
{
    [a, 0.0, 0.0, 0.0, b, 0.0, 0.0, 0.0, c]
}

// The cross product with (x, y, z), as a matrix.
pub fn hat(x: f64, y: f64, z: f64) -> [f64; 9]
    ensures { result ≡ hat_of x y z }
{
    [0.0, z, -y, -z, 0.0, x, y, -x, 0.0]
}

// The turn about the upright axis by an angle with sine s and cosine c.
pub fn yaw(s: f64, c: f64) -> [f64; 9]
    ensures { result ≡ yaw_of s c }
{
    [c, s, 0.0, -s, c, 0.0, 0.0, 0.0, 1.0]
}

// The three columns of a matrix.
pub fn columns(m: [f64; 9]) -> [[f64; 3]; 3]
    ensures { result ≡ column_of m 0 ∷ column_of m 1 ∷ column_of m 2 ∷ [] }
{
    let [m00, m10, m20, m01, m11, m21, m02, m12, m22] = m;
    [[m00, m10, m20], [m01, m11, m21], [m02, m12, m22]]
}

// The matrix of three columns.
pub fn from_columns(a: [f64; 3], b: [f64; 3], c: [f64; 3]) -> [f64; 9]
    ensures { result ≡ columns_of a b c }
{
    [a[0], a[1], a[2], b[0], b[1], b[2], c[0], c[1], c[2]]
}

// No entry is an infinity or a NaN: column by column as the definition, and with no branch, where mat9's test of any size stops at the first.
pub fn is_finite(m: [f64; 9]) -> bool
    ensures { result ≡ finite_matrix m }
{
    let [first, second, third] = columns(m);
    vec3::is_finite_vector(first) & vec3::is_finite_vector(second) & vec3::is_finite_vector(third)
}
