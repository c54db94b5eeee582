// The determinant of a 3×3 matrix and its inverse. In the names of locals `m12` is what stands in row 1 and column 2.
#![tactic(auto)]

ghost use Rattle.std.specs.Prelude.{◌≡◌};
ghost use Rattle.inverse3.specs.Inverse.{adjugate as adjugate_of, determinant as determinant_of, inverse as inverse_of};

// The determinant, expanded along row 0.
pub fn determinant(m: [f64; 9]) -> f64
    ensures { result ≡ determinant_of m }
{
    let [m00, m10, m20, m01, m11, m21, m02, m12, m22] = m;
    m00 * (m11 * m22 - m12 * m21) - m01 * (m10 * m22 - m12 * m20) + m02 * (m10 * m21 - m11 * m20)
}

// Each entry is the cofactor of the entry across the diagonal.
fn adjugate(m: [f64; 9]) -> [f64; 9]
    ensures { result ≡ adjugate_of m }
{
    let [m00, m10, m20, m01, m11, m21, m02, m12, m22] = m;
    [
        m11 * m22 - m12 * m21,
        m12 * m20 - m10 * m22,
        m10 * m21 - m11 * m20,
        m21 * m02 - m22 * m01,
        m22 * m00 - m20 * m02,
        m20 * m01 - m21 * m00,
        m01 * m12 - m02 * m11,
        m02 * m10 - m00 * m12,
        m00 * m11 - m01 * m10,
    ]
}

// The adjugate times 1 over the determinant. Whether the determinant is fit to divide by is the caller's to ask.
pub fn inverse(m: [f64; 9]) -> [f64; 9]
    ensures { result ≡ inverse_of m }
{
    mat3::scaled(adjugate(m), 1.0 / determinant(m))
}
