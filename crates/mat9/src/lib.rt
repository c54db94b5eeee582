// The 9×9, 9×6 and 6×6 matrices of the inertial covariance: numbers column by column. From the helpers at the end of kornia's imu.rs; their products are the
// crate `lean9`. Arrays that are only read are lent and a result is returned by value, so that no matrix is copied to be read. Every size is a constant, so
// that no division is left to be done at run time.
#![tactic(auto)]

ghost use Rattle.std.specs.Prelude.{◌≡◌, ◌*◌};
ghost use Rattle.mat9.specs.Matrix.{all_finite, blocks, diagonal6, diagonal_raised, finite_diagonal, sum as sum_of};

// a + b.
pub fn mat9_add(a: &[f64; 81], b: &[f64; 81]) -> [f64; 81]
    ensures { result ≡ sum_of 9 9 a.now b.now }
{
    std::array::from_fn(|n| a[n] + b[n])
}

// Three rows of so many 3×3 matrices, as they are printed. Counted loops: an iterator over the places would have to divide each by nine for its row and column.
fn from_blocks<const ACROSS: usize, const PARTS: usize, const N: usize>(
    parts: [[f64; 9]; PARTS],
) -> [f64; N]
    requires { (PARTS ≡ 3 * ACROSS) × (N ≡ 9 * (3 * ACROSS)) }
    ensures { result ≡ blocks 3 ACROSS parts.entry }
{
    let mut out = [0.0; N];
    for c in 0..3 * ACROSS {
        for r in 0..9 {
            out[r + c * 9] = parts[r / 3 * ACROSS + c / 3][r % 3 + 3 * (c % 3)];
        }
    }
    out
}

// Three rows of three 3×3 matrices, as they are printed. This and the next are public by their sizes, since `from_blocks` asks for sizes that fit, and no public
// function has a requires.
pub fn block3x3_to_9x9(parts: [[f64; 9]; 9]) -> [f64; 81]
    ensures { result ≡ blocks 3 3 parts }
{
    from_blocks::<3, 9, 81>(parts)
}

// Three rows of two 3×3 matrices, as they are printed.
pub fn block3x2_to_9x6(parts: [[f64; 9]; 6]) -> [f64; 54]
    ensures { result ≡ blocks 3 2 parts }
{
    from_blocks::<2, 6, 54>(parts)
}

// a three times and then b three times on the diagonal, and 0 elsewhere. Its six places are written out here and in two functions below: a loop over them would be
// no shorter, and a sum of the first two would make +0 of a −0.
#[tactic(auto, unfolding(crate::specs::Matrix::diagonal6, crate::specs::Matrix::matrix, number::specs::Tabulated::tabulated))]
pub fn diag_6x6(a: f64, b: f64) -> [f64; 36]
    ensures { result ≡ diagonal6 a b }
{
    let mut out = [0.0; 36];
    out[0] = a;
    out[7] = a;
    out[14] = a;
    out[21] = b;
    out[28] = b;
    out[35] = b;
    out
}

// m with a added three times and then b three times on its diagonal.
pub fn with_raised_diagonal(m: [f64; 36], a: f64, b: f64) -> [f64; 36]
    ensures { result ≡ diagonal_raised m a b }
{
    let mut out = m;
    out[0] = m[0] + a;
    out[7] = m[7] + a;
    out[14] = m[14] + a;
    out[21] = m[21] + b;
    out[28] = m[28] + b;
    out[35] = m[35] + b;
    out
}

// No number of m is an infinity or a NaN.
pub fn all_finite(m: &[f64]) -> bool
    ensures { result ≡ all_finite m.now }
{
    m.iter().all(|x| number::is_finite(*x))
}

// No number on the diagonal of m is an infinity or a NaN.
#[tactic(auto, unfolding(crate::specs::Matrix::finite_diagonal))]
pub fn is_finite_diagonal(m: [f64; 36]) -> bool
    ensures { result ≡ finite_diagonal m }
{
    number::is_finite(m[0])
        & number::is_finite(m[7])
        & number::is_finite(m[14])
        & number::is_finite(m[21])
        & number::is_finite(m[28])
        & number::is_finite(m[35])
}
