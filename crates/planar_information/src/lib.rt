// What a covariance of x, y and the heading must be for its motion to have information, and the planar block of that information. From kornia's
// wheel_odom.rs.
#![tactic(auto)]

ghost use Rattle.std.specs.Prelude.{◌≡◌};
ghost use Rattle.planar_information.specs.Block.{invertible, near_symmetric, near_symmetry, planar_block, positive_determinant, positive_minors};

use planar::PlanarMotion;

// A positive determinant alone would pass diag(−1, −1, 1), and Sylvester's test needs symmetry.
#[tactic(auto, unfolding(crate::specs::Block::invertible))]
pub fn is_invertible(c: [f64; 9]) -> bool
    ensures { result ≡ invertible c }
{
    has_near_symmetry(c) & has_positive_minors(c) & has_positive_determinant(c)
}

// The covariance is over the delta, whose translation is in base-i axes; the residual carries the translation error in base-j axes. So the block is
// the covariance's inverse turned by the heading.
#[tactic(auto, unfolding(crate::specs::Block::planar_block))]
pub fn planar_block(motion: PlanarMotion) -> [f64; 9]
    ensures { result ≡ planar_block motion }
{
    let y = planar::formula::turn_matrix(motion.delta[2]);
    mat3::product(
        mat3::product(mat3::transpose(y), inverse3::inverse(motion.covariance)),
        y,
    )
}

// |cij − cji| is not above 1e-9·√|cii·cjj|. No tolerance is below 0, so an exact symmetry, as composing leaves it, needs no root.
#[tactic(auto, using(crate::proofs::Symmetry::exactly_symmetric), unfolding(crate::specs::Block::near_symmetric))]
fn is_near_symmetric(cii: f64, cij: f64, cji: f64, cjj: f64) -> bool
    ensures { result ≡ near_symmetric cii cij cji cjj }
{
    let apart = number::size(cij - cji);
    if apart == 0.0 {
        return true;
    }
    let tolerance = 1e-9 * root::formula::root_or_nan(number::size(cii * cjj));
    !(tolerance < apart)
}

#[tactic(auto, unfolding(crate::specs::Block::near_symmetry))]
fn has_near_symmetry(c: [f64; 9]) -> bool
    ensures { result ≡ near_symmetry c }
{
    is_near_symmetric(c[0], c[3], c[1], c[4])
        & is_near_symmetric(c[0], c[6], c[2], c[8])
        & is_near_symmetric(c[4], c[7], c[5], c[8])
}

fn has_positive_minors(c: [f64; 9]) -> bool
    ensures { result ≡ positive_minors c }
{
    let c00 = c[0];
    (0.0 < c00) & (0.0 < c00 * c[4] - c[3] * c[1])
}

fn has_positive_determinant(c: [f64; 9]) -> bool
    ensures { result ≡ positive_determinant c }
{
    number::is_finite_positive(inverse3::determinant(c))
}
