// The formula alone, for a caller that has tested its input: composing two motions whatever they hold, and its parts. The entry that refuses is
// `PlanarMotion::compose`.
ghost use Rattle.std.specs.Prelude.{◌≡◌};
ghost use Rattle.planar.specs.Compose.{carried as carried_of, composed as composed_of, first_jacobian, symmetrized as symmetrized_of, turn_matrix, wrapped as wrapped_of};

use crate::PlanarMotion;
use number::{PI, TAU};

// The motion `first` then `next`. The covariance propagates to first order through the composition; the two motions' noise is independent.
#[tactic(auto, unfolding(crate::specs::Compose::composed, crate::specs::Compose::shifted))]
pub fn composed(first: PlanarMotion, next: PlanarMotion) -> PlanarMotion
    ensures { result ≡ composed_of first next }
{
    let a = first.delta;
    let b = next.delta;
    let p = first.covariance;
    let q = next.covariance;
    let turn = turn_matrix(a[2]);
    let t = mat3::transform(turn, [b[0], b[1], 0.0]);
    let tx = t[0];
    let ty = t[1];
    let delta = [a[0] + tx, a[1] + ty, wrapped(a[2] + b[2])];
    let covariance = symmetrized(carried_by_shift(tx, ty, p), carried_by_turn(turn, q));
    PlanarMotion { delta, covariance }
}

// A heading sum back within half a turn, by one turn at most.
#[tactic(auto, unfolding(crate::specs::Compose::wrapped))]
fn wrapped(s: f64) -> f64
    ensures { result ≡ wrapped_of s }
{
    if (-PI <= s) & (s <= PI) {
        return s;
    }
    if PI < s {
        return s - TAU;
    }
    s + TAU
}

#[tactic(auto, unfolding(crate::specs::Compose::turn_matrix))]
pub fn turn_matrix(heading: f64) -> [f64; 9]
    ensures { result ≡ turn_matrix heading }
{
    let v = sincos::formula::turn_of(heading);
    mat3::yaw(v.sin, v.cos)
}

// How the composed motion moves with the first, whose end is shifted by (tx, ty).
fn first_jacobian(tx: f64, ty: f64) -> [f64; 9]
    ensures { result ≡ first_jacobian tx ty }
{
    [1.0, 0.0, 0.0, 0.0, 1.0, 0.0, -ty, tx, 1.0]
}

// The covariance s of the first motion, carried by its Jacobian. Each kind of Jacobian has a function of its own, since a function with one caller is compiled
// in its place, where the Jacobian's ones are known.
fn carried_by_shift(tx: f64, ty: f64, s: [f64; 9]) -> [f64; 9]
    ensures { result ≡ carried_of (first_jacobian tx ty) s }
{
    carried(first_jacobian(tx, ty), s)
}

// The covariance s of the second motion, carried by the turn y.
fn carried_by_turn(y: [f64; 9], s: [f64; 9]) -> [f64; 9]
    ensures { result ≡ carried_of y s }
{
    carried(y, s)
}

// The covariance s of a motion or of a twist increment, carried by a Jacobian j: j · s · jᵀ, left to right. Inlined, so that the two above are compiled
// with it.
#[inline(always)]
#[tactic(auto, unfolding(crate::specs::Compose::carried))]
pub fn carried(j: [f64; 9], s: [f64; 9]) -> [f64; 9]
    ensures { result ≡ carried_of j s }
{
    mat3::product(mat3::product(j, s), mat3::transpose(j))
}

// ((a + aᵀ) + (b + bᵀ)) · 0.5: symmetric to the last bit, given the grouping.
#[tactic(auto, unfolding(crate::specs::Compose::symmetrized))]
fn symmetrized(a: [f64; 9], b: [f64; 9]) -> [f64; 9]
    ensures { result ≡ symmetrized_of a b }
{
    let first = mat3::sum(a, mat3::transpose(a));
    let second = mat3::sum(b, mat3::transpose(b));
    mat3::scaled(mat3::sum(first, second), 0.5)
}
