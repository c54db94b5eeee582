// Planar motions of the cart's base, and the composing of two. From kornia's wheel.rs.
#![tactic(auto)]

pub mod formula;
mod motion;

// (dx, dy, dθ): base j in base i, metres and radians; and the covariance of the three, column by column.
#[derive(Clone, Copy)]
pub struct PlanarMotion {
    pub delta: [f64; 3],
    pub covariance: [f64; 9],
}
