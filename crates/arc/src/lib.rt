// The arc of a constant twist: the SE(2) exponential and its Jacobian. From kornia's wheel.rs, where it is private: what it gives is judged by the
// step, so all of it stands in the module `formula`.
#![tactic(auto)]

pub mod formula;

// A = sin w / w, B = (1 − cos w) / w and their derivatives in w.
#[derive(Clone, Copy)]
pub struct Coefficients {
    pub a: f64,
    pub b: f64,
    pub da: f64,
    pub db: f64,
}

// Where the arc ends, and how that moves with the twist increment.
#[derive(Clone, Copy)]
pub struct Arc {
    pub delta: [f64; 3],
    pub jacobian: [f64; 9],
}
