// Numbers, on which nearly every other crate stands: tests of an f64, whole numbers as f64, counts of an encoder and their difference, the halving count.
// Each answers for every bit pattern, and its contract equates the answer with a definition of specs/.
#![tactic(auto)]

pub mod float;
pub mod halving;
mod refusal;
pub mod tick;
pub mod whole;

pub use float::{is_finite, is_finite_not_negative, is_finite_positive, larger, size};
pub use halving::{Halved, halvings};
pub use refusal::{Numbered, Refusal};
pub use tick::{tick_difference, tick_in_range};
pub use whole::whole_to_f64;

// The f64s nearest to π and 2π (specs/Constants.antt). Written out: std's `consts` would be no plainer, since specs/ has these two by their bits.
pub const PI: f64 = 3.141592653589793;

pub const TAU: f64 = 6.283185307179586;
