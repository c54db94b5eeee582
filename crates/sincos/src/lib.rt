// Sine and cosine of an angle of at most 4 in size, both from one call, by the evaluation of docs/SINCOS.md.
#![tactic(auto)]

ghost use Rattle.std.specs.Prelude.{◌≡◌};
ghost use Rattle.sincos.specs.Refusals.{row_of};
ghost use Rattle.sincos.specs.Turn.{above_four, said_turned, sin_cos_of};

pub mod formula;

use formula::turn_of;
use number::{Numbered, is_finite, size};

#[derive(Clone, Copy)]
pub struct SinCos {
    pub sin: f64,
    pub cos: f64,
}

#[derive(Clone, Copy, Debug, PartialEq, Eq)]
pub enum Refusal {
    // The angle, or something else that was asked about, is an infinity or a NaN.
    NonFinite,
    // A finite angle above 4 in size.
    AngleRange,
}

impl Numbered for Refusal {
    ghost row_of = { row_of };

    fn number(self) -> u64 {
        match self {
            Refusal::NonFinite => 2,
            Refusal::AngleRange => 8,
        }
    }
}

#[tactic(auto, unfolding(crate::specs::Turn::sin_cos_of))]
pub fn sin_cos(x: f64) -> Result<SinCos, Refusal>
    ensures { said_turned result ≡ sin_cos_of x }
{
    if !is_finite(x) {
        return Err(Refusal::NonFinite);
    }
    if is_above_four(x) {
        return Err(Refusal::AngleRange);
    }
    Ok(turn_of(x))
}

// A finite angle above 4 in size: what AngleRange refuses.
#[tactic(auto, unfolding(crate::specs::Turn::above_four))]
pub fn is_above_four(x: f64) -> bool
    ensures { result ≡ above_four x }
{
    is_finite(x) & (4.0 < size(x))
}
