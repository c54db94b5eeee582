// Tests and choices on f64 that IEEE 754 has no operator for. Those that std has too stand here under the names of the definitions, by which all crates above
// prove.
ghost use Rattle.std.specs.Prelude.{◌≡◌};
ghost use Rattle.number.specs.Fit.{finite_not_negative, finite_positive};
ghost use Rattle.number.specs.Float.{finite};
ghost use Rattle.number.specs.Float.{size as size_of};
ghost use Rattle.number.specs.Float.{larger as larger_of};

// Neither an infinity nor a NaN.
pub fn is_finite(x: f64) -> bool
    ensures { result ≡ finite x }
{
    x.is_finite()
}

// Finite and above 0: what a length or a sigma has to be.
#[tactic(auto, unfolding(crate::specs::Fit::finite_positive))]
pub fn is_finite_positive(x: f64) -> bool
    ensures { result ≡ finite_positive x }
{
    is_finite(x) & (0.0 < x)
}

// Finite and not below 0: what a noise density has to be.
#[tactic(auto, unfolding(crate::specs::Fit::finite_not_negative))]
pub fn is_finite_not_negative(x: f64) -> bool
    ensures { result ≡ finite_not_negative x }
{
    is_finite(x) & (0.0 <= x)
}

// x without its sign.
pub fn size(x: f64) -> f64
    ensures { result ≡ size_of x }
{
    x.abs()
}

// The larger of two; a NaN is passed over, and of two that are equal the first is taken. By hand, since std's `max` says of equal ones only that it gives
// either, and 01 tells the zeros apart.
#[tactic(auto, unfolding(crate::specs::Float::larger))]
pub fn larger(a: f64, b: f64) -> f64
    ensures { result ≡ larger_of a b }
{
    if a < b {
        return b;
    }
    if a.is_nan() { b } else { a }
}
