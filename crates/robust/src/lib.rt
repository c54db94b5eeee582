// The Huber limit that wheel and still factors share: a threshold on a residual's chi², or none, where the factor stays quadratic.
#![tactic(auto)]

ghost use Rattle.std.specs.Prelude.{◌≡◌};
ghost use Rattle.robust.specs.Huber.{valid_huber, joined_of, tighter};

// The tighter of two limits; either makes the joined factor robust.
pub fn joined(first: Option<f64>, next: Option<f64>) -> Option<f64>
    ensures { result ≡ joined_of first next }
{
    match (first, next) {
        (Some(a), Some(b)) => Some(if is_tighter(a, b) { b } else { a }),
        (limit, None) | (None, limit) => limit,
    }
}

// None, or finite and above 0.
pub fn is_valid(limit: Option<f64>) -> bool
    ensures { result ≡ valid_huber limit }
{
    limit.is_none_or(|a| number::is_finite_positive(a))
}

// b is below a, or a number where a is none.
#[tactic(auto, unfolding(crate::specs::Huber::tighter))]
fn is_tighter(a: f64, b: f64) -> bool
    ensures { result ≡ tighter a b }
{
    (b < a) | (a.is_nan() & !b.is_nan())
}
