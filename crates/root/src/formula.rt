// The formula alone, for a caller that has tested its input, or that judges a result in which a NaN shows. The entry that refuses is `sqrt`.
ghost use Rattle.std.specs.Prelude.{◌≡◌};
ghost use Rattle.root.specs.Root.{or_nan, sqrt_of};

use crate::sqrt;

// The root of x, or a NaN where it has none.
pub fn root_or_nan(x: f64) -> f64
    ensures { result ≡ or_nan (sqrt_of x) }
{
    sqrt(x).unwrap_or(f64::NAN)
}
