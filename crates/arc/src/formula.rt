// The formula alone, for a caller that has tested its input: the arc of any twist increment.
ghost use Rattle.std.specs.Prelude.{◌≡◌};
ghost use Rattle.arc.specs.Arc.{se2_exp, closed_forms, coefficients_of, increment_of, series as series_of};

use crate::{Arc, Coefficients};
use planar::PlanarMotion;

// The motion of holding the twist increment (x, y, w), whose covariance is q.
#[tactic(auto, unfolding(crate::specs::Arc::increment_of))]
pub fn from_twist_increment(x: f64, y: f64, w: f64, q: [f64; 9]) -> PlanarMotion
    ensures { result ≡ increment_of x y w q }
{
    let Arc { delta, jacobian } = se2_exp(x, y, w);
    PlanarMotion {
        delta,
        covariance: planar::formula::carried(jacobian, q),
    }
}

// The SE(2) exponential of (x, y, w) as (x, y, θ), and its Jacobian.
#[tactic(auto, unfolding(crate::specs::Arc::se2_exp))]
fn se2_exp(x: f64, y: f64, w: f64) -> Arc
    ensures { result ≡ se2_exp x y w }
{
    let Coefficients { a, b, da, db } = coefficients_of(w);
    Arc {
        delta: [a * x - b * y, b * x + a * y, w],
        jacobian: [a, b, 0.0, -b, a, 0.0, da * x - db * y, db * x + da * y, 1.0],
    }
}

// Below 1e-3 the closed forms cancel catastrophically, so the Taylor series stand in.
#[tactic(auto, unfolding(crate::specs::Arc::coefficients_of))]
fn coefficients_of(w: f64) -> Coefficients
    ensures { result ≡ coefficients_of w }
{
    if number::size(w) < 0.001 {
        return series(w);
    }
    closed_forms(w)
}

#[tactic(auto, unfolding(crate::specs::Arc::series))]
fn series(w: f64) -> Coefficients
    ensures { result ≡ series_of w }
{
    let w2 = w * w;
    Coefficients {
        a: 1.0 - w2 / 6.0 + w2 * w2 / 120.0,
        b: w / 2.0 - w * w2 / 24.0,
        da: -w / 3.0 + w * w2 / 30.0,
        db: 0.5 - w2 / 8.0 + w2 * w2 / 144.0,
    }
}

#[tactic(auto, unfolding(crate::specs::Arc::closed_forms))]
fn closed_forms(w: f64) -> Coefficients
    ensures { result ≡ closed_forms w }
{
    let v = sincos::formula::turn_of(w);
    let a = v.sin / w;
    let b = (1.0 - v.cos) / w;
    Coefficients {
        a,
        b,
        da: (v.cos - a) / w,
        db: (v.sin - b) / w,
    }
}
