// The formula alone, for a caller that has tested its input: the evaluation of docs/SINCOS.md, of any angle. The entry that refuses is `sin_cos`.
ghost use Rattle.std.specs.Prelude.{◌≡◌};
ghost use Rattle.sincos.specs.Turn.{from_zero_up, less_quarters, long_kernel, short_kernel, turn_of};

use crate::SinCos;
use number::{PI, size};

// Entry k is the f64 nearest to 1/k!.
const F: [f64; 18] = [
    1.0,
    1.0,
    0.5,
    0.16666666666666666,
    0.041666666666666664,
    0.008333333333333333,
    0.001388888888888889,
    0.0001984126984126984,
    2.48015873015873e-05,
    2.7557319223985893e-06,
    2.755731922398589e-07,
    2.505210838544172e-08,
    2.08767569878681e-09,
    1.6059043836821613e-10,
    1.1470745597729725e-11,
    7.647163731819816e-13,
    4.779477332387385e-14,
    2.8114572543455206e-15,
];

// A quarter turn as an f64, and what it lacks of π/2.
const H: f64 = 1.5707963267948966;

const L: f64 = 6.123233995736766e-17;

#[tactic(auto, unfolding(crate::specs::Turn::turn_of))]
pub fn turn_of(x: f64) -> SinCos
    ensures { result ≡ turn_of x }
{
    let a = size(x);
    if a <= 0.03125 {
        return short_kernel(x);
    }
    let v = from_zero_up(a);
    if x < 0.0 {
        return SinCos {
            sin: -v.sin,
            cos: v.cos,
        };
    }
    v
}

// For |x| at most 2^-5: three terms are enough, and nearly every step of a cart takes this way.
#[tactic(auto, unfolding(crate::specs::Turn::short_kernel))]
fn short_kernel(x: f64) -> SinCos
    ensures { result ≡ short_kernel x }
{
    let z = x * x;
    SinCos {
        sin: x - x * (z * (F[3] - z * (F[5] - z * F[7]))),
        cos: 1.0 - z * (F[2] - z * (F[4] - z * F[6])),
    }
}

// For |r| up to a little above π/4.
#[tactic(auto, unfolding(crate::specs::Turn::long_kernel))]
fn long_kernel(r: f64) -> SinCos
    ensures { result ≡ long_kernel r }
{
    let z = r * r;
    let p = F[9] - z * (F[11] - z * (F[13] - z * (F[15] - z * F[17])));
    let q = F[8] - z * (F[10] - z * (F[12] - z * (F[14] - z * F[16])));
    SinCos {
        sin: r - r * (z * (F[3] - z * (F[5] - z * (F[7] - z * p)))),
        cos: 1.0 - z * (F[2] - z * (F[4] - z * (F[6] - z * q))),
    }
}

// The angle a less q quarter turns, and its sine and cosine.
#[tactic(auto, unfolding(crate::specs::Turn::less_quarters))]
fn after_quarters(a: f64, q: f64) -> SinCos
    ensures { result ≡ long_kernel (less_quarters a q) }
{
    long_kernel(a - q * H - q * L)
}

// For a from 2^-5 to 4: by the quarter in which the angle lies.
#[tactic(auto, unfolding(crate::specs::Turn::from_zero_up))]
fn from_zero_up(a: f64) -> SinCos
    ensures { result ≡ from_zero_up a }
{
    if a <= PI / 4.0 {
        return after_quarters(a, 0.0);
    }
    if a <= 3.0 * PI / 4.0 {
        let v = after_quarters(a, 1.0);
        return SinCos {
            sin: v.cos,
            cos: -v.sin,
        };
    }
    if a <= 5.0 * PI / 4.0 {
        let v = after_quarters(a, 2.0);
        return SinCos {
            sin: -v.sin,
            cos: -v.cos,
        };
    }
    let v = after_quarters(a, 3.0);
    SinCos {
        sin: -v.cos,
        cos: v.sin,
    }
}
