// The square root of an f64, correctly rounded. The bit pattern is taken apart, the root of a whole number of 53 or 54 binary
// digits is worked out to 54 digits, exactly, and the last digit rounds. By hand, and not std's `f64::sqrt`: that is an operation of the processor, and would be
// one thing more to believe (docs/ASSUMPTIONS.md), and the edits near_root_too_high and root_rounded_down are of these digits.
#![tactic(auto)]

ghost use Rattle.std.specs.Prelude.{◌≡◌, ◌+◌, ◌*◌, ◌^◌, ◌≤◌, ◌<◌, T};
ghost use Rattle.std.specs.Float.Ieee.Positive.{positive};
ghost use Rattle.root.specs.Root.{IsRoot, said_root, sqrt_of};
ghost use Rattle.root.specs.Inside.Steps.{RootBits, Floor, Scale};

pub mod formula;

use number::Refusal;

// A whole number of 53 or 54 binary digits, and not 54 ones.
#[derive(Clone, Copy)]
struct Digits {
    m: u64,
    ghost large: { 2 ^ 52 ≤ m },
    ghost small: { m + 2 ≤ 2 ^ 54 },
}

impl Digits {
    // Near the root of m, by a parabola: within some half a hundredth. Nothing but its range is promised, since the steps that follow go from any guess.
    fn first_guess(self) -> u64
        ensures { (2 ^ 26 ≤ result) × (result ≤ 2 ^ 28) }
    {
        let short = 107_000 - self.m / 0x40_0000_0000;
        151_000_000 - short * short * 167 / 16384
    }

    // The largest s with s * s <= m, by Newton's iteration: the first step leads to or above the root, and the others come down to it. Not std's `isqrt`, which
    // takes a step for each digit.
    fn half_root(self) -> u64
        ensures { Floor self.m result }
    {
        let m = self.m;
        let guess = self.first_guess();
        let mut s = (guess + m / guess) / 2;
        while m < s * s {
            s = (s + m / s) / 2;
        }
        s
    }

    // The largest q with q * q <= m * 2^54: the root of m, and 27 more binary digits of it by one division.
    fn divided_root(self) -> u64
        ensures { Floor (self.m * 2 ^ 54) result }
    {
        let m = self.m;
        let s = self.half_root();
        let d = (m - s * s) * 0x800_0000;
        let t = d / (2 * s);
        let u = d % (2 * s);
        let q = s * 0x800_0000 + t;
        if t * t <= u * 0x800_0000 { q } else { q - 1 }
    }

    // The largest q with q * q <= m * 2^54. Within 2^26 of 2^52 or of 2^54 the root moves by half of what m moves, to the last digit, so that it takes no
    // division: the square of a length that is nearly 1 is such a number, and so is one near any other power of 4.
    fn whole_root(self) -> u64
        ensures { Floor (self.m * 2 ^ 54) result }
    {
        let m = self.m;
        if m == 0x10_0000_0000_0000 {
            return 0x20_0000_0000_0000;
        }
        if m <= 0x10_0000_0400_0000 {
            return m + 0xf_ffff_ffff_ffff;
        }
        if 0x3f_ffff_fc00_0000 <= m {
            return 0x3f_ffff_ffff_ffff - (0x40_0000_0000_0000 - m) / 2;
        }
        self.divided_root()
    }
}

// The number m * 4^h.
#[derive(Clone, Copy)]
struct Scaled {
    digits: Digits,
    h: u64,
}

// m0 * 2^j0 as m * 4^h. The loop turns only for a subnormal number; by the leading zeros it would be no plainer, since what it keeps is m * 2^j.
fn normalized(m0: u64, j0: u64) -> Scaled
    requires { (0 < m0) × (m0 < 2 ^ 53) × (1022 ≤ j0) × (j0 < 3068) }
    ensures { Scale (m0 * 2 ^ j0) result.digits.m result.h × (result.h < 1534) }
{
    let mut m = m0;
    let mut j = j0;
    while m < 0x10_0000_0000_0000 {
        m = m * 2;
        j = j - 1;
    }
    if j % 2 == 0 {
        Scaled {
            digits: Digits { m },
            h: j / 2,
        }
    } else {
        Scaled {
            digits: Digits { m: m * 2 },
            h: j / 2,
        }
    }
}

// The bit pattern of the root, from the bit pattern of x, which is finite and above zero. x is m * 4^h * 2^-2096, where 2096 is
// 1074 + 1022, so its root is that of m * 2^54, times 2^h * 2^-1075: with the last digit rounded off, times 2^h * 2^-1074.
fn root_bits(bits: u64) -> u64
    requires { (0 < bits) × (bits < 0x7ff0_0000_0000_0000) }
    ensures { RootBits bits result }
{
    let field = bits / 0x10_0000_0000_0000;
    let digits = bits % 0x10_0000_0000_0000;
    let s = if field == 0 {
        normalized(digits, 1022)
    } else {
        normalized(digits + 0x10_0000_0000_0000, field + 1021)
    };
    let q = s.digits.whole_root();
    s.h * 0x10_0000_0000_0000 + (q + 1) / 2
}

// The root of an x that is finite and above zero.
fn positive_root(x: f64) -> f64
    requires { T (positive x) }
    ensures { IsRoot x result }
{
    f64::from_bits(root_bits(f64::to_bits(x)))
}

// The root of x, rounded to the nearest f64; a NaN and a number below zero have none. A zero, of either sign, and the infinity are their own roots.
#[tactic(auto, unfolding(crate::specs::Root::sqrt_of))]
pub fn sqrt(x: f64) -> Result<f64, Refusal>
    ensures { said_root result ≡ sqrt_of x }
{
    if x == 0.0 {
        return Ok(x);
    }
    if x == f64::INFINITY {
        return Ok(x);
    }
    if !(x > 0.0) {
        return Err(Refusal::NonFinite);
    }
    Ok(positive_root(x))
}
