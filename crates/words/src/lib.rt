// Little-endian numbers in lent bytes, for every bit pattern. A byte past the end counts 0, so that nothing is asked of the caller.
#![tactic(auto)]

ghost use Rattle.std.specs.Prelude.{◌≡◌, ◌+◌, ◌<◌, drop, get_or, slice_index};
ghost use Rattle.std.specs.Float.{binary64};
ghost use Rattle.std.specs.Float.Ieee.{of_bits as of_pattern, to_bits as to_pattern};
ghost use Rattle.number.specs.Tabulated.{tabulated};
ghost use Rattle.words.specs.Words.{float_at, signed_at, word_at};

use std::num::{f64_from_bits_with_nan, f64_to_bits_with_nan};

// The byte at index i, or 0 past the end.
fn byte_at(s: &[u8], i: usize) -> u8
    ensures { result ≡ get_or s.now i 0 }
{
    s.get(i).copied().unwrap_or(0)
}

// The same as a u64.
pub fn byte(s: &[u8], i: usize) -> u64
    ensures value { result ≡ get_or s.now i 0 }
    ensures upper_bound { result < 256 }
{
    u64::from(byte_at(s, i))
}

// What stands from index i on.
fn from(s: &[u8], i: usize) -> &[u8]
    ensures { result.now ≡ drop i s.now }
{
    s.get(i..).unwrap_or(&[])
}

// The first N of these bytes, and zeros behind them. One by one: std's `copy_from_slice` of so many as are there is a call of the C library's `memcpy`, which
// libkept_bytes.a needs for nothing else.
fn padded<const N: usize>(bytes: &[u8]) -> [u8; N]
    ensures { result ≡ tabulated N (λ k. get_or bytes.now k 0) }
{
    let mut whole = [0; N];
    for (k, b) in whole.iter_mut().enumerate() {
        *b = byte_at(bytes, k);
    }
    whole
}

// The N bytes from index i on.
fn bytes_at<const N: usize>(s: &[u8], i: usize) -> [u8; N]
    ensures { (k : _) → k < N → slice_index result k ≡ get_or s.now (i + k) 0 }
{
    let rest = from(s, i);
    if let Some(bytes) = rest.first_chunk() {
        return *bytes;
    }
    padded(rest)
}

#[tactic(auto, using(crate::proofs::Width::spelled_4))]
pub fn u32_at(s: &[u8], i: usize) -> u32
    ensures { result ≡ word_at 4 s.now i }
{
    u32::from_le_bytes(bytes_at(s, i))
}

#[tactic(auto, using(crate::proofs::Width::spelled_8))]
pub fn u64_at(s: &[u8], i: usize) -> u64
    ensures { result ≡ word_at 8 s.now i }
{
    u64::from_le_bytes(bytes_at(s, i))
}

pub fn i64_at(s: &[u8], i: usize) -> i64
    ensures { result ≡ signed_at s.now i }
{
    u64_at(s, i).cast_signed()
}

pub fn f64_at(s: &[u8], i: usize) -> f64
    ensures { result ≡ float_at s.now i }
{
    of_bits(u64_at(s, i))
}

// The f64 whose bits are v; of a NaN's pattern, NaN.
pub fn of_bits(v: u64) -> f64
    ensures { result ≡ of_pattern binary64 v }
{
    f64_from_bits_with_nan(v)
}

// The bits of x; of a NaN, 7ff8000000000000.
pub fn to_bits(x: f64) -> u64
    ensures { result ≡ to_pattern binary64 x }
{
    f64_to_bits_with_nan(x)
}
