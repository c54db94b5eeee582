// Counts of a wheel's encoder: which of them a counter of so many bits can show, and the difference of two, though the counter may have turned over.
ghost use Rattle.std.specs.Prelude.{◌≡◌, ◌%◌, ◌^◌, ◌<◌};
ghost use Rattle.number.specs.Ticks.{residue, signed, tick_difference, tick_in_range, width_of};

// The two's complement bits of a: std's cast, under the definition's word.
pub fn bits_of(a: i64) -> u64
    ensures { result ≡ residue 64 a }
{
    a.cast_unsigned()
}

// The number whose two's complement bits are n: std's cast, under the definition's word.
pub fn of_bits(n: u64) -> i64
    ensures { result ≡ signed 64 n }
{
    n.cast_signed()
}

// The lowest bits of n, so many as the width says, as a number whose sign is the highest of them, by its two's complement bits. By a
// remainder, as the definition is written: a shift there and back would take a law of its own.
fn sign_extended(width: u64, n: u64) -> u64
    ensures { result ≡ residue 64 (signed (width_of width) (n % 2 ^ width_of width)) }
{
    if width == 0 {
        return n;
    }
    if 64 <= width {
        return n;
    }
    let half = power_of_two(width - 1);
    let size = 2 * half;
    let low = n % size;
    if low < half {
        return low;
    }
    u64::MAX - (size - 1 - low)
}

fn power_of_two(k: u64) -> u64
    requires { k < 64 }
    ensures { result ≡ 2 ^ k }
{
    1 << k
}

// How far a counter of so many bits went on its way from one reading to the next, though it may have turned over. It is taken to have gone the shorter way round,
// and back where both are as long.
pub fn tick_difference(width: u64, from: i64, to: i64) -> i64
    ensures { result ≡ tick_difference width from to }
{
    let whole = std::num::wrapping_sub_u64(bits_of(to), bits_of(from));
    of_bits(sign_extended(width, whole))
}

// Whether a counter of so many bits can show this count. One of 64 shows any.
pub fn tick_in_range(width: u64, tick: i64) -> bool
    ensures { result ≡ tick_in_range width tick }
{
    if 64 <= width {
        return true;
    }
    bits_of(tick) < power_of_two(width)
}
