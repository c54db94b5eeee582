// What every program of cases shares. In goes a record at a time, its kind and what the kind has behind it, each a little-endian word of 64 bits; past the end
// of the input every word is 0, which is the kind of no record. Out comes a line for each: its kind and words, as 16 hexadecimal digits behind a space.
#![tactic(auto)]

ghost use Rattle.std.specs.Prelude.{◌≡◌, ◌≤◌, length, take};
ghost use Rattle.std.specs.Iterator.{at_most};
ghost use Rattle.io.specs.Counts.{IsPrefixLen};

use inertial::ImuCalib;
use number::Numbered;
use std::io;
use std::io::Read;

// ---- reading, from standard input; a read that fails counts as the end of the input

// Reads until out is full or the input ends, and answers how many bytes stand at the front of out. Those behind them are left as they are. They are counted,
// since each read says how many bytes more there are.
pub fn read_full(input: &mut impl Read, out: &mut [u8]) -> usize
    ensures { IsPrefixLen result out.new }
{
    let mut done = 0;
    while done < out.len() {
        match input.read(&mut out[done..]) {
            Ok(0) | Err(_) => return done,
            Ok(more) => done += more,
        }
    }
    done
}

// The kinds of the records, one after the other.
#[derive(Drop)]
pub struct Records<'a, R> {
    rt: &'a R,
    // A proved loop has to end, and nothing says that the input does. So there is a number of records that no run uses up.
    left: u64,
}

// An iterator, and no function that takes what is done with each: that would ask that it can be called, and no public function has a requires.
pub fn kinds<R: Input>(rt: &R) -> Records<'_, R> {
    Records { rt, left: u64::MAX }
}

impl<'a, R: Input> Iterator for Records<'a, R> {
    type Item = u64;

    ghost remaining = { λ s. at_most s.left };

    fn next(&mut self) -> Option<u64> {
        self.left = self.left.checked_sub(1)?;
        let kind = read_word(self.rt);
        (kind != 0).then_some(kind)
    }
}

pub fn read_word(rt: &impl Input) -> u64 {
    let mut s = [0u8; 8];
    read_bytes(rt, &mut s);
    words::u64_at(&s, 0)
}

pub fn read_tick(rt: &impl Input) -> i64 {
    number::tick::of_bits(read_word(rt))
}

// Bytes past the end of the input are left as they are.
pub fn read_bytes(rt: &impl Input, out: &mut [u8]) {
    read_full(&mut rt.reader(), out);
}

pub fn read_f64(rt: &impl Input) -> f64 {
    words::of_bits(read_word(rt))
}

pub fn read_numbers(rt: &impl Input, out: &mut [f64]) {
    for x in out {
        *x = read_f64(rt);
    }
}

// A matrix stands column by column.
pub fn read_array<const N: usize>(rt: &impl Input) -> [f64; N] {
    std::array::from_fn(|_| read_f64(rt))
}

pub fn read_calib(rt: &impl Input) -> ImuCalib {
    ImuCalib {
        gyro_noise: read_f64(rt),
        accel_noise: read_f64(rt),
        gyro_bias_noise: read_f64(rt),
        accel_bias_noise: read_f64(rt),
    }
}

// ---- printing, to standard output

pub fn end_line(rt: &impl Print) -> io::Result<()> {
    rt.print("\n")
}

pub fn print_word(rt: &impl Print, word: u64) -> io::Result<()> {
    print!(rt; " {word:016x}")
}

// What became of a call: 0, or the number of its refusal.
pub fn print_outcome<T, E: Numbered + Copy>(
    rt: &impl Print,
    answer: &Result<T, E>,
) -> io::Result<()> {
    match answer {
        Ok(_) => print_word(rt, 0),
        Err(why) => print_word(rt, (*why).number()),
    }
}

pub fn print_numbers(rt: &impl Print, xs: &[f64]) -> io::Result<()> {
    for x in xs {
        print_word(rt, words::to_bits(*x))?;
    }
    Ok(())
}

pub fn print_calib(rt: &impl Print, c: ImuCalib) -> io::Result<()> {
    print_numbers(
        rt,
        &[
            c.gyro_noise,
            c.accel_noise,
            c.gyro_bias_noise,
            c.accel_bias_noise,
        ],
    )
}

// Numbers of a record that, from the kind 100 on, are held against others: these then stand in the input, behind a tolerance.
pub fn print_near(rt: &(impl Input + Print), kind: u64, xs: &[f64]) -> io::Result<()> {
    if kind >= 100 {
        print_held(rt, xs, read_f64(rt))
    } else {
        print_numbers(rt, xs)
    }
}

// A planar motion: the place, the heading and the covariance, each held against others by itself.
pub fn print_motion(
    rt: &(impl Input + Print),
    kind: u64,
    delta: &[f64; 3],
    covariance: &[f64; 9],
) -> io::Result<()> {
    print_near(rt, kind, &delta[..2])?;
    print_near(rt, kind, &delta[2..])?;
    print_near(rt, kind, covariance)
}

fn print_held(rt: &(impl Input + Print), xs: &[f64], tolerance: f64) -> io::Result<()> {
    for x in xs {
        print_word(rt, words::to_bits(held(*x, read_f64(rt), tolerance)))?;
    }
    Ok(())
}

// What x is held against, where the two are no further apart than the tolerance, else x. A tolerance below 0 is that of a heading, which counts modulo a turn.
fn held(x: f64, other: f64, tolerance: f64) -> f64 {
    let apart = number::size(x - other);
    let turned = number::size(apart - number::TAU);
    let is_near = apart <= number::size(tolerance);
    if is_near | (tolerance < 0.0) & (turned <= -tolerance) {
        return other;
    }
    x
}
