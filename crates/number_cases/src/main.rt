// Asks the number leaves by the records of standard input, and writes what each answers, in bits. The crate `cases` says what a record and a line are.
// tools/number_cases.py makes the input and the expected output. A record is its kind and:
//
//    1  a whole number, as a signed word: it as an f64
//    2  a counter width and two tick counts: their difference; 6 a counter width and a tick count: whether it is in range (1, or 0)
//    3  a number: its root
//    4  an angle: its sine and its cosine
//    5  a ratio: its halvings, and the number of parts
//
// A line has, of 3 and 4, what became of the call (0, or the refusal's number), and what it answers. A kind 100 higher is the same, with the sine and the
// cosine each held against another behind a tolerance.
#![tactic(auto)]

use std::io;

fn main(rt: HostRuntime) -> io::Result<()> {
    for kind in cases::kinds(&rt) {
        cases::print_word(&rt, kind)?;
        ask(&rt, kind)?;
        cases::end_line(&rt)?;
    }
    Ok(())
}

// The kind is matched as the number that the input has: an enum of the kinds would be the list above a second time.
fn ask(rt: &(impl Input + Print), kind: u64) -> io::Result<()> {
    match kind % 100 {
        1 => cases::print_numbers(rt, &[number::whole_to_f64(cases::read_tick(rt))]),
        2 => ask_difference(rt),
        3 => ask_root(rt),
        4 => ask_turn(rt, kind),
        5 => ask_halvings(rt),
        6 => ask_range(rt),
        _ => cases::print_word(rt, cases::read_word(rt)),
    }
}

fn ask_difference(rt: &(impl Input + Print)) -> io::Result<()> {
    let width = cases::read_word(rt);
    let from = cases::read_tick(rt);
    let difference = number::tick_difference(width, from, cases::read_tick(rt));
    cases::print_word(rt, number::tick::bits_of(difference))
}

fn ask_range(rt: &(impl Input + Print)) -> io::Result<()> {
    let width = cases::read_word(rt);
    cases::print_word(
        rt,
        number::tick_in_range(width, cases::read_tick(rt)) as u64,
    )
}

fn ask_root(rt: &(impl Input + Print)) -> io::Result<()> {
    let answer = root::sqrt(cases::read_f64(rt));
    cases::print_outcome(rt, &answer)?;
    if let Ok(r) = answer {
        cases::print_numbers(rt, &[r])?;
    }
    Ok(())
}

fn ask_turn(rt: &(impl Input + Print), kind: u64) -> io::Result<()> {
    let answer = sincos::sin_cos(cases::read_f64(rt));
    cases::print_outcome(rt, &answer)?;
    if let Ok(v) = answer {
        cases::print_near(rt, kind, &[v.sin])?;
        cases::print_near(rt, kind, &[v.cos])?;
    }
    Ok(())
}

fn ask_halvings(rt: &(impl Input + Print)) -> io::Result<()> {
    let h = number::halvings(cases::read_f64(rt));
    cases::print_word(rt, h.count as u64)?;
    cases::print_numbers(rt, &[h.parts])
}
