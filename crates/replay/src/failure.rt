// What the system says of an open, a read or a write that failed, as a line on standard error: what failed, a colon and the words.
use arrayvec::ArrayString;
use std::fmt::Write;
use std::io;

// Room for the words, for which std takes 256 bytes, and for the number that it puts behind them.
const ROOM: usize = 320;

// The number is left out: it says nothing to a person that the words do not say.
pub(crate) fn say_failure(rt: &impl Eprint, what: &str, error: io::Error) -> io::Result<()> {
    let mut words = ArrayString::<ROOM>::new();
    if write!(words, "{error}").is_err() {
        return eprintln!(rt; "{what}: {error}");
    }
    match words.as_str().split_once(" (os error ") {
        Some((said, _)) => eprintln!(rt; "{what}: {said}"),
        None => eprintln!(rt; "{what}: {words}"),
    }
}
