// Replays a list of logs from standard input, each after its length as a little-endian u64, and writes for each a line `log I`, the first being
// log 0, and then the log's lines. tools/replay_cases.py makes the input and the expected output.
#![tactic(auto)]

ghost use Rattle.io.specs.Counts.{IsPrefixLen};

use std::io;
use std::io::Read;

// A proved loop has to end, and nothing says that the input does. So the loop ends at a number that no run reaches.
fn main(rt: HostRuntime) -> io::Result<()> {
    for i in 0..u64::MAX {
        let Some(size) = read_size(&rt) else {
            return Ok(());
        };
        replay_next(&rt, i, size)?;
    }
    Ok(())
}

// The length of the next log, or none where the list ends.
fn read_size(rt: &impl Input) -> Option<u64> {
    let mut size = [0u8; 8];
    if cases::read_full(&mut rt.reader(), &mut size) < 8 {
        return None;
    }
    Some(words::u64_at(&size, 0))
}

// Log i. None of the list is longer than 66,000 bytes: it and its lines have fixed room, since no program here uses the heap.
fn replay_next(rt: &(impl Input + Print), i: u64, size: u64) -> io::Result<()> {
    let mut log = [0u8; 66000];
    let n = read_log(&mut rt.reader(), &mut log, size);
    println!(rt; "log {i}")?;
    let mut out = [0u8; 65536];
    let r = log_lines::replay(&log[..n], &mut out);
    rt.write_all(&out[..r])
}

// The next size bytes, if buf has room for them.
fn read_log(input: &mut impl Read, buf: &mut [u8], size: u64) -> usize
    ensures { IsPrefixLen result buf.new }
{
    let n = size as usize;
    if buf.len() < n {
        return 0;
    }
    cases::read_full(input, &mut buf[..n])
}
