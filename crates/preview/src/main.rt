#![tactic(auto)]

use clean::Files;
use protocol::LineBuffer;
use std::io;
use std::io::{Read, Write};

pub mod session;

/// Answers the line that the buffer holds.
fn answer(rt: &HostRuntime, files: &mut Files, lines: &LineBuffer) -> io::Result<()> {
    let mut out = Vec::new(rt.alloc());
    session::respond(files, lines.line(), &mut out)?;
    let mut stdout = rt.stdout();
    stdout.write_all(out.as_slice())?;
    stdout.flush()
}

/// Lays files in and prints pages as they would be made from these files alone, a line for each line of the input.
fn main(rt: HostRuntime) -> io::Result<()> {
    let mut files = Files::new(rt.alloc());
    let mut lines = LineBuffer::new();
    let mut input = rt.stdin();
    // A count that no input reaches: a loop that waits for its input has no end of its own.
    for _ in 0..u64::MAX {
        let mut chunk = [0u8; 512];
        let n = input.read(&mut chunk)?;
        if n == 0 {
            break;
        }
        for b in &chunk[0..n] {
            if lines.push(*b) {
                answer(&rt, &mut files, &lines)?;
            }
        }
    }
    if lines.ends_within_line() {
        answer(&rt, &mut files, &lines)?;
    }
    Ok(())
}
