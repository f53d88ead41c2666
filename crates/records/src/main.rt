//! Reads lines from standard input. To a line of hex digits it answers with the record that they are, in words, or `no record`; to a line of
//! words, with the record's hex digits. `docs/RECORDS.md` has the form of both.
#![tactic(auto)]

use recordtext::answer_to;
use std::io;

fn main(rt: HostRuntime) -> io::Result<()> {
    for line in rt.lines(rt.alloc()) {
        let answer = answer_to(rt.alloc(), line?.as_str())?;
        println!(rt; "{answer}")?;
    }
    Ok(())
}
