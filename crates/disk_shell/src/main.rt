//! A shell to try disks in: a line starts a stack of layers, the lines after it are calls of it, each answered with one line.
#![tactic(auto)]

mod command;
mod stack;
mod words;

use command::{Command, parse};
use disk::{Call, Reply};
use names::limits::BLOCK_MAX;
use stack::Stack;
use std::io;
use std::str::from_utf8;
use words::Words;

// Not a Display of `Reply`: a read prints the bytes of the buffer, which the reply does not hold.
fn print_bytes(rt: &HostRuntime, bytes: &[u8]) -> io::Result<()> {
    let n = bytes.len();
    match from_utf8(bytes) {
        Ok(text) => println!(rt; "{n} {text}"),
        Err(_) => println!(rt; "{n}"),
    }
}

fn print(rt: &HostRuntime, reply: Reply, buffer: &[u8; BLOCK_MAX]) -> io::Result<()> {
    match reply {
        Reply::Counted(count) => println!(rt; "{count}"),
        Reply::Used(true) => println!(rt; "used"),
        Reply::Used(false) => println!(rt; "not used"),
        Reply::Length(Ok(None)) => println!(rt; "nothing"),
        Reply::Length(Ok(Some(n))) => print_bytes(rt, &buffer[..n.min(BLOCK_MAX)]),
        Reply::Changed(Ok(())) => println!(rt; "ok"),
        Reply::Length(Err(why)) | Reply::Changed(Err(why)) => println!(rt; "no {why}"),
    }
}

fn call(rt: &HostRuntime, stack: &mut Stack, call: Call, text: &str) -> io::Result<()> {
    let mut buffer = [0; BLOCK_MAX];
    let reply = stack.call(&call, text.as_bytes(), &mut buffer);
    print(rt, reply, &buffer)
}

// The disk is lent: it may have some thousand bytes, and handed on it would be moved at each line.
fn answer(rt: &HostRuntime, stack: &mut Option<Stack>, line: &str) -> io::Result<()> {
    let mut words = Words::new(line);
    let Some(command) = parse(&mut words) else {
        return println!(rt; "garbled");
    };
    match (command, stack.as_mut()) {
        (
            Command::Start {
                layers,
                bytes,
                charge,
            },
            _,
        ) => {
            let mut fresh = Stack::new(rt.alloc(), layers, bytes as usize, charge)?;
            call(rt, &mut fresh, Call::Count, "")?;
            *stack = Some(fresh);
            Ok(())
        }
        (Command::Call(asked), Some(stack)) => call(rt, stack, asked, words.text().unwrap_or("")),
        (Command::Restart { charge, pick }, Some(stack)) => {
            stack.restart(charge, pick);
            println!(rt; "ok")
        }
        (_, None) => println!(rt; "no disk"),
    }
}

fn main(rt: HostRuntime) -> io::Result<()> {
    let mut stack = None;
    for line in rt.lines(rt.alloc()) {
        answer(&rt, &mut stack, line?.as_str())?;
    }
    Ok(())
}
