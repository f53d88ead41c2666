ghost use Rattle.std.specs.Prelude.{◌+◌, ◌≤◌, length};
ghost use Rattle.names.specs.Limits.{page_max};

use crate::entry::Entries;
use crate::page::Page;
use crate::word::{Mode, Word};
use names::Name;

mod steps;
mod words;

/// What the words of a script change: the page so far, the entries made, and whether the next line is looked at.
#[derive(Clone, Copy)]
pub struct Work {
    mode: Mode,
    page: Page,
    entries: Entries,
}

/// A script that is being run: a value that is asked for its next step, and told what a name turned out to be.
/// `line` counts the lines read so far, and `rest` is the text behind them.
#[derive(Drop)]
pub struct Run<'a> {
    stem: &'a [u8],
    rest: &'a [u8],
    line: u16,
    work: Work,
    ghost short: { line + length rest.now ≤ page_max },
}

/// What a run asks: what this name is, for the word that named it.
#[derive(Clone, Copy)]
pub struct Question {
    pub word: Word,
    pub name: Name,
}
