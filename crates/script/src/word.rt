ghost use Rattle.std.specs.Prelude.{◌≡◌};
ghost use Rattle.std.specs.List.{find as find_first};
ghost use Rattle.std.specs.Option.{option_copied};
ghost use Rattle.std.specs.Str.{bytes_eq};
ghost use Rattle.script.specs.Lines.{after};
ghost use Rattle.script.specs.Words.{table, find, idle, spelled_by};

use crate::lines::cut;

/// The words of a script.
#[derive(Clone, Copy, PartialEq, Eq, Debug)]
pub enum Word {
    Need,
    IfCreate,
    IfHas,
    Say,
    Copy,
}

/// The form of what follows a word.
#[derive(Clone, Copy, PartialEq, Eq, Debug)]
pub enum Rest {
    Name,
    Text,
}

/// What a line of a script begins with.
// Three ways and no Result: an unknown word in a skipped line is no fault, so no `?` may stand before the mode is matched.
#[derive(Clone, Copy, PartialEq, Eq, Debug)]
pub enum Spelled {
    Nothing,
    Unknown,
    Known(Word, Rest),
}

/// Whether the next line of a script is looked at.
#[derive(Clone, Copy, PartialEq, Eq, Debug)]
pub enum Mode {
    Running,
    Skipping,
}

/// A word with its bytes and the form of its rest.
#[derive(Clone, Copy)]
pub struct Row {
    text: &'static [u8],
    word: Word,
    rest: Rest,
}

const WORDS: [Row; 5] = [
    Row {
        text: b"need",
        word: Word::Need,
        rest: Rest::Name,
    },
    Row {
        text: b"ifcreate",
        word: Word::IfCreate,
        rest: Rest::Name,
    },
    Row {
        text: b"ifhas",
        word: Word::IfHas,
        rest: Rest::Name,
    },
    Row {
        text: b"say",
        word: Word::Say,
        rest: Rest::Text,
    },
    Row {
        text: b"copy",
        word: Word::Copy,
        rest: Rest::Name,
    },
];

/// The row of the word that these bytes spell.
fn row_of<'a>(rows: &'a [Row], text: &[u8]) -> Option<&'a Row>
    ensures { option_copied result ≡ find_first (λ r. bytes_eq r.text.now text.now) rows.now }
{
    rows.iter().find(|row| row.text == text)
}

/// The word that these bytes spell, with the form of its rest.
fn find_word(text: &[u8]) -> Spelled
    ensures { result ≡ find table text.now }
{
    row_of(&WORDS, text).map_or(Spelled::Unknown, |row| Spelled::Known(row.word, row.rest))
}

/// Does this line do nothing?
fn is_idle(line: &[u8]) -> bool
    ensures { result ≡ idle line.now }
{
    matches!(line, [] | [b'#', ..])
}

/// The word that a line begins with, and what follows its blank.
pub(crate) fn read_word(line: &[u8]) -> (Spelled, &[u8])
    ensures { (result.0 ≡ spelled_by line.now) × (result.1.now ≡ after 32 line.now) }
{
    let (text, tail) = cut(line, b' ');
    if is_idle(line) {
        return (Spelled::Nothing, tail);
    }
    (find_word(text), tail)
}
