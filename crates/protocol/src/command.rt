ghost use Rattle.std.specs.Prelude.{◌≡◌, ◌==◌};
ghost use Rattle.std.specs.List.{position};
ghost use Rattle.std.specs.Option.{option_map};
ghost use Rattle.protocol.specs.Commands.{divided, form_of, named, both_numbers, with_rest, request_of};
ghost use Rattle.protocol.specs.Decimals.{number_of};
ghost use Rattle.protocol.specs.Views.{parts, request, Reads};

use crate::decimal::number;

/// What a line asks for. A name is the line's bytes, not judged yet.
#[derive(Clone, Copy, PartialEq, Eq, Debug)]
pub enum Command<'a> {
    /// Lays a file of this text, in which `|` stands for byte 10.
    Lay { name: &'a [u8], text: &'a [u8] },
    /// Takes a laid file away.
    Take { name: &'a [u8] },
    /// Shows a made page.
    Show { name: &'a [u8] },
    /// Brings a page up to date.
    Build { name: &'a [u8] },
    /// Makes a page from the laid files alone.
    Page { name: &'a [u8] },
    /// Restarts the disk.
    Restart { charge: u16, pick: u16 },
}

/// The words that a name alone follows.
#[derive(Clone, Copy)]
pub enum Verb {
    Take,
    Show,
    Build,
    Page,
}

/// What follows a word.
#[derive(Clone, Copy)]
pub enum Form {
    NameAndText,
    NameAlone(Verb),
    TwoNumbers,
}

#[derive(Clone, Copy)]
pub struct Word {
    spelling: &'static [u8],
    form: Form,
}

const WORDS: [Word; 6] = [
    Word {
        spelling: b"lay",
        form: Form::NameAndText,
    },
    Word {
        spelling: b"take",
        form: Form::NameAlone(Verb::Take),
    },
    Word {
        spelling: b"show",
        form: Form::NameAlone(Verb::Show),
    },
    Word {
        spelling: b"build",
        form: Form::NameAlone(Verb::Build),
    },
    Word {
        spelling: b"page",
        form: Form::NameAlone(Verb::Page),
    },
    Word {
        spelling: b"restart",
        form: Form::TwoNumbers,
    },
];

// The table of `script` is searched so too; what the two share is std's `find`.
fn form_of(word: &[u8]) -> Option<Form>
    ensures { result ≡ form_of word.now }
{
    WORDS.iter().find(|w| w.spelling == word).map(|w| w.form)
}

// Where the first blank stands.
fn blank_at(bytes: &[u8]) -> Option<usize>
    ensures { result ≡ position (λ b. b == 32) bytes.now }
{
    bytes.iter().position(|b| *b == b' ')
}

// What stands before the first blank, and all that stands behind it. Not `cut` of `script`, which has no `None`: what the
// two share is std's `position`.
#[tactic(auto, using(crate::proofs::Divides::here, crate::proofs::Divides::nowhere))]
fn divide(bytes: &[u8]) -> Option<(&[u8], &[u8])>
    ensures { option_map parts result ≡ divided bytes.now }
{
    let at = blank_at(bytes)?;
    Some((&bytes[..at], &bytes[at + 1..]))
}

impl Verb {
    fn with_name(self, name: &[u8]) -> Command<'_>
        ensures { request result ≡ named self name.now }
    {
        match self {
            Verb::Take => Command::Take { name },
            Verb::Show => Command::Show { name },
            Verb::Build => Command::Build { name },
            Verb::Page => Command::Page { name },
        }
    }
}

fn restart<'a>(charge: &[u8], pick: &[u8]) -> Option<Command<'a>>
    ensures { option_map request result ≡ both_numbers (number_of charge.now) (number_of pick.now) }
{
    let charge = number(charge)?;
    let pick = number(pick)?;
    Some(Command::Restart { charge, pick })
}

impl Form {
    // The command of this form that `rest`, behind the word, completes.
    fn command(self, rest: &[u8]) -> Option<Command<'_>>
        ensures { option_map request result ≡ with_rest self rest.now (divided rest.now) }
    {
        match (self, divide(rest)) {
            (Form::NameAndText, None) => Some(Command::Lay {
                name: rest,
                text: &[],
            }),
            (Form::NameAndText, Some((name, text))) => Some(Command::Lay { name, text }),
            (Form::NameAlone(verb), None) => Some(verb.with_name(rest)),
            (Form::TwoNumbers, Some((charge, pick))) => restart(charge, pick),
            _ => None,
        }
    }
}

impl<'a> Command<'a> {
    /// The command that a line gives; `None` where the line has another form.
    #[tactic(auto, using(crate::proofs::Parses::reads))]
    pub fn parse(line: &'a [u8]) -> Option<Command<'a>>
        ensures value { option_map request result ≡ request_of line.now }
        ensures forms { Reads result line.now }
    {
        let (word, rest) = divide(line)?;
        form_of(word)?.command(rest)
    }
}
