use crate::stack::Layers;
use crate::words::Words;
use disk::{Call, Key};
use names::Name;
use protocol::decimal::decimal;

/// What a line asks for. What a store writes is the rest of its line.
#[derive(Clone, Copy)]
pub enum Command {
    Start {
        layers: Layers,
        bytes: u32,
        charge: u16,
    },
    Call(Call),
    Restart {
        charge: u16,
        pick: u16,
    },
}

/// The bytes of memory that a stack is started over, at most.
const BYTES_MAX: u32 = 1_000_000_000;

fn number<T: TryFrom<u32, Error: Drop>>(words: &mut Words, most: u32) -> Option<T> {
    T::try_from(decimal(words.next()?.as_bytes(), most)?).ok()
}

fn name(words: &mut Words) -> Option<Name> {
    Name::new(words.next()?.as_bytes())
}

fn key(words: &mut Words) -> Option<Key> {
    match words.next()? {
        "laid" => Some(Key::Laid(name(words)?)),
        "made" => Some(Key::Made(name(words)?)),
        "record" => Some(Key::Record(name(words)?)),
        "draft" => Some(Key::Draft),
        "stamp" => Some(Key::Stamp),
        _ => None,
    }
}

// The layers of a stack, down to its base, of which the first word is read already.
fn layers(top: &str, words: &mut Words) -> Option<Layers> {
    match top {
        "sheet" => Some(Layers::Bare),
        "quota" => {
            let number = number(words, u8::MAX.into())?;
            match words.next()? {
                "sheet" => Some(Layers::Quota(number)),
                "shelf" => (words.next()? == "sheet").then_some(Layers::QuotaOverCache(number)),
                _ => None,
            }
        }
        "shelf" => match words.next()? {
            "sheet" => Some(Layers::Cache),
            "quota" => {
                let number = number(words, u8::MAX.into())?;
                (words.next()? == "sheet").then_some(Layers::CacheOverQuota(number))
            }
            _ => None,
        },
        _ => None,
    }
}

fn start(top: &str, words: &mut Words) -> Option<Command> {
    let layers = layers(top, words)?;
    let bytes = number(words, BYTES_MAX)?;
    let charge = number(words, u16::MAX.into())?;
    Some(Command::Start {
        layers,
        bytes,
        charge,
    })
}

fn restart(words: &mut Words) -> Option<Command> {
    let charge = number(words, u16::MAX.into())?;
    let pick = number(words, u16::MAX.into())?;
    Some(Command::Restart { charge, pick })
}

fn call(word: &str, words: &mut Words) -> Option<Call> {
    match word {
        "count" => Some(Call::Count),
        "used" => Some(Call::IsUsed(key(words)?)),
        "read" => Some(Call::Read(key(words)?)),
        "store" => Some(Call::Store(key(words)?)),
        "rename" => {
            let from = key(words)?;
            Some(Call::Rename(from, key(words)?))
        }
        "remove" => Some(Call::Remove(key(words)?)),
        "settle" => Some(Call::Settle),
        _ => None,
    }
}

/// The command of a line. Behind a store the words have its text; any other command ends with its line.
pub fn parse(words: &mut Words) -> Option<Command> {
    let word = words.next()?;
    let command = match word {
        "sheet" | "quota" | "shelf" => start(word, words)?,
        "restart" => restart(words)?,
        _ => Command::Call(call(word, words)?),
    };
    (word == "store" || words.text().is_none()).then_some(command)
}
