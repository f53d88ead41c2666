use names::Name;
use record::{Entry, Kind, Record, RecordWriter};
use std::str::FromStr;

// The first word, and what follows the blank behind it: std's `split_once`, where `cut` of `script` is for bytes.
fn first_word(text: &str) -> (&str, &str) {
    text.split_once(' ').unwrap_or((text, ""))
}

// The number behind the word `key`, and what follows.
fn number_at<'a, N: FromStr>(key: &str, text: &'a str) -> Option<(N, &'a str)>
where
    N::Err: Drop,
{
    let (number, rest) = first_word(text.strip_prefix(key)?.strip_prefix(' ')?);
    Some((number.parse().ok()?, rest))
}

// The entry that a part of a line names: kind, name, the stamp where there is one, and the line.
fn entry_in(part: &str) -> Option<Entry> {
    let (word, rest) = first_word(part);
    let (name, rest) = first_word(rest);
    let name = Name::new(name.as_bytes())?;
    let (kind, rest) = match (word, number_at("stamp", rest)) {
        ("script", Some((stamp, rest))) => (Kind::Script(stamp), rest),
        ("need", Some((stamp, rest))) => (Kind::Need(stamp), rest),
        ("absent", None) => (Kind::Absent, rest),
        _ => return None,
    };
    let (line, _) = number_at("line", rest)?;
    Some(Entry { name, line, kind })
}

// The record whose parts stand in the text, divided by commas.
pub(crate) fn record_in(text: &str) -> Option<Record> {
    let mut writer = RecordWriter::new();
    let mut parts = text.split(", ");
    let (stamp, _) = number_at("stamp", parts.next()?)?;
    for part in parts {
        writer.push(&entry_in(part)?).ok()?;
    }
    writer.finish(stamp)
}
