ghost use Rattle.std.specs.Prelude.{◌≡◌, IfSome, IfOk, string_bytes};
ghost use Rattle.record.specs.Read.{read};
ghost use Rattle.record.specs.Finished.{bytes_of};
ghost use Rattle.recordtext.specs.Hex.{hex_bytes};
ghost use Rattle.recordtext.specs.Answers.{Tells, told, told_hex, Hexed, is_words, Answered};

use crate::hex::{bytes_of, hex_of};
use crate::parse::record_in;
use crate::words::describe;
use record::{Record, RecordView};
use std::alloc::{AllocError, Global};

/// The record that a line of words tells, if the line is exactly what `describe` tells of it.
pub fn record_told(heap: Global, line: &str) -> Result<Option<Record>, AllocError>
    ensures { IfOk result (λ o. IfSome o (λ b. Tells line.now (bytes_of b))) }
{
    // `?` would hand out an `Err`, and a line that tells no record is an `Ok`.
    let Some(record) = record_in(line) else {
        return Ok(None);
    };
    let view = RecordView::read(record.as_bytes()).unwrap();
    let words = describe(heap, view)?;
    if words.as_str() == line {
        Ok(Some(record))
    } else {
        Ok(None)
    }
}

/// What bytes are as a record, in words.
pub fn told_of(heap: Global, bytes: &[u8]) -> Result<String, AllocError>
    ensures { IfOk result (λ t. string_bytes t ≡ told (read bytes.now)) }
{
    match RecordView::read(bytes) {
        Some(view) => describe(heap, view),
        None => String::from_str(heap, "no record"),
    }
}

// The answer to a line of words: the hex digits of the record that it tells.
fn hexed(heap: Global, line: &str) -> Result<String, AllocError>
    ensures { IfOk result (λ t. Hexed line.now (string_bytes t)) }
{
    let Some(record) = record_told(heap, line)? else {
        return String::from_str(heap, "refused: not a line of 1 to 28 entries");
    };
    hex_of(heap, record.as_bytes())
}

// The answer to hex digits: what their bytes are as a record.
fn unhexed(heap: Global, line: &str) -> Result<String, AllocError>
    ensures { IfOk result (λ t. string_bytes t ≡ told_hex (hex_bytes line.now)) }
{
    let Some(bytes) = bytes_of(heap, line.as_bytes())? else {
        return String::from_str(heap, "refused: not pairs of hex digits");
    };
    told_of(heap, bytes.as_slice())
}

/// The answer to a line: of hex digits, the record in words or `no record`; of words, the record's hex digits. A line that is neither is
/// refused.
pub fn answer_to(heap: Global, line: &str) -> Result<String, AllocError>
    ensures { IfOk result (λ t. Answered (is_words line.now) line.now (string_bytes t)) }
{
    if line.starts_with('s') {
        hexed(heap, line)
    } else {
        unhexed(heap, line)
    }
}
