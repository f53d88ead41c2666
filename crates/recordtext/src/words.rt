ghost use Rattle.std.specs.Prelude.{◌≡◌, IfOk, string_bytes};
ghost use Rattle.names.specs.Names.{Bytes};
ghost use Rattle.record.specs.Read.{entries_in};
ghost use Rattle.record.specs.Views.{Shows};
ghost use Rattle.recordtext.specs.Words.{record_words};

use record::RecordView;
use std::alloc::{AllocError, Global};
use std::fmt::Write;

/// A record in plain words: its stamp, and then each entry behind a comma.
pub fn describe(heap: Global, view: RecordView<'_>) -> Result<String, AllocError>
    ensures { IfOk result (λ t. (bs : Bytes) → Shows bs view.entry → string_bytes t ≡ record_words view.entry.stamp (entries_in bs)) }
{
    let stamp = view.stamp();
    let mut text = format!(in heap; "stamp {stamp}")?;
    for entry in view.entries() {
        write!(text, ", {entry}")?;
    }
    Ok(text)
}
