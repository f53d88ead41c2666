ghost use Rattle.std.specs.Prelude.{◌≡◌, ◌*◌, ◌≤◌, true, [], ◌∷◌, ◌++◌, length, is_ok, MatchOption, MatchResult, nat_le, nat_lt};
ghost use Rattle.names.specs.Limits.{entries_max};
ghost use Rattle.record.specs.Limits.{body_max};
ghost use Rattle.record.specs.Chain.{chained};
ghost use Rattle.record.specs.Filled.{filled};
ghost use Rattle.record.specs.Read.{parts, are_bodies};
ghost use Rattle.record.specs.Values.{value_of};

use crate::buffer::Buffer;
use crate::entry::Entry;
use crate::finished::Record;
use crate::limits::{HEADER_SIZE, PAIR_SIZE};
use inline_vec::{Full, InlineVec};
use names::limits::ENTRIES_MAX;

/// A record being written: the bodies of its entries, and where each lies among them.
#[derive(Clone, Copy)]
pub struct RecordWriter {
    bodies: Buffer,
    pairs: InlineVec<(u16, u16), ENTRIES_MAX>,
    ghost few: { length pairs.items ≤ entries_max },
    ghost short: { length (filled bodies) ≤ body_max * length pairs.items },
    ghost ordered: { chained 0 pairs.items (length (filled bodies)) ≡ true },
    ghost lawful: { are_bodies (parts pairs.items (filled bodies)) ≡ true },
}

impl RecordWriter {
    ghost use Rattle.record.specs.Held.{entries_of};
    ghost use Rattle.record.specs.Laws.{ReadsBack, Short, Reached};
    ghost use Rattle.record.specs.Finished.{bytes_of, Records};

    /// A record with no entry yet.
    #[tactic(auto, unfolding(crate::specs::Held::entries_of))]
    pub fn new() -> RecordWriter
        ensures { entries_of result ≡ [] }
    {
        RecordWriter {
            bodies: Buffer::new(),
            pairs: InlineVec::new((0, 0)),
        }
    }

    /// One entry more, which may be one that stands already. A 29th is refused, and nothing changes.
    pub fn push(&mut self, entry: &Entry) -> Result<(), Full>
        ensures test { is_ok result ≡ nat_lt (length (entries_of self.old)) entries_max }
        ensures cases { MatchResult result (λ _. entries_of self.new ≡ entries_of self.old ++ value_of entry.now ∷ []) (λ _. self.new ≡ self.old) }
    {
        if self.is_full() {
            return Err(Full);
        }
        let at = self.bodies.len();
        self.bodies.append_body(entry);
        let len = self.bodies.len() - at;
        self.pairs.try_push((at as u16, len as u16))
    }

    /// Whether there is no room for one entry more.
    #[tactic(auto, using(crate::proofs::Pushes::count_entries), unfolding(crate::specs::Held::entries_of))]
    pub fn is_full(&self) -> bool
        ensures { result ≡ nat_le entries_max (length (entries_of self.now)) }
    {
        self.pairs.is_full()
    }

    /// The record with this stamp and the entries so far, if there is one: no record is without entries.
    pub fn finish(&self, stamp: u32) -> Option<Record>
        ensures law { ReadsBack × Short × Reached }
        ensures cases { MatchOption result (entries_of self.now ≡ []) (λ b. Records stamp (entries_of self.now) (bytes_of b)) }
    {
        let count = self.pairs.len();
        if count == 0 {
            return None;
        }
        let mut out = Buffer::new();
        out.append(&stamp.to_le_bytes());
        out.append(&[count as u8]);
        let base = (HEADER_SIZE + PAIR_SIZE * count) as u16;
        for &(offset, len) in self.pairs.as_slice() {
            out.append_pair(base + offset, len);
        }
        out.append(self.bodies.as_bytes());
        Some(Record::new(out))
    }
}
