ghost use Rattle.std.specs.Prelude.{◌≡◌, ◌<◌, None as Missing, MatchOption, OnSome};
ghost use Rattle.std.specs.Option.{option_map};
ghost use Rattle.std.specs.List.{slice_get};
ghost use Rattle.names.specs.Names.{Bytes};
ghost use Rattle.record.specs.Read.{read as record_in, entries_in};
ghost use Rattle.record.specs.Laws.{Exact};
ghost use Rattle.record.specs.Values.{value_of};
ghost use Rattle.record.specs.Views.{Shows, entry_at};

use crate::decode::{entry_of, pair_of};
use crate::entries::Entries;
use crate::entry::Entry;
use crate::form::header_of;
use crate::limits::{HEADER_SIZE, PAIR_SIZE};

/// A record read in place: its stamp, and its entries in order.
#[derive(Clone, Copy)]
pub struct RecordView<'a> {
    stamp: u32,
    count: u8,
    bytes: &'a [u8],
}

impl<'a> RecordView<'a> {
    /// The record that the bytes are, if they are one.
    pub fn read(bytes: &'a [u8]) -> Option<RecordView<'a>>
        ensures law { Exact }
        ensures cases { MatchOption result (record_in bytes.now ≡ Missing) (λ v. Shows bytes.now v) }
    {
        let (stamp, count) = header_of(bytes)?;
        Some(RecordView {
            stamp,
            count,
            bytes,
        })
    }

    /// The page's stamp.
    pub fn stamp(&self) -> u32
        ensures { result ≡ self.now.stamp }
    {
        self.stamp
    }

    /// The number of entries.
    pub fn len(&self) -> usize
        ensures { result ≡ self.now.count }
    {
        usize::from(self.count)
    }

    /// The i-th entry, counted from 0.
    pub fn entry(&self, i: usize) -> Option<Entry>
        ensures value { option_map value_of result ≡ entry_at self.now i }
        ensures bound { OnSome result ((i < self.now.count) × (self.now.count < 256)) }
        ensures item { (bs : Bytes) → Shows bs self.now → option_map value_of result ≡ slice_get (entries_in bs) i }
    {
        if i >= self.len() {
            return None;
        }
        let rest = self.bytes.get(HEADER_SIZE + PAIR_SIZE * i..)?;
        let (offset, len) = pair_of(*rest.first_chunk()?);
        entry_of(self.bytes.get(offset..offset + len)?)
    }

    /// The entries, in order.
    pub fn entries(&self) -> Entries<'a>
        ensures { (result.view ≡ self.now) × (result.next ≡ 0) }
    {
        Entries::new(*self)
    }
}
