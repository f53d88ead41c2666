ghost use Rattle.std.specs.Prelude.{◌≡◌, ◌+◌, ◌≤◌, [], ◌++◌, length};
ghost use Rattle.record.specs.Limits.{record_max, body_max, pair_size};

use crate::entry::Entry;
use crate::limits::RECORD_MAX;
use inline_vec::InlineVec;

/// The bytes of a record that is being written, or of a part of it.
#[derive(Clone, Copy)]
pub struct Buffer {
    bytes: InlineVec<u8, RECORD_MAX>,
    ghost short: { length bytes.items ≤ record_max },
}

impl Buffer {
    ghost use Rattle.record.specs.Entries.{Fitting};
    ghost use Rattle.record.specs.Values.{value_of};
    ghost use Rattle.record.specs.Filled.{filled};
    ghost use Rattle.record.specs.Written.{two, body};

    pub(crate) fn new() -> Buffer
        ensures { filled result ≡ [] }
    {
        Buffer {
            bytes: InlineVec::new(0),
        }
    }

    pub(crate) fn as_bytes(&self) -> &[u8]
        ensures { result.now ≡ filled self.now }
    {
        self.bytes.as_slice()
    }

    pub(crate) fn len(&self) -> usize
        ensures { result ≡ length (filled self.now) }
    {
        self.bytes.len()
    }

    // The bytes behind those that stand.
    pub(crate) fn append(&mut self, part: &[u8])
        requires { length (filled self.old) + length part.now ≤ record_max }
        ensures { filled self.new ≡ filled self.old ++ part.now }
    {
        // There is room, as is required, so that this is an `Ok`.
        let _done = self.bytes.try_extend(part);
    }

    // A pair of offset and length.
    pub(crate) fn append_pair(&mut self, offset: u16, len: u16)
        requires { length (filled self.old) + pair_size ≤ record_max }
        ensures { filled self.new ≡ filled self.old ++ (two offset ++ two len) }
    {
        let [o0, o1] = offset.to_le_bytes();
        let [l0, l1] = len.to_le_bytes();
        self.append(&[o0, o1, l0, l1]);
    }

    // The body of an entry.
    pub(crate) fn append_body(&mut self, entry: &Entry)
        requires { length (filled self.old) + body_max ≤ record_max }
        ensures bytes { filled self.new ≡ filled self.old ++ body (value_of entry.now) }
        ensures room { length (body (value_of entry.now)) ≤ body_max }
        ensures fitting { Fitting (value_of entry.now) }
    {
        self.append(&entry.head());
        self.append(entry.name.as_bytes());
    }
}
