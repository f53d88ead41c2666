ghost use Rattle.std.specs.Prelude.{◌≡◌, ◌≤◌, true, length};
ghost use Rattle.record.specs.Limits.{record_max};
ghost use Rattle.record.specs.Read.{is_record};
ghost use Rattle.record.specs.Filled.{filled};

use crate::buffer::Buffer;

/// The bytes of a record.
#[derive(Clone, Copy)]
pub struct Record {
    buffer: Buffer,
    ghost whole: { is_record (filled buffer) ≡ true },
}

impl Record {
    ghost use Rattle.record.specs.Finished.{bytes_of};

    pub(crate) fn new(buffer: Buffer) -> Record
        requires { is_record (filled buffer) ≡ true }
        ensures { result.buffer ≡ buffer }
    {
        Record { buffer }
    }

    /// The bytes, which are a record and no more than the longest one has.
    pub fn as_bytes(&self) -> &[u8]
        ensures value { result.now ≡ bytes_of self.now }
        ensures whole { is_record result.now ≡ true }
        ensures short { length result.now ≤ record_max }
    {
        self.buffer.as_bytes()
    }
}
