ghost use Rattle.std.specs.Prelude.{◌≡◌, ◌<◌, ◌≤◌, [], length, drop, MatchOption};
ghost use Rattle.names.specs.Limits.{page_max, block_max};
ghost use Rattle.disk.specs.DiskState.{DiskState};
ghost use Rattle.disk.specs.Keys.{key_of};
ghost use Rattle.commit.specs.Stamps.{with_stamp};

use crate::shown::shown;
use crate::stamp::STAMP_SIZE;
use disk::{Disk, Key, Refusal};
use inline_vec::InlineVec;
use names::limits::BLOCK_MAX;

/// A stamp and the bytes behind it, as a key shows them.
#[derive(Clone, Copy)]
pub struct Stamped {
    bytes: InlineVec<u8, BLOCK_MAX>,
    ghost whole: { 4 ≤ length bytes.items },
    ghost short: { length bytes.items ≤ block_max },
}

/// Why a stamp and the bytes behind it were not read.
#[derive(Clone, Copy, PartialEq, Eq, Debug)]
pub enum ReadError {
    /// The disk said so.
    Disk(Refusal),
    /// The key shows too few bytes for a stamp.
    Short,
}

impl From<Refusal> for ReadError {
    ghost use Rattle.std.specs.Prelude.{◌≡◌};
    ghost use Rattle.commit.specs.declared.stamped.ReadError.TheVariants.{Disk as FromDisk};

    ghost from_gives = { λ why e. e ≡ FromDisk why };

    fn from(why: Refusal) -> ReadError {
        ReadError::Disk(why)
    }
}

impl Stamped {
    ghost use Rattle.commit.specs.Stamped.{bytes_of, held_in, Reads};

    /// The stamp 0 and nothing behind it.
    pub fn empty() -> Stamped
        ensures { bytes_of result ≡ with_stamp 0 [] }
    {
        let mut bytes = InlineVec::new(0);
        let _ = bytes.try_extend(&[0; STAMP_SIZE]);
        Stamped { bytes }
    }

    /// The bytes behind the stamp 0, if they are no more than a page has.
    pub fn new(bytes: &[u8]) -> Option<Stamped>
        ensures { MatchOption result (page_max < length bytes.now) (λ s. (length bytes.now ≤ page_max) × (bytes_of s ≡ with_stamp 0 bytes.now)) }
    {
        let mut file = Stamped::empty();
        file.bytes.try_extend(bytes).ok()?;
        Some(file)
    }

    /// Puts another stamp before the same bytes.
    pub fn set_stamp(&mut self, stamp: u32)
        ensures { bytes_of self.new ≡ with_stamp stamp (drop 4 (bytes_of self.old)) }
    {
        let _ = self.bytes.overwrite_front(&stamp.to_le_bytes());
    }

    pub fn stamp(&self) -> u32
        ensures { result ≡ (held_in self.now).stamp }
    {
        u32::from_le_bytes(*self.bytes.as_slice().first_chunk().unwrap())
    }

    /// The bytes behind the stamp.
    pub fn content(&self) -> &[u8]
        ensures value { result.now ≡ (held_in self.now).bytes }
        ensures bound { length result.now ≤ page_max }
        ensures whole { 4 ≤ length (bytes_of self.now) }
    {
        &self.bytes.as_slice()[STAMP_SIZE..]
    }

    /// The stamp and the bytes behind it.
    pub fn as_bytes(&self) -> &[u8]
        ensures { result.now ≡ bytes_of self.now }
    {
        self.bytes.as_slice()
    }

    /// The stamp and the bytes that the key shows; `None` where it shows nothing.
    // `Performs` would fix the whole answer; of this one's `Stamped` only the bytes are promised.
    pub fn read<D: Disk>(disk: &mut D, key: &Key) -> Result<Option<Stamped>, ReadError>
        ensures { (m : DiskState) → D.Disk.models disk.old m → Reads result m (key_of key.now) × D.Disk.models disk.new m }
    {
        // Nothing shown is an `Ok`, which `?` does not hand out.
        let Some(bytes) = shown(disk, key)? else {
            return Ok(None);
        };
        if bytes.len() < STAMP_SIZE {
            return Err(ReadError::Short);
        }
        Ok(Some(Stamped { bytes }))
    }
}
