//! The sizes of a record's parts. `specs/Limits.antt` has the same numbers for the contracts.
use names::limits::{ENTRIES_MAX, NAME_MAX};

/// The stamp and the number of entries.
pub const HEADER_SIZE: usize = 5;
/// The offset and the length of one body.
pub const PAIR_SIZE: usize = 4;
/// The kind, the line and the stamp of one entry, which stand before its name.
pub const HEAD_SIZE: usize = 7;
/// The longest body.
pub const BODY_MAX: usize = HEAD_SIZE + NAME_MAX;
/// The longest record.
pub const RECORD_MAX: usize = HEADER_SIZE + ENTRIES_MAX * (PAIR_SIZE + BODY_MAX);
