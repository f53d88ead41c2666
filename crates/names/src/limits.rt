//! The limits of the subject, each in one place of the code. `specs/Limits.antt` has the same numbers for the contracts.

/// The bytes of a name.
pub const NAME_MAX: usize = 24;
/// The bytes of a page, and of a laid file.
pub const PAGE_MAX: usize = 1020;
/// The bytes that one key of a disk shows: a page behind its stamp.
pub const BLOCK_MAX: usize = 1024;
/// The keys that a disk takes at most.
pub const KEYS_MAX: usize = 64;
/// The last stamp that is drawn.
pub const STAMP_MAX: u32 = 1_000_000;
/// The entries of one run.
pub const ENTRIES_MAX: usize = 28;
/// The targets that are open at once.
pub const DEPTH_MAX: usize = 8;
/// The bytes of a console line.
pub const LINE_MAX: usize = 1100;
