ghost use Rattle.std.specs.Prelude.{◌≡◌, ℕ, ◌≤◌, true, take};
ghost use Rattle.names.specs.Limits.{name_max};
ghost use Rattle.names.specs.Names.{is_name};

use crate::limits::NAME_MAX;

pub mod methods;

/// A name: what a laid file, a page or a record goes by. The first `len` of its bytes count.
// Equality and order are not derived: the bytes behind the length mean nothing.
#[derive(Clone, Copy)]
pub struct Name {
    bytes: [u8; NAME_MAX],
    len: u8,
    ghost short: { len ≤ name_max },
    ghost lawful: { is_name (take len bytes) ≡ true },
}
