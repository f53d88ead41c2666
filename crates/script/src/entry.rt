ghost use Rattle.std.specs.Prelude.{◌≤◌, length};
ghost use Rattle.names.specs.Limits.{entries_max};

use crate::page::Page;
use inline_vec::InlineVec;
use names::Name;
use names::limits::ENTRIES_MAX;

mod methods;

/// As what a run has entered a name: as its script, as needed, or as absent.
#[derive(Clone, Copy, PartialEq, Eq, Debug)]
pub enum Kind {
    Script,
    Needed,
    Absent,
}

/// An entry of a run; `bytes` are those of a needed name.
#[derive(Clone, Copy)]
pub struct Entry {
    kind: Kind,
    name: Name,
    bytes: Page,
}

/// The entries that a run has made, in order.
#[derive(Clone, Copy)]
pub struct Entries {
    made: InlineVec<Entry, ENTRIES_MAX>,
    ghost few: { length made.items ≤ entries_max },
}
