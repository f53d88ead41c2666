ghost use Rattle.std.specs.Prelude.{◌≡◌, ◌&&◌, [], ◌∷◌, ◌++◌, is_some, if◌then◌else◌, Some as Found, None as Missing, MatchOption};
ghost use Rattle.std.specs.List.{find as first};
ghost use Rattle.std.specs.Option.{option_copied};
ghost use Rattle.std.specs.Str.{bytes_eq};
ghost use Rattle.names.specs.Spelled.{spelled};
ghost use Rattle.script.specs.Pages.{content};
ghost use Rattle.script.specs.Tree.{entered, with_entry, full, same_kind};
ghost use Rattle.script.specs.Made.{entries};

use super::{Entries, Entry, Kind};
use crate::page::Page;
use inline_vec::InlineVec;
use names::Name;

impl Entries {
    /// No entries.
    #[inline(never)]
    pub fn new() -> Entries
        ensures { entries result ≡ [] }
    {
        let filler = Entry {
            kind: Kind::Absent,
            name: Name::filler(),
            bytes: Page::new(),
        };
        Entries {
            made: InlineVec::new(filler),
        }
    }

    /// Have all the entries been made that a record can hold?
    pub fn is_full(&self) -> bool
        ensures { result ≡ full (entries self.now) }
    {
        self.made.is_full()
    }

    /// Makes an entry; where there is no room, it is left out.
    pub fn push(&mut self, kind: Kind, name: Name, bytes: Page)
        ensures { entries self.new ≡ (if full (entries self.old) then entries self.old else with_entry (entries self.old) kind (spelled name) (content bytes)) }
    {
        self.made.try_push(Entry { kind, name, bytes }).ok();
    }

    /// The first entry of this kind and name.
    fn entry(&self, kind: Kind, name: &Name) -> Option<&Entry>
        ensures { option_copied result ≡ first (λ e. same_kind e.kind kind && bytes_eq (spelled e.name) (spelled name.now)) self.now.made.items }
    {
        self.made
            .as_slice()
            .iter()
            .find(|entry| entry.kind == kind && entry.name == *name)
    }

    /// The bytes of the entry of this kind and name, if it has been made.
    #[tactic(auto, using(crate::proofs::Lookups::found_entry))]
    pub(crate) fn find(&self, kind: Kind, name: &Name) -> Option<&[u8]>
        ensures { MatchOption result (entered kind (spelled name.now) (entries self.now) ≡ Missing)
            (λ b. entered kind (spelled name.now) (entries self.now) ≡ Found b.now) }
    {
        Some(self.entry(kind, name)?.bytes.as_bytes())
    }

    /// Has an entry of this kind and name been made?
    pub fn has(&self, kind: Kind, name: &Name) -> bool
        ensures { result ≡ is_some (entered kind (spelled name.now) (entries self.now)) }
    {
        self.find(kind, name).is_some()
    }
}
