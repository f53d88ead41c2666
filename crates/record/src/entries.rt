ghost use Rattle.std.specs.Prelude.{◌≡◌, ◌+◌, ◌-◌, is_some, if◌then◌else◌};
ghost use Rattle.std.specs.Option.{option_map};
ghost use Rattle.record.specs.Values.{value_of};
ghost use Rattle.record.specs.Views.{entry_at};
ghost use Rattle.std.specs.Iterator.{at_most};

use crate::entry::Entry;
use crate::view::RecordView;

/// The entries of a record, in order.
// A place is kept. No chain over places: its type would name a closure, which no result type can. No range: where no
// entry stands the place stays, and a range's `next` has gone on.
#[derive(Clone, Copy)]
pub struct Entries<'a> {
    view: RecordView<'a>,
    next: usize,
}

impl<'a> Entries<'a> {
    pub(crate) fn new(view: RecordView<'a>) -> Entries<'a>
        ensures { (result.view ≡ view.entry) × (result.next ≡ 0) }
    {
        Entries { view, next: 0 }
    }
}

impl Iterator for Entries<'_> {
    type Item = Entry;

    ghost next_gives = { λ s r t. (option_map value_of r ≡ entry_at s.view s.next) × (t.view ≡ s.view) × (t.next ≡ s.next + (if is_some r then 1 else 0)) };

    ghost remaining = { λ s. at_most (s.view.count - s.next) };

    fn next(&mut self) -> Option<Entry> {
        let entry = self.view.entry(self.next)?;
        self.next += 1;
        Some(entry)
    }
}
