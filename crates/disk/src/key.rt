use names::Name;

/// Where a disk keeps bytes: a laid file, a made page or a record by its name, the draft, or the last stamp.
#[derive(Clone, Copy, PartialEq, Eq)]
pub enum Key {
    Laid(Name),
    Made(Name),
    Record(Name),
    Draft,
    Stamp,
}
