ghost use Rattle.std.specs.Prelude.{◌≡◌};
ghost use Rattle.names.specs.Spelled.{spelled};
ghost use Rattle.disk.specs.Keys.{key_of};
ghost use Rattle.builder.specs.Calls.{on_shelf, unread};

use commit::ReadError;
use disk::Key;
use faults::Cause;
use names::Name;

/// Where a file stands: as it was laid, or as a script made it.
#[derive(Clone, Copy, PartialEq, Eq, Debug)]
pub enum Shelf {
    Laid,
    Made,
}

impl Shelf {
    // The key of the name on the shelf.
    pub(crate) fn key(self, name: Name) -> Key
        ensures { key_of result ≡ on_shelf self (spelled name) }
    {
        match self {
            Shelf::Laid => Key::Laid(name),
            Shelf::Made => Key::Made(name),
        }
    }

    // The cause that a failed read is answered with.
    pub(crate) fn cause(self, why: ReadError) -> Cause
        ensures { result ≡ unread self why }
    {
        match (self, why) {
            (_, ReadError::Disk(why)) => Cause::Disk(why),
            (Shelf::Laid, ReadError::Short) => Cause::Spoiled,
            (Shelf::Made, ReadError::Short) => Cause::Unknown,
        }
    }
}
