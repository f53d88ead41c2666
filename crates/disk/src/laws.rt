ghost use Rattle.std.specs.Prelude.{◌≡◌};
ghost use Rattle.disk.specs.Keys.{same_key, key_of};

use crate::key::Key;

/// Keys are equal just when they have the same kind and name.
pub fn laws()
    ensures equal { (a b : Key) → ⟦<Key as PartialEq>⟧.eq a b ≡ same_key (key_of a) (key_of b) }
{}
