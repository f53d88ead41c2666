ghost use Rattle.std.specs.Prelude.{◌≡◌, ◌≤◌, true, vec_len};
ghost use Rattle.names.specs.Limits.{keys_max};
ghost use Rattle.two_copy.specs.Masks.{mask};
ghost use Rattle.two_copy.specs.Places.{apart as apart_places, tidy as tidy_places};

use crate::place::Place;

pub mod calls;
pub mod search;

/// A disk in memory that keeps two contents of each key, the settled one and the present one.
// Places and no map: no call but `new` takes memory, and the used places are the bits of one number.
#[derive(Drop)]
pub struct TwoCopy {
    places: Vec<Place>,
    used: u64,
    charge: u16,
    ghost few: { vec_len places ≤ keys_max },
    ghost marks: { used ≡ mask places.items },
    ghost apart: { apart_places places.items ≡ true },
    ghost tidy: { tidy_places places.items ≡ true },
}
