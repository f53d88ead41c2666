ghost use Rattle.std.specs.Prelude.{◌≡◌, ◌≤◌, map, length, replicate, IfOk};
ghost use Rattle.names.specs.Limits.{keys_max};
ghost use Rattle.disk.specs.Keys.{key_of};
ghost use Rattle.two_copy.specs.Places.{used_place, is_at, refresh, idle};
ghost use Rattle.two_copy.specs.Masks.{mask};

use crate::place::Place;
use disk::Key;
use std::alloc::{AllocError, Global};

impl Place {
    pub fn is_used(&self) -> bool
        ensures { result ≡ used_place self.now }
    {
        self.present.is_some() || !self.firm
    }

    pub fn is_at(&self, key: &Key) -> bool
        ensures { result ≡ is_at self.now (key_of key.now) }
    {
        self.is_used() && self.key == *key
    }

    // Makes the place firm, at its settled content or at its present one.
    // A bit and no enum: the definition of a restart takes the same bit.
    pub fn refresh(&mut self, old: bool)
        ensures { self.new ≡ refresh old self.old }
    {
        if old {
            self.present = self.settled;
        } else {
            self.settled = self.present;
        }
        self.firm = true;
    }
}

// Makes every place firm, at its settled content or at its present one.
pub fn refresh_all(places: &mut [Place], old: bool)
    ensures { places.new ≡ map (refresh old) places.old }
{
    for p in places.iter_mut() {
        p.refresh(old);
    }
}

// The used places, as a number: bit i is for place i, so the index is what is wanted.
pub fn marks(places: &[Place]) -> u64
    requires { length places.now ≤ keys_max }
    ensures { result ≡ mask places.now }
{
    let mut marks = 0;
    for (i, place) in places.iter().enumerate() {
        if place.is_used() {
            marks |= 1 << i;
        }
    }
    marks
}

// That many places, none of them used.
pub fn idle_places(heap: Global, n: usize) -> Result<Vec<Place>, AllocError>
    ensures { IfOk result (λ v. v.items ≡ replicate n idle) }
{
    let idle = Place {
        // A filler: an unused place is for no key.
        key: Key::Draft,
        settled: None,
        present: None,
        firm: true,
    };
    Ok(vec![in heap; idle; n]?)
}
