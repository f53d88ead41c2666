ghost use Rattle.std.specs.Prelude.{MatchOption, ◌≡◌, ◌%◌, ◌<◌, ◌≤◌, true, false, map, is_some, IfOk, if◌then◌else◌, Some, None, Ok, Err, vec_len, ◌==◌, nat_eq, slice_set};
ghost use Rattle.disk.specs.Keys.{KeyId, key_of};
ghost use Rattle.disk.specs.DiskState.{DiskState, blank};
ghost use Rattle.disk.specs.Calls.{Within, store as store_step, rename as rename_step, remove as remove_step, settle as settle_step};
ghost use Rattle.disk.specs.Steps.{Performs, ReadsKey, Restarts};
ghost use Rattle.two_copy.specs.Places.{places_in, copies, fits, used_place, refresh, place_of, vacancy_in, room_for};
ghost use Rattle.two_copy.specs.Described.{Describes, settled_copy, present_copy};

use super::TwoCopy;
use super::search::{idle_places, marks, refresh_all};
use crate::place::Place;
use disk::{Block, Count, Disk, Key, Refusal};
use names::limits::{BLOCK_MAX, KEYS_MAX};
use std::alloc::{AllocError, Global};

/// The bytes of memory that one key is reckoned at.
const PLACE_BYTES: usize = 2100;

// So the places lie within the bytes that a disk is made over.
const _: () = prove!(size_of::<Place>() <= PLACE_BYTES);

// Whether a restart with that pick takes the settled contents.
fn takes_settled(pick: u16) -> bool
    ensures { result ≡ (pick % 2 == 0) }
{
    pick % 2 == 0
}

impl TwoCopy {
    /// An empty disk over that many bytes of memory. The only call that takes memory.
    pub fn new(heap: Global, bytes: usize, charge: u16) -> Result<TwoCopy, AllocError>
        ensures { IfOk result (λ d. Describes d (blank (places_in bytes) charge)) }
    {
        let limit = (bytes / PLACE_BYTES).min(KEYS_MAX);
        let places = idle_places(heap, limit)?;
        Ok(TwoCopy {
            places,
            used: 0,
            charge,
        })
    }

    // The place of the key.
    fn find(&self, key: &Key) -> Option<usize>
        ensures { result ≡ place_of self.now.places.items (key_of key.now) }
    {
        self.places.iter().position(|place| place.is_at(key))
    }

    // The place of the key, if it shows something.
    fn shown(&self, key: &Key) -> Option<usize>
        ensures { MatchOption result (is_some (copies self.now.places.items (key_of key.now)).present ≡ false) (λ i. (is_some (copies self.now.places.items (key_of key.now)).present ≡ true) × (place_of self.now.places.items (key_of key.now) ≡ Some i)) }
    {
        let i = self.find(key)?;
        self.places[i].present.is_some().then_some(i)
    }

    // The first place that is not used.
    fn vacant(&self) -> Option<usize>
        ensures { result ≡ vacancy_in self.now.places.items }
    {
        self.places.iter().position(|place| !place.is_used())
    }

    // The place of the key, or else the first that is not used.
    fn room(&self, key: &Key) -> Option<usize>
        ensures { result ≡ room_for self.now.places.items (key_of key.now) }
    {
        self.find(key).or_else(|| self.vacant())
    }

    // Puts the place at an index that its key may have, and marks it used.
    fn put(&mut self, i: usize, place: Place)
        requires within { i < vec_len self.old.places }
        requires used { used_place place ≡ true }
        requires fit { fits self.old.places.items i (key_of place.key) ≡ true }
        ensures { (self.new.places.items ≡ slice_set self.old.places.items i place) × (self.new.charge ≡ self.old.charge) }
    {
        self.places[i] = place;
        self.used |= 1 << i;
    }

    // Makes every place firm, at its settled content or at its present one.
    fn refresh(&mut self, old: bool, charge: u16)
        ensures { (self.new.places.items ≡ map (refresh old) self.old.places.items) × (self.new.charge ≡ charge) }
    {
        refresh_all(&mut self.places, old);
        self.used = marks(&self.places);
        self.charge = charge;
    }
}

impl Disk for TwoCopy {
    ghost models = { Describes };

    ghost lawful = { λ s m h. h.lawful };

    fn count(&self) -> Count {
        Count {
            limit: self.places.len() as u8,
            used: self.used.count_ones() as u8,
            charge: self.charge,
        }
    }

    fn is_used(&self, key: &Key) -> bool {
        self.find(key).is_some()
    }

    fn read(&mut self, key: &Key, into: &mut [u8; BLOCK_MAX]) -> Result<Option<usize>, Refusal>
        ensures bound { Within result }
        ensures step { ReadsKey Describes self.old self.new (key_of key.now) result into.old into.new }
        ensures same { self.new ≡ self.old }
    {
        if self.charge == 0 {
            return Err(Refusal::Dark);
        }
        // A key without a place shows nothing, which is an `Ok`, and `?` hands none out.
        let Some(i) = self.find(key) else {
            return Ok(None);
        };
        // No `map`: tried, and the proof knows nothing of a buffer that its closure writes.
        match &self.places[i].present {
            None => Ok(None),
            Some(block) => Ok(Some(block.copy_into(into))),
        }
    }

    fn store(&mut self, key: &Key, bytes: &[u8]) -> Result<(), Refusal>
        ensures value { Performs Describes self.old self.new result (λ m. store_step m (key_of key.now) bytes.now) }
        ensures k_unchanged { (k : KeyId) → settled_copy self.new k ≡ settled_copy self.old k }
    {
        if self.charge == 0 {
            return Err(Refusal::Dark);
        }
        let block = Block::new(bytes).ok_or(Refusal::Long)?;
        let i = self.room(key).ok_or(Refusal::Full)?;
        let settled = self.places[i].settled;
        self.put(
            i,
            Place {
                key: *key,
                settled,
                present: Some(block),
                firm: false,
            },
        );
        self.charge -= 1;
        Ok(())
    }

    fn rename(&mut self, from: &Key, to: &Key) -> Result<(), Refusal>
        ensures value { Performs Describes self.old self.new result (λ m. rename_step m (key_of from.now) (key_of to.now)) }
        ensures k_unchanged { (k : KeyId) → settled_copy self.new k ≡ settled_copy self.old k }
    {
        if self.charge == 0 {
            return Err(Refusal::Dark);
        }
        if *from == *to {
            return Err(Refusal::Same);
        }
        let i = self.shown(from).ok_or(Refusal::Missing)?;
        let j = self.room(to).ok_or(Refusal::Full)?;
        let old = self.places[i];
        let settled = self.places[j].settled;
        self.put(
            j,
            Place {
                key: *to,
                settled,
                present: old.present,
                firm: false,
            },
        );
        self.put(
            i,
            Place {
                key: *from,
                settled: old.settled,
                present: None,
                firm: false,
            },
        );
        self.charge -= 1;
        Ok(())
    }

    fn remove(&mut self, key: &Key) -> Result<(), Refusal>
        ensures value { Performs Describes self.old self.new result (λ m. remove_step m (key_of key.now)) }
        ensures k_unchanged { (k : KeyId) → settled_copy self.new k ≡ settled_copy self.old k }
    {
        if self.charge == 0 {
            return Err(Refusal::Dark);
        }
        let i = self.shown(key).ok_or(Refusal::Missing)?;
        let settled = self.places[i].settled;
        self.put(
            i,
            Place {
                key: *key,
                settled,
                present: None,
                firm: false,
            },
        );
        self.charge -= 1;
        Ok(())
    }

    fn settle(&mut self) -> Result<(), Refusal>
        ensures value { Performs Describes self.old self.new result settle_step }
        ensures k_after { (k : KeyId) → settled_copy self.new k ≡ elim result [ Ok _ ↦ present_copy self.old k | Err _ ↦ settled_copy self.old k ] }
    {
        if self.charge == 0 {
            return Err(Refusal::Dark);
        }
        self.refresh(false, self.charge - 1);
        Ok(())
    }

    /// An even pick takes every key's content at the last settle or restart, an odd one its present content.
    fn restart(&mut self, charge: u16, pick: u16)
        ensures restarted { Restarts Describes self.old self.new charge }
        ensures k_after { (k : KeyId) → present_copy self.new k ≡ (if nat_eq (pick % 2) 0 then settled_copy self.old k else present_copy self.old k) }
    {
        self.refresh(takes_settled(pick), charge);
    }
}
