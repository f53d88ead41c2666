ghost use Rattle.std.specs.Prelude.{◌≡◌, ◌<◌, true, false, map, length, Some, None, MatchOption};
ghost use Rattle.disk.specs.Keys.{key_of};
ghost use Rattle.disk.specs.DiskState.{DiskState};
ghost use Rattle.disk.specs.Calls.{dark, Within, store as store_step, rename as rename_step, remove as remove_step, settle as settle_step};
ghost use Rattle.disk.specs.Steps.{Performs, ReadsKey};
ghost use Rattle.layers.specs.Holds.{is_for, held, forgotten, hold_of, Caches};
ghost use Rattle.layers.specs.Recent.{Recent, to_front};

use crate::hold::Hold;
use disk::{Block, Count, Disk, Key, Refusal};
use names::limits::BLOCK_MAX;

// How many holds a cache has.
const HOLDS: usize = 4;

impl Hold {
    fn empty() -> Hold
        ensures { result.key ≡ None }
    {
        Hold {
            key: None,
            block: Block::empty(),
        }
    }

    fn is_for(&self, key: &Key) -> bool
        ensures { result ≡ is_for self.now (key_of key.now) }
    {
        self.key.is_some_and(|held| held == *key)
    }

    fn refill(&mut self, key: &Key, block: Block)
        ensures { self.new ≡ record { key = Some key.now; block = block } }
    {
        self.key = Some(*key);
        self.block = block;
    }

    // Empties the hold, if it is for the key.
    fn forget(&mut self, key: &Key)
        ensures { self.new ≡ forgotten (key_of key.now) self.old }
    {
        if self.is_for(key) {
            self.key = None;
        }
    }
}

// The first hold for the key. A search and no map: no call takes memory, and the holds stand in the order of reading.
fn seek(holds: &[Hold], key: &Key) -> Option<usize>
    ensures { result ≡ hold_of holds.now (key_of key.now) }
{
    holds.iter().position(|hold| hold.is_for(key))
}

fn forget_all(holds: &mut [Hold], key: &Key)
    ensures { holds.new ≡ map (forgotten (key_of key.now)) holds.old }
{
    for hold in holds.iter_mut() {
        hold.forget(key);
    }
}

// Moves the hold at i to the front.
fn bring_front(holds: &mut [Hold], i: usize)
    requires { i < length holds.old }
    ensures { (d : Hold) → holds.new ≡ to_front holds.old i d }
{
    holds[..=i].rotate_right(1);
}

/// A disk that keeps the last four keys read, with their bytes, the latest first.
#[derive(Drop)]
pub struct ReadCache<D: Disk> {
    below: D,
    holds: [Hold; HOLDS],
}

impl<D: Disk> ReadCache<D> {
    /// The cache over a disk, with nothing held yet.
    pub fn new(below: D) -> ReadCache<D>
        ensures { (m : DiskState) → D.Disk.models below m → Caches D.Disk.models result m }
    {
        ReadCache {
            below,
            holds: [Hold::empty(); HOLDS],
        }
    }

    // The hold that answers a read of the key. At charge 0 none does, so that the disk below says dark.
    fn at_hand(&self, key: &Key) -> Option<usize>
        ensures { MatchOption result ((m : DiskState) → D.Disk.models self.now.below m → dark m ≡ false → held self.now.holds (key_of key.now) ≡ false) (λ i. (hold_of self.now.holds (key_of key.now) ≡ Some i) × ((m : DiskState) → D.Disk.models self.now.below m → dark m ≡ false)) }
    {
        if self.below.count().charge == 0 {
            return None;
        }
        seek(&self.holds, key)
    }
}

impl<D: Disk> Disk for ReadCache<D> {
    ghost models = { Caches D.Disk.models };

    ghost lawful = { λ s m h. D.Disk.lawful s.below m h.0 };

    fn count(&self) -> Count {
        self.below.count()
    }

    fn is_used(&self, key: &Key) -> bool {
        self.below.is_used(key)
    }

    /// A held key is answered without the disk below, which stays as it is, memory and all.
    fn read(&mut self, key: &Key, into: &mut [u8; BLOCK_MAX]) -> Result<Option<usize>, Refusal>
        ensures bound { Within result }
        ensures step { ReadsKey (Caches D.Disk.models) self.old self.new (key_of key.now) result into.old into.new }
        ensures spared { (m : DiskState) → D.Disk.models self.old.below m → dark m ≡ false → held self.old.holds (key_of key.now) ≡ true → self.new.below ≡ self.old.below }
        ensures recent { Recent result (key_of key.now) self.old.holds self.new.holds }
    {
        if let Some(i) = self.at_hand(key) {
            bring_front(&mut self.holds, i);
            return Ok(Some(self.holds[0].block.copy_into(into)));
        }
        // Nothing shown is an `Ok`, which `?` does not hand out.
        let Some(n) = self.below.read(key, into)? else {
            return Ok(None);
        };
        let block = Block::new(&into[..n]).unwrap();
        let i = seek(&self.holds, key).unwrap_or(HOLDS - 1);
        bring_front(&mut self.holds, i);
        self.holds[0].refill(key, block);
        Ok(Some(n))
    }

    fn store(&mut self, key: &Key, bytes: &[u8]) -> Result<(), Refusal>
        ensures value { Performs (Caches D.Disk.models) self.old self.new result (λ m. store_step m (key_of key.now) bytes.now) }
        ensures holds_after { self.new.holds ≡ map (forgotten (key_of key.now)) self.old.holds }
    {
        forget_all(&mut self.holds, key);
        self.below.store(key, bytes)
    }

    fn rename(&mut self, from: &Key, to: &Key) -> Result<(), Refusal>
        ensures value { Performs (Caches D.Disk.models) self.old self.new result (λ m. rename_step m (key_of from.now) (key_of to.now)) }
        ensures holds_after { self.new.holds ≡ map (forgotten (key_of to.now)) (map (forgotten (key_of from.now)) self.old.holds) }
    {
        forget_all(&mut self.holds, from);
        forget_all(&mut self.holds, to);
        self.below.rename(from, to)
    }

    fn remove(&mut self, key: &Key) -> Result<(), Refusal>
        ensures value { Performs (Caches D.Disk.models) self.old self.new result (λ m. remove_step m (key_of key.now)) }
        ensures holds_after { self.new.holds ≡ map (forgotten (key_of key.now)) self.old.holds }
    {
        forget_all(&mut self.holds, key);
        self.below.remove(key)
    }

    fn settle(&mut self) -> Result<(), Refusal>
        ensures value { Performs (Caches D.Disk.models) self.old self.new result settle_step }
        ensures holds_unchanged { self.new.holds ≡ self.old.holds }
    {
        self.below.settle()
    }

    fn restart(&mut self, charge: u16, pick: u16) {
        let empty = [Hold::empty(); HOLDS];
        self.holds = empty;
        self.below.restart(charge, pick);
    }
}
