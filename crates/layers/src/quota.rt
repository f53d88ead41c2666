ghost use Rattle.std.specs.Prelude.{◌≡◌, max, false, is_some};
ghost use Rattle.std.proofs.Common.{sym, subst};
ghost use Rattle.disk.specs.Keys.{key_of};
ghost use Rattle.disk.specs.DiskState.{DiskState, shown, count as used_count};
ghost use Rattle.disk.specs.Calls.{dark};
ghost use Rattle.layers.specs.Capped.{capped, capped_lawful, Capped, over as over_cap};
ghost use Rattle.disk.specs.Lawful.{Lawful};

use disk::{Count, Disk, Key, Refusal};
use names::limits::BLOCK_MAX;

/// A disk that takes no more keys than the cap, if the disk below takes more.
#[derive(Drop)]
pub struct Quota<D: Disk> {
    below: D,
    cap: u8,
}

impl<D: Disk> Quota<D> {
    /// The disk with a cap of that number, or of as many keys as are used already.
    pub fn new(below: D, number: u8) -> Quota<D>
        ensures { (n : DiskState) → D.Disk.models below n → Capped (D.Disk.models result.below) result.cap (capped (max number (used_count n)) n) }
    {
        let used = below.count().used;
        Quota {
            below,
            cap: number.max(used),
        }
    }

    // Refused here and not below.
    fn over(&self, key: &Key) -> bool
        ensures { (n : DiskState) → D.Disk.models self.now.below n → result ≡ over_cap self.now.cap n (key_of key.now) }
    {
        let count = self.below.count();
        count.charge > 0
            && self.cap < count.limit
            && self.cap <= count.used
            && !self.below.is_used(key)
    }
}

// Whether the key shows something, on a disk with charge left. `Performs` would say what it answers to a dark disk too.
fn shows<D: Disk>(disk: &mut D, key: &Key) -> bool
    ensures { (m : DiskState) → D.Disk.models disk.old m → (dark m ≡ false → result ≡ is_some (shown m (key_of key.now))) × D.Disk.models disk.new m }
{
    let mut scratch = [0; BLOCK_MAX];
    matches!(disk.read(key, &mut scratch), Ok(Some(_)))
}

impl<D: Disk> Disk for Quota<D> {
    ghost models = { λ s m. Capped (D.Disk.models s.below) s.cap m };

    ghost lawful = { λ s m h. subst Lawful (sym h.1.1) (capped_lawful s.cap h.0 (D.Disk.lawful s.below h.0 h.1.0)) };

    fn count(&self) -> Count {
        let count = self.below.count();
        Count {
            limit: count.limit.min(self.cap),
            ..count
        }
    }

    fn is_used(&self, key: &Key) -> bool {
        self.below.is_used(key)
    }

    fn read(&mut self, key: &Key, into: &mut [u8; BLOCK_MAX]) -> Result<Option<usize>, Refusal> {
        self.below.read(key, into)
    }

    fn store(&mut self, key: &Key, bytes: &[u8]) -> Result<(), Refusal> {
        if bytes.len() <= BLOCK_MAX && self.over(key) {
            return Err(Refusal::Full);
        }
        self.below.store(key, bytes)
    }

    fn rename(&mut self, from: &Key, to: &Key) -> Result<(), Refusal> {
        if *from == *to || !self.over(to) {
            return self.below.rename(from, to);
        }
        if shows(&mut self.below, from) {
            return Err(Refusal::Full);
        }
        self.below.rename(from, to)
    }

    fn remove(&mut self, key: &Key) -> Result<(), Refusal> {
        self.below.remove(key)
    }

    fn settle(&mut self) -> Result<(), Refusal> {
        self.below.settle()
    }

    fn restart(&mut self, charge: u16, pick: u16) {
        self.below.restart(charge, pick);
    }
}
