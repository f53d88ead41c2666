ghost use Rattle.std.specs.Prelude.{◌≡◌};
ghost use Rattle.disk.specs.Keys.{key_of};
ghost use Rattle.disk.specs.DiskState.{DiskState, used_at};
ghost use Rattle.disk.specs.Lawful.{Lawful};
ghost use Rattle.disk.specs.Calls.{counted, Within, store as store_step, rename as rename_step, remove as remove_step, settle as settle_step};
ghost use Rattle.disk.specs.Steps.{Performs, ReadsKey, Restarts};

use crate::key::Key;
use crate::refusal::{Count, Refusal};
use names::limits::BLOCK_MAX;

/// A disk, by its meaning: `models` relates a value to each state that describes it. A state's marks say what a
/// power cut may leave, and may say more than the value can really come to; all else is settled. What a call
/// answers, and a state that describes the value after it, are worked out from any state that described it before.
pub trait Disk {
    ghost models: { Self → DiskState → Type 0 };

    /// How many keys the disk takes and how many are used, with its charge. Answered at charge 0 too.
    fn count(&self) -> Count
        ensures { (m : DiskState) → models self.now m → result ≡ counted m };

    /// Whether the key is used. Answered at charge 0 too.
    fn is_used(&self, key: &Key) -> bool
        ensures { (m : DiskState) → models self.now m → result ≡ used_at m (key_of key.now) };

    /// Puts the bytes of the key at the front of the buffer and says how many they are; or none, if it shows nothing.
    // As `std::io::Read` does: the caller lends the memory, and no call allocates.
    fn read(&mut self, key: &Key, into: &mut [u8; BLOCK_MAX]) -> Result<Option<usize>, Refusal>
        ensures bound { Within result }
        ensures step { ReadsKey models self.old self.new (key_of key.now) result into.old into.new };

    /// Lets the key show the bytes. Until the next settle a cut may leave it with anything.
    fn store(&mut self, key: &Key, bytes: &[u8]) -> Result<(), Refusal>
        ensures { Performs models self.old self.new result (λ m. store_step m (key_of key.now) bytes.now) };

    /// Lets the key `to` show what `from` shows, and `from` nothing.
    fn rename(&mut self, from: &Key, to: &Key) -> Result<(), Refusal>
        ensures { Performs models self.old self.new result (λ m. rename_step m (key_of from.now) (key_of to.now)) };

    /// Lets the key show nothing.
    fn remove(&mut self, key: &Key) -> Result<(), Refusal>
        ensures { Performs models self.old self.new result (λ m. remove_step m (key_of key.now)) };

    /// Makes every key firm.
    fn settle(&mut self) -> Result<(), Refusal>
        ensures { Performs models self.old self.new result settle_step };

    /// The power was cut and is back, with that charge. Where marks leave a choice, the pick takes it.
    fn restart(&mut self, charge: u16, pick: u16)
        ensures { Restarts models self.old self.new charge };

    ghost lawful: { (s : Self) (m : DiskState) → models s m → Lawful m };
}
