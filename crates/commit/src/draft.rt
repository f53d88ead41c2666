ghost use Rattle.disk.specs.Keys.{key_of, draft_key};
ghost use Rattle.disk.specs.Calls.{store};
ghost use Rattle.disk.specs.Steps.{Performs};
ghost use Rattle.commit.specs.Commits.{answer_of, abandon as abandon_step, finish as finish_step, commit as commit_step};

use disk::{Disk, Key, Refusal};

/// An open draft, which is owed: the value cannot be let go, and only `commit` or `abandon` spends it.
pub struct Draft {
    open: (),
}

// What `abandon` does, with no `Draft` to spend: where `commit` discards, its own is spent already.
fn discard<D: Disk>(disk: &mut D) -> Result<(), Refusal>
    ensures { Performs D.Disk.models disk.old disk.new result abandon_step }
{
    disk.remove(&Key::Draft)?;
    disk.settle()
}

impl Draft {
    /// Stores the bytes in the draft.
    pub fn open<D: Disk>(disk: &mut D, bytes: &[u8]) -> Result<Draft, Refusal>
        ensures { Performs D.Disk.models disk.old disk.new (answer_of result) (λ m. store m draft_key bytes.now) }
    {
        disk.store(&Key::Draft, bytes)?;
        Ok(Draft { open: () })
    }

    /// Removes the draft, as far as the charge goes.
    pub fn abandon<D: Disk>(self, disk: &mut D) -> Result<(), Refusal>
        ensures { Performs D.Disk.models disk.old disk.new result abandon_step }
    {
        let Draft { open: () } = self;
        discard(disk)
    }

    /// Settles the draft and makes it the key's bytes. Where the disk is full for that, the draft is abandoned.
    pub fn commit<D: Disk>(self, disk: &mut D, key: &Key) -> Result<(), Refusal>
        ensures { Performs D.Disk.models disk.old disk.new result (λ m. finish_step m (key_of key.now)) }
    {
        let Draft { open: () } = self;
        disk.settle()?;
        // No `?`: where the disk is full, the draft is discarded before the refusal is passed on.
        if let Err(why) = disk.rename(&Key::Draft, key) {
            if why == Refusal::Full {
                let _ = discard(disk);
            }
            return Err(why);
        }
        disk.settle()
    }
}

/// Commits the bytes to the key: a cut leaves the key as it was or with all of them.
pub fn commit<D: Disk>(disk: &mut D, key: &Key, bytes: &[u8]) -> Result<(), Refusal>
    ensures { Performs D.Disk.models disk.old disk.new result (λ m. commit_step m (key_of key.now) bytes.now) }
{
    Draft::open(disk, bytes)?.commit(disk, key)
}
