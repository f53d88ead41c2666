ghost use Rattle.std.specs.Prelude.{◌≡◌, List};
ghost use Rattle.names.specs.Names.{Bytes};
ghost use Rattle.disk.specs.DiskState.{DiskState};
ghost use Rattle.disk.specs.Restart.{Restarted};
ghost use Rattle.disk.specs.Perform.{after, replies};
ghost use Rattle.disk.specs.Steps.{Replies};
ghost use Rattle.disk.specs.Steady.{Steady, Survived};
ghost use Rattle.disk.specs.Alike.{Alike};
ghost use Rattle.disk.specs.declared.call.Call.{Call as CallT};

use crate::disk::Disk;
use crate::key::Key;
use crate::refusal::{Count, Refusal};
use names::limits::BLOCK_MAX;

/// A call of a disk, but for restart. What a store writes is lent beside it.
// A value and no closure: a law speaks of lists of calls, and a line of the shell is one.
#[derive(Clone, Copy, PartialEq, Eq)]
pub enum Call {
    Count,
    IsUsed(Key),
    Read(Key),
    Store(Key),
    Rename(Key, Key),
    Remove(Key),
    Settle,
}

/// What a disk answers to a call.
// The calls answer in four types, and a law speaks of the replies to a list of calls, so they are one type here.
#[derive(Clone, Copy, PartialEq, Eq, Debug)]
pub enum Reply {
    Counted(Count),
    Used(bool),
    Length(Result<Option<usize>, Refusal>),
    Changed(Result<(), Refusal>),
}

// What `perform` does: apart from it, since the law of `perform` follows from this clause alone, and not arm by arm.
fn dispatch<D: Disk>(disk: &mut D, call: &Call, bytes: &[u8], into: &mut [u8; BLOCK_MAX]) -> Reply
    ensures { Replies D.Disk.models disk.old disk.new call.now bytes.now result into.old into.new }
{
    match call {
        Call::Count => Reply::Counted(disk.count()),
        Call::IsUsed(key) => Reply::Used(disk.is_used(key)),
        Call::Read(key) => Reply::Length(disk.read(key, into)),
        Call::Store(key) => Reply::Changed(disk.store(key, bytes)),
        Call::Rename(from, to) => Reply::Changed(disk.rename(from, to)),
        Call::Remove(key) => Reply::Changed(disk.remove(key)),
        Call::Settle => Reply::Changed(disk.settle()),
    }
}

/// Makes the call. A store takes the bytes, and a read alone writes into the buffer.
pub fn perform<D: Disk>(
    disk: &mut D,
    call: &Call,
    bytes: &[u8],
    into: &mut [u8; BLOCK_MAX],
) -> Reply
    ensures step { Replies D.Disk.models disk.old disk.new call.now bytes.now result into.old into.new }
    ensures steady { (m : DiskState) → D.Disk.models disk.old m → Steady m (after m call.now bytes.now) }
{
    dispatch(disk, call, bytes, into)
}

/// Cuts the power and restarts the disk: what was firm is still there.
// Not `Restarts` alone: it does not say of the state after that what was firm is there.
pub fn cut_power<D: Disk>(disk: &mut D, charge: u16, pick: u16)
    ensures { (m : DiskState) → D.Disk.models disk.old m → ((n : DiskState) × (D.Disk.models disk.new n × (Restarted m charge n × (Survived m n × Steady m n)))) }
{
    disk.restart(charge, pick);
}

/// Makes the call on two disks. If they began alike, they answer alike, now and whatever calls follow.
pub fn perform_both<A: Disk, B: Disk>(
    first: &mut A,
    second: &mut B,
    call: &Call,
    bytes: &[u8],
    into: &mut [u8; BLOCK_MAX],
    into_second: &mut [u8; BLOCK_MAX],
) -> (Reply, Reply)
    ensures alike { (m n : DiskState) → A.Disk.models first.old m → B.Disk.models second.old n → Alike m n → (result.0 ≡ result.1) × (into.old ≡ into_second.old → into.new ≡ into_second.new) }
    ensures later { (m n : DiskState) → A.Disk.models first.old m → B.Disk.models second.old n → Alike m n → ((p q : DiskState) × (A.Disk.models first.new p × (B.Disk.models second.new q × (Alike p q × ((buffer : Bytes) (calls : List (CallT × Bytes)) → replies p buffer calls ≡ replies q buffer calls))))) }
{
    let reply = perform(first, call, bytes, into);
    (reply, perform(second, call, bytes, into_second))
}
