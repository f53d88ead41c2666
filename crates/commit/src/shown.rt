ghost use Rattle.disk.specs.DiskState.{DiskState};
ghost use Rattle.disk.specs.Keys.{key_of};
ghost use Rattle.commit.specs.Stamped.{ShowsAt};

use disk::{Disk, Key, Refusal};
use inline_vec::InlineVec;
use names::limits::BLOCK_MAX;

/// What the key shows.
pub(crate) fn shown<D: Disk>(
    disk: &mut D,
    key: &Key,
) -> Result<Option<InlineVec<u8, BLOCK_MAX>>, Refusal>
    ensures { ShowsAt D.Disk.models disk.old disk.new (key_of key.now) result }
{
    let mut cells = [0; BLOCK_MAX];
    // Nothing shown is an `Ok`, which `?` does not hand out.
    let Some(len) = disk.read(key, &mut cells)? else {
        return Ok(None);
    };
    Ok(InlineVec::from_array(cells, len))
}
