ghost use Rattle.disk.specs.Steps.{Performs};
ghost use Rattle.commit.specs.Draws.{last_stamp, draw as draw_step};

use crate::draft::commit;
use crate::shown::shown;
use disk::{Disk, Key};
use faults::Cause;
use names::limits::STAMP_MAX;

/// The bytes of a stamp.
pub const STAMP_SIZE: usize = 4;

/// The last stamp drawn, 0 where there is none.
fn read_last<D: Disk>(disk: &mut D) -> Result<u32, Cause>
    ensures { Performs D.Disk.models disk.old disk.new result (λ m. (last_stamp m, m)) }
{
    // Nothing shown is an `Ok`, which `?` does not hand out.
    let Some(bytes) = shown(disk, &Key::Stamp)? else {
        return Ok(0);
    };
    let stamp = bytes.as_slice().as_array().ok_or(Cause::Spoiled)?;
    Ok(u32::from_le_bytes(*stamp))
}

/// Draws a stamp: the number behind the last, which is committed before it is used.
pub fn draw<D: Disk>(disk: &mut D) -> Result<u32, Cause>
    ensures { Performs D.Disk.models disk.old disk.new result draw_step }
{
    let last = read_last(disk)?;
    if last >= STAMP_MAX {
        return Err(Cause::Spent);
    }
    let next = last + 1;
    commit(disk, &Key::Stamp, &next.to_le_bytes())?;
    Ok(next)
}
