ghost use Rattle.std.specs.Prelude.{◌≡◌, length};
ghost use Rattle.disk.specs.DiskState.{DiskState};
ghost use Rattle.builder.specs.Calls.{page as page_of, told, written};

use crate::shelf::Shelf;
use commit::Stamped;
use disk::Disk;
use faults::Cause;
use names::Name;
use names::limits::PAGE_MAX;

/// Puts what stands under the name on the shelf at the front of the buffer, and says how many bytes that is. A refusal
/// leaves the buffer as it was.
// The clause speaks of the buffer too, which `Performs` does not, and `ReadsKey` says what the disk's own read does.
pub fn show<D: Disk>(
    disk: &mut D,
    shelf: Shelf,
    name: &[u8],
    page: &mut [u8],
) -> Result<usize, Cause>
    ensures { (m : DiskState) → D.Disk.models disk.old m → (result ≡ told (page_of m shelf name.now (length page.old))) × ((page.new ≡ written (page_of m shelf name.now (length page.old)) page.old) × D.Disk.models disk.new m) }
{
    let name = Name::new(name).ok_or(Cause::Misnamed)?;
    if page.len() < PAGE_MAX {
        return Err(Cause::Narrow);
    }
    let file = Stamped::read(disk, &shelf.key(name))
        .map_err(|why| shelf.cause(why))?
        .ok_or(Cause::Unknown)?;
    let content = file.content();
    page[..content.len()].copy_from_slice(content);
    Ok(content.len())
}
