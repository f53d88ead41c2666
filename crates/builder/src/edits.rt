ghost use Rattle.disk.specs.Steps.{Performs};
ghost use Rattle.builder.specs.Calls.{lay as lay_step, take as take_step};

use commit::{Stamped, commit, draw};
use disk::{Disk, Key, Refusal};
use faults::Cause;
use names::Name;

/// Lays the bytes under the name, with a stamp of their own.
pub fn lay<D: Disk>(disk: &mut D, name: &[u8], bytes: &[u8]) -> Result<(), Cause>
    ensures { Performs D.Disk.models disk.old disk.new result (λ m. lay_step m name.now bytes.now) }
{
    let name = Name::new(name).ok_or(Cause::Misnamed)?;
    let mut file = Stamped::new(bytes).ok_or(Cause::Oversize)?;
    file.set_stamp(draw(disk)?);
    commit(disk, &Key::Laid(name), file.as_bytes())?;
    Ok(())
}

/// Takes the file away that is laid under the name.
pub fn take<D: Disk>(disk: &mut D, name: &[u8]) -> Result<(), Cause>
    ensures { Performs D.Disk.models disk.old disk.new result (λ m. take_step m name.now) }
{
    let name = Name::new(name).ok_or(Cause::Misnamed)?;
    disk.remove(&Key::Laid(name)).map_err(|why| match why {
        Refusal::Missing => Cause::Unknown,
        why => Cause::Disk(why),
    })?;
    disk.settle()?;
    Ok(())
}
