ghost use Rattle.std.specs.Prelude.{◌≡◌, is_some};
ghost use Rattle.names.specs.Spelled.{spelled};
ghost use Rattle.script.specs.Candidates.{candidates as all_candidates};
ghost use Rattle.clean.specs.Files.{laid};
ghost use Rattle.clean.specs.Status.{status, any_laid};
ghost use Rattle.clean.specs.Told.{told};

use crate::files::Files;
use names::Name;
use script::{Candidates, Page};

/// What a name is.
#[derive(Clone, Copy)]
pub enum Status {
    Absent,
    Source(Page),
    Target,
}

/// Is a script laid that makes this page?
fn has_script(files: &Files, name: &Name) -> bool
    ensures { result ≡ any_laid (laid files.now) (all_candidates (spelled name.now)) }
{
    Candidates::new(*name).any(
        |candidate| -> bool
            ensures { result ≡ is_some (laid files.entry.now (spelled candidate.script)) }
        { files.get(&candidate.script).is_some() },
    )
}

impl Status {
    /// What a name is among the laid files.
    pub fn of(files: &Files, name: &Name) -> Status
        ensures { told result ≡ status (laid files.now) (spelled name.now) }
    {
        if has_script(files, name) {
            return Status::Target;
        }
        // No `map_or`: tried, and what it makes of the file did not prove.
        match files.get(name) {
            Some(bytes) => Status::Source(bytes),
            None => Status::Absent,
        }
    }
}
