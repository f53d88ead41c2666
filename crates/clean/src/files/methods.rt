ghost use Rattle.std.specs.Prelude.{◌≡◌, ℕ, cond, is_some, Some as Laid, None as Nothing, MatchResult};
ghost use Rattle.std.specs.Option.{option_map};
ghost use Rattle.names.specs.Names.{Bytes};
ghost use Rattle.names.specs.Spelled.{spelled};
ghost use Rattle.script.specs.Pages.{content};
ghost use Rattle.clean.specs.Files.{laid, with_file};

use super::Files;
use names::Name;
use script::Page;
use std::alloc::{AllocError, Global};
use std::collections::BTreeMap;

impl Files {
    /// No files.
    pub fn new(heap: Global) -> Files
        ensures { (n : Bytes) → laid result n ≡ Nothing }
    {
        Files {
            map: BTreeMap::new(heap),
        }
    }

    /// The bytes of a laid file.
    pub fn get(&self, name: &Name) -> Option<Page>
        ensures { option_map content result ≡ laid self.now (spelled name.now) }
    {
        self.map.get(name).copied()
    }

    /// Lays a file; where there is no memory for it, nothing changes.
    pub fn lay(&mut self, name: Name, bytes: Page) -> Result<(), AllocError>
        ensures { MatchResult result (λ _. (n : Bytes) → laid self.new n ≡ with_file (laid self.old) (spelled name) (Laid (content bytes)) n)
            (λ _. (n : Bytes) → laid self.new n ≡ laid self.old n) }
    {
        self.map.insert(name, bytes)?;
        Ok(())
    }

    /// Takes a laid file away, and says whether there was one.
    // A bool and no `Option<Page>`: a caller asks only whether there was one.
    pub fn take(&mut self, name: &Name) -> bool
        ensures value { result ≡ is_some (laid self.old (spelled name.now)) }
        ensures after { (n : Bytes) → laid self.new n ≡ with_file (laid self.old) (spelled name.now) Nothing n }
    {
        self.map.remove(name).is_some()
    }
}
