ghost use Rattle.std.specs.Prelude.{◌≡◌, [], ◌∷◌};
ghost use Rattle.names.specs.Spelled.{spelled};
ghost use Rattle.faults.specs.Trails.{steps};
ghost use Rattle.faults.specs.Causes.{extended};
ghost use Rattle.faults.specs.declared.cause.Cause.TheVariants.{Script as FromScript};

use crate::cause::Cause;
use crate::frame::Frame;
pub use crate::script_fault::ScriptFault;
use crate::trail::Trail;
use names::Name;

/// Why a call is refused, and the open targets that the fault passed through, innermost first. `pass` gives only a
/// script's faults a trail.
#[derive(Clone, Copy)]
pub struct Fault {
    pub cause: Cause,
    pub trail: Trail,
}

/// Says that a fault stands in the place that the caller lent for it.
#[derive(Clone, Copy, PartialEq, Eq, Debug)]
pub struct Failed;

impl Fault {
    /// A fault with no trail.
    pub fn new(cause: Cause) -> Fault
        ensures { (result.cause ≡ cause) × (steps result.trail ≡ []) }
    {
        Fault {
            cause,
            trail: Trail::new(),
        }
    }

    /// The fault passes through a line of an open target.
    pub fn pass(&mut self, target: Name, line: u16)
        ensures { (self.new.cause ≡ self.old.cause)
            × (steps self.new.trail ≡ extended self.old.cause (steps self.old.trail) (spelled target) line) }
    {
        if let Cause::Script(_) = self.cause {
            self.trail.push(Frame { target, line });
        }
    }

    /// A script is at fault, at a line of an open target.
    pub fn at(fault: ScriptFault, target: Name, line: u16) -> Fault
        ensures { (result.cause ≡ FromScript fault) × (steps result.trail ≡ (spelled target, line) ∷ []) }
    {
        let mut whole = Fault::new(fault.into());
        whole.pass(target, line);
        whole
    }
}
