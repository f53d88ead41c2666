ghost use Rattle.std.specs.Prelude.{◌≡◌, ◌≤◌, [], ◌∷◌, ◌++◌, map, length, take, nat_le};
ghost use Rattle.names.specs.Limits.{depth_max};
ghost use Rattle.names.specs.Spelled.{spelled};
ghost use Rattle.clean.specs.Evaluate.{member};

use inline_vec::InlineVec;
use names::Name;
use names::limits::DEPTH_MAX;

/// Is the name among these?
fn is_among(targets: &[Name], name: &Name) -> bool
    ensures { result ≡ member (spelled name.now) (map spelled targets.now) }
{
    targets.contains(name)
}

/// The open targets, outermost first.
#[derive(Clone, Copy)]
pub struct Chain {
    targets: InlineVec<Name, DEPTH_MAX>,
    ghost short: { length targets.items ≤ depth_max },
}

impl Chain {
    ghost use Rattle.clean.specs.Chains.{opened};

    /// No target is open.
    pub fn new() -> Chain
        ensures { opened result ≡ [] }
    {
        Chain {
            targets: InlineVec::new(Name::filler()),
        }
    }

    /// Are as many targets open as may be?
    pub fn is_full(&self) -> bool
        ensures { result ≡ nat_le depth_max (length (opened self.now)) }
    {
        self.targets.is_full()
    }

    /// The chain with one target more. A full chain stays as it is.
    pub fn with(&self, target: Name) -> Chain
        ensures { opened result ≡ take depth_max (opened self.now ++ (spelled target ∷ [])) }
    {
        let mut longer = *self;
        let _ = longer.targets.try_push(target);
        longer
    }

    /// Is this target open?
    pub fn contains(&self, name: &Name) -> bool
        ensures { result ≡ member (spelled name.now) (opened self.now) }
    {
        is_among(self.targets.as_slice(), name)
    }
}
