ghost use Rattle.std.specs.Prelude.{◌≡◌, ◌≤◌, length, [], ◌∷◌, ◌++◌, map, take};
ghost use Rattle.names.specs.Limits.{depth_max};

use crate::frame::Frame;
use inline_vec::InlineVec;
use names::Name;
use names::limits::DEPTH_MAX;

/// The open targets that a fault passed through, innermost first.
#[derive(Clone, Copy)]
pub struct Trail {
    frames: InlineVec<Frame, DEPTH_MAX>,
    ghost short: { length frames.items ≤ depth_max },
}

impl Trail {
    ghost use Rattle.faults.specs.Trails.{step, steps};

    /// A trail of no target.
    pub fn new() -> Trail
        ensures { steps result ≡ [] }
    {
        let none = Frame {
            target: Name::filler(),
            line: 0,
        };
        Trail {
            frames: InlineVec::new(none),
        }
    }

    /// The fault passes through one target more. A trail of eight frames stays as it is.
    pub fn push(&mut self, frame: Frame)
        ensures { steps self.new ≡ take depth_max (steps self.old ++ (step frame ∷ [])) }
    {
        let _ = self.frames.try_push(frame);
    }

    /// The frames, innermost first.
    pub fn frames(&self) -> &[Frame]
        ensures value { map step result.now ≡ steps self.now }
        ensures short { length result.now ≤ depth_max }
    {
        self.frames.as_slice()
    }
}
