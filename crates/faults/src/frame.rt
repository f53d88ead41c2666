ghost use Rattle.std.specs.Prelude.{Some as Printed};
ghost use Rattle.faults.specs.Trails.{frame_text, step};

use names::Name;
use std::fmt;

/// An open target, and the line of its script at which a fault came.
#[derive(Clone, Copy)]
pub struct Frame {
    pub target: Name,
    pub line: u16,
}

/// The target and the line, with a colon between.
impl fmt::Display for Frame {
    ghost output = { λ f. Printed (frame_text (step f)) };

    fn fmt<W: fmt::Write>(&self, f: &mut fmt::Formatter<W>) -> fmt::Result {
        let target = self.target;
        let line = self.line;
        write!(f, "{target}:{line}")
    }
}
