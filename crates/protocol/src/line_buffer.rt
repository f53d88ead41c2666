ghost use Rattle.std.specs.Prelude.{◌≡◌, ◌≤◌, true, [], ◌∷◌, length, if◌then◌else◌, IfSome, ◌==◌};
ghost use Rattle.std.specs.Option.{option_map};
ghost use Rattle.names.specs.Limits.{line_max};
ghost use Rattle.names.specs.Names.{Bytes};
ghost use Rattle.protocol.specs.Substitutes.{newline};
ghost use Rattle.protocol.specs.InputLines.{input_lines};

use crate::substitute::NEWLINE;
use inline_vec::InlineVec;
use names::limits::LINE_MAX;

/// Whether a line is longer than a line may be.
#[derive(Clone, Copy)]
enum Extent {
    Within,
    Over,
}

/// How far a line has come.
#[derive(Clone, Copy)]
enum Progress {
    /// Its end is still to come.
    Open,
    /// Its end has come, and the next byte begins another line.
    Ended,
}

/// The lines of an input, collected byte by byte in fixed memory.
// The bytes stand beside the rest and not in an enum, so that a line's end moves none of them.
#[derive(Drop)]
pub struct LineBuffer {
    bytes: InlineVec<u8, LINE_MAX>,
    extent: Extent,
    progress: Progress,
}

impl LineBuffer {
    ghost use Rattle.protocol.specs.Collected.{grown, held, begun, is_open, to_come};

    /// An empty buffer, at the start of an input.
    #[tactic(auto, using(crate::proofs::Collects::from_start))]
    pub fn new() -> LineBuffer
        ensures { (bs : Bytes) → to_come result bs ≡ input_lines bs }
    {
        LineBuffer {
            bytes: InlineVec::new(0),
            extent: Extent::Within,
            progress: Progress::Open,
        }
    }

    // An ended line makes room for the next.
    fn begin(&mut self)
        ensures { (held self.new ≡ begun self.old) × (is_open self.new ≡ true) }
    {
        if let Progress::Ended = self.progress {
            self.bytes.clear();
            self.extent = Extent::Within;
            self.progress = Progress::Open;
        }
    }

    // One byte more of an open line.
    #[tactic(auto, using(crate::proofs::Collects::added, crate::proofs::Collects::dropped))]
    fn add(&mut self, byte: u8)
        requires { is_open self.old ≡ true }
        ensures { (held self.new ≡ grown (held self.old) byte) × (is_open self.new ≡ true) }
    {
        if let Extent::Within = self.extent {
            if self.bytes.try_push(byte).is_err() {
                self.extent = Extent::Over;
            }
        }
    }

    /// The input goes on with this byte. Whether it completes a line, which `line` then gives.
    // A bool: an over-long line is an answer of `line`, so a line handed out here were an Option of an Option.
    pub fn push(&mut self, byte: u8) -> bool
        ensures ends { result ≡ (byte == newline) }
        ensures lines { (bs : Bytes) → to_come self.old (byte ∷ bs) ≡ (if result then held self.new ∷ to_come self.new bs else to_come self.new bs) }
    {
        self.begin();
        if byte == NEWLINE {
            self.progress = Progress::Ended;
            return true;
        }
        self.add(byte);
        false
    }

    /// The line without its byte 10; `None` where it is longer than a line may be.
    pub fn line(&self) -> Option<&[u8]>
        ensures value { option_map (λ x. x.now) result ≡ held self.now }
        ensures short { IfSome result (λ x. length x.now ≤ line_max) }
    {
        match self.extent {
            Extent::Within => Some(self.bytes.as_slice()),
            Extent::Over => None,
        }
    }

    /// The input ends here. Whether that leaves a line without its end, which `line` then gives.
    pub fn ends_within_line(&self) -> bool
        ensures { to_come self.now [] ≡ (if result then held self.now ∷ [] else []) }
    {
        match (self.progress, self.extent) {
            (Progress::Open, Extent::Within) => !self.bytes.is_empty(),
            (Progress::Open, Extent::Over) => true,
            (Progress::Ended, _) => false,
        }
    }
}
