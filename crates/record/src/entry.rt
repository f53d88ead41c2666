ghost use Rattle.std.specs.Prelude.{◌≡◌, ◌^◌, ◌<◌, Some as Found};
ghost use Rattle.record.specs.Written.{head};
ghost use Rattle.record.specs.Entries.{stamp_of};
ghost use Rattle.record.specs.Codes.{code_of, Decodes};
ghost use Rattle.record.specs.Values.{value_of};
ghost use Rattle.record.specs.Words.{words};

use crate::limits::HEAD_SIZE;
use names::Name;
use std::fmt;

/// What a run found of a name: the script that it follows, a name that it needs, each with the stamp that it had, or a name that was absent.
#[derive(Clone, Copy, PartialEq, Eq, Debug)]
pub enum Kind {
    Script(u32),
    Need(u32),
    Absent,
}

/// One thing that a page was made of, with the line of the script that asked for it (0 where no line did).
#[derive(Clone, Copy, PartialEq, Eq)]
pub struct Entry {
    pub name: Name,
    pub line: u16,
    pub kind: Kind,
}

/// No kind has this byte and this stamp.
#[derive(Clone, Copy, PartialEq, Eq, Debug)]
pub struct NoKind;

// The byte of the kind and the number of the stamp, 0 where there is none.
impl From<Kind> for (u8, u32) {
    ghost from_gives = { λ k code. code ≡ code_of k };

    fn from(kind: Kind) -> (u8, u32) {
        match kind {
            Kind::Script(stamp) => (0, stamp),
            Kind::Need(stamp) => (1, stamp),
            Kind::Absent => (2, 0),
        }
    }
}

// The kind with this byte and this stamp, if there is one.
impl TryFrom<(u8, u32)> for Kind {
    type Error = NoKind;

    ghost try_from_gives = { Decodes };

    fn try_from(code: (u8, u32)) -> Result<Kind, NoKind> {
        match code {
            (0, stamp) => Ok(Kind::Script(stamp)),
            (1, stamp) => Ok(Kind::Need(stamp)),
            (2, 0) => Ok(Kind::Absent),
            _ => Err(NoKind),
        }
    }
}

impl Entry {
    // What stands before the name: kind, line and stamp.
    pub(crate) fn head(&self) -> [u8; HEAD_SIZE]
        ensures bytes { result ≡ head (value_of self.now) }
        ensures line { self.now.line < 2 ^ 16 }
        ensures stamp { stamp_of self.now.kind < 2 ^ 32 }
    {
        let (kind, stamp) = self.kind.into();
        let [l0, l1] = self.line.to_le_bytes();
        let [s0, s1, s2, s3] = stamp.to_le_bytes();
        [kind, l0, l1, s0, s1, s2, s3]
    }
}

impl fmt::Display for Entry {
    ghost output = { λ e. Found (words (value_of e)) };

    fn fmt<W: fmt::Write>(&self, f: &mut fmt::Formatter<W>) -> fmt::Result {
        let Entry { name, line, kind } = *self;
        match kind {
            Kind::Script(stamp) => write!(f, "script {name} stamp {stamp} line {line}"),
            Kind::Need(stamp) => write!(f, "need {name} stamp {stamp} line {line}"),
            Kind::Absent => write!(f, "absent {name} line {line}"),
        }
    }
}
