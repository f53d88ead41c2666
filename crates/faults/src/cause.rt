ghost use Rattle.std.specs.Prelude.{◌≡◌};
ghost use Rattle.faults.specs.Causes.{number};
ghost use Rattle.faults.specs.declared.cause.Cause.TheVariants.{Disk as FromDisk, Script as FromScript};

use crate::script_fault::ScriptFault;
use disk::Refusal;

/// Why a call is refused.
#[derive(Clone, Copy, PartialEq, Eq, Debug)]
pub enum Cause {
    /// The bytes given are no name.
    Misnamed,
    /// More bytes are laid than a file has.
    Oversize,
    /// Take: nothing is laid. Show: nothing is there. A page: the name is absent.
    Unknown,
    /// The name is a source: it is laid, and no script makes it.
    Plain,
    /// The disk said so.
    Disk(Refusal),
    /// The last stamp has been drawn.
    Spent,
    /// A laid file or the stamp key was read, and has no stamp.
    Spoiled,
    /// A page is shown into fewer bytes than a page may have.
    Narrow,
    /// A line has another form.
    Garbled,
    /// A script is at fault.
    Script(ScriptFault),
}

impl Cause {
    /// The number by which a refusal is printed. No call passes on another word of the disk than dark and full; those
    /// have 0.
    // A method and no `From`: `u8::from(cause)` would not name which number is meant.
    pub fn number(self) -> u8
        ensures { result ≡ number self }
    {
        match self {
            Cause::Misnamed => 1,
            Cause::Oversize => 2,
            Cause::Unknown => 3,
            Cause::Plain => 4,
            Cause::Disk(Refusal::Dark) => 5,
            Cause::Disk(Refusal::Full) => 6,
            Cause::Disk(_) => 0,
            Cause::Spent => 7,
            Cause::Spoiled => 8,
            Cause::Narrow => 9,
            Cause::Garbled => 10,
            Cause::Script(fault) => fault.number(),
        }
    }
}

/// The disk's own word is passed on.
impl From<Refusal> for Cause {
    ghost from_gives = { λ why c. c ≡ FromDisk why };

    fn from(why: Refusal) -> Cause {
        Cause::Disk(why)
    }
}

impl From<ScriptFault> for Cause {
    ghost from_gives = { λ why c. c ≡ FromScript why };

    fn from(why: ScriptFault) -> Cause {
        Cause::Script(why)
    }
}
