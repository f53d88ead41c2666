ghost use Rattle.std.specs.Prelude.{◌≡◌};
ghost use Rattle.faults.specs.Numbers.{number};

/// Why a script does not make its page, by its number.
#[derive(Clone, Copy, PartialEq, Eq, Debug)]
pub enum ScriptFault {
    /// A line begins with no word of scripts.
    UnknownWord = 11,
    /// The rest of a line is to be a name, and is none.
    NotAName = 12,
    /// `need` of an absent name.
    Absent = 13,
    /// `ifcreate` of a name that is there.
    Present = 14,
    /// `copy` of a name that the run has not needed.
    NotNeeded = 15,
    /// The needed target is open already.
    Cycle = 16,
    /// As many targets are open as may be.
    TooDeep = 17,
    /// The page would pass its limit.
    PageTooLong = 18,
    /// The run would make one entry more than a record holds.
    TooManyEntries = 19,
}

impl ScriptFault {
    /// The number by which a refusal is printed.
    // A method and no `From`: `u8::from(fault)` would not name which number is meant.
    pub fn number(self) -> u8
        ensures { result ≡ number self }
    {
        self as u8
    }
}
