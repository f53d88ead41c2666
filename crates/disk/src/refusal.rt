ghost use Rattle.std.specs.Prelude.{Some};
ghost use Rattle.disk.specs.Texts.{refusal_word, count_text};

use std::fmt;

/// Why a disk refuses a call.
#[derive(Clone, Copy, PartialEq, Eq, Debug)]
pub enum Refusal {
    /// No charge is left.
    Dark,
    /// More bytes than a key can show.
    Long,
    /// The key is not used, and as many keys are as may be.
    Full,
    /// A key renamed to itself.
    Same,
    /// The key shows nothing.
    Missing,
}

impl fmt::Display for Refusal {
    ghost output = { λ why. Some (refusal_word why) };

    fn fmt<W: fmt::Write>(&self, f: &mut fmt::Formatter<W>) -> fmt::Result {
        f.pad(match self {
            Refusal::Dark => "dark",
            Refusal::Long => "long",
            Refusal::Full => "full",
            Refusal::Same => "same",
            Refusal::Missing => "none",
        })
    }
}

/// How many keys a disk takes and how many are used, with its charge.
#[derive(Clone, Copy, PartialEq, Eq, Debug)]
pub struct Count {
    pub limit: u8,
    pub used: u8,
    pub charge: u16,
}

impl fmt::Display for Count {
    ghost output = { λ count. Some (count_text count) };

    fn fmt<W: fmt::Write>(&self, f: &mut fmt::Formatter<W>) -> fmt::Result {
        write!(
            f,
            "{} of {} used, charge {}",
            self.used, self.limit, self.charge
        )
    }
}
