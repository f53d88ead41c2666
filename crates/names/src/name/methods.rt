ghost use Rattle.std.specs.Prelude.{◌≡◌, true, false, Some as Found, codes, MatchOption};
ghost use Rattle.names.specs.Names.{is_name as lawful};
ghost use Rattle.names.specs.Spelled.{spelled};
ghost use Rattle.names.specs.Order.{same_name, name_order, names_ordered};
ghost use Rattle.std.specs.Cmp.{partial_equiv_from_equiv, on_po};
ghost use Rattle.std.specs.Cmp.Lexicographic.{on_texts_equal, texts_po, texts_ties};
ghost use Rattle.std.proofs.Common.{refl};

use super::Name;
use crate::judge::is_name;
use crate::limits::NAME_MAX;
use std::cmp::Ordering;
use std::{fmt, str};

impl Name {
    /// The name `x`, for a place that holds no name of its own yet.
    pub fn filler() -> Name
        ensures { spelled result ≡ codes "x" }
    {
        let mut bytes = [0; NAME_MAX];
        bytes[0] = b'x';
        Name { bytes, len: 1 }
    }

    /// The name that the bytes spell, if they are one.
    pub fn new(bytes: &[u8]) -> Option<Name>
        ensures { MatchOption result (lawful bytes.now ≡ false) (λ n. spelled n ≡ bytes.now) }
    {
        if !is_name(bytes) {
            return None;
        }
        let len = bytes.len();
        let mut front = [0; NAME_MAX];
        front[0..len].copy_from_slice(bytes);
        Some(Name {
            bytes: front,
            len: len as u8,
        })
    }

    /// The bytes of the name.
    pub fn as_bytes(&self) -> &[u8]
        ensures value { result.now ≡ spelled self.now }
        ensures lawful { lawful result.now ≡ true }
    {
        &self.bytes[0..self.len as usize]
    }
}

impl PartialEq for Name {
    ghost eq = { λ a b. same_name a b };

    ghost laws = { partial_equiv_from_equiv (on_texts_equal spelled) };

    fn eq(&self, other: &Name) -> bool {
        self.as_bytes() == other.as_bytes()
    }
}

impl Eq for Name {
    ghost laws = { on_texts_equal spelled };
}

impl PartialOrd for Name {
    ghost partial_cmp = { λ a b. Found (name_order a b) };

    ghost laws = { on_po spelled texts_po };

    fn partial_cmp(&self, other: &Name) -> Option<Ordering> {
        Some(self.cmp(other))
    }
}

impl Ord for Name {
    ghost cmp = { λ a b. name_order a b };

    ghost total = { names_ordered };

    ghost matches_partial_cmp = { λ a b. refl };

    ghost matches_eq = { λ a b. texts_ties (spelled a) (spelled b) };

    fn cmp(&self, other: &Name) -> Ordering {
        self.as_bytes().cmp(&other.as_bytes())
    }
}

impl fmt::Display for Name {
    ghost output = { λ n. Found (spelled n) };

    fn fmt<W: fmt::Write>(&self, f: &mut fmt::Formatter<W>) -> fmt::Result {
        match str::from_utf8(self.as_bytes()) {
            Ok(text) => f.pad(text),
            Err(_) => Err(fmt::Error),
        }
    }
}
