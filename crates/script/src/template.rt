ghost use Rattle.std.specs.Prelude.{◌≡◌, ℕ, ◌<◌, false, length, MatchOption};
ghost use Rattle.names.specs.Names.{is_name};
ghost use Rattle.names.specs.Spelled.{spelled};
ghost use Rattle.script.specs.Lines.{piece};
ghost use Rattle.script.specs.Templates.{meant};

use inline_vec::InlineVec;
use names::Name;
use names::limits::NAME_MAX;
use std::slice;

/// A text in which each `%` stands for the stem.
#[derive(Clone, Copy)]
pub(crate) struct Template<'a> {
    pub text: &'a [u8],
    pub stem: &'a [u8],
}

/// What a byte of the text stands for: the stem, or itself.
fn piece<'a>(b: &'a u8, stem: &'a [u8]) -> &'a [u8]
    ensures { result.now ≡ piece stem.now b.now }
{
    match b {
        b'%' => stem,
        _ => slice::from_ref(b),
    }
}

impl Template<'_> {
    /// The text with the stem in place of each `%`, if there is room for it.
    #[tactic(auto, using(crate::proofs::Fills::fill_more, crate::proofs::Fills::fill_over))]
    pub(crate) fn fill<const CAP: usize>(self) -> Option<InlineVec<u8, CAP>>
        ensures { MatchOption result (CAP < length (meant self.entry)) (λ v. v.items ≡ meant self.entry) }
    {
        let mut out = InlineVec::new(0);
        for b in self.text {
            out.try_extend(piece(b, self.stem)).ok()?;
        }
        Some(out)
    }

    /// The name that the filled text spells, if it is one.
    #[tactic(auto, using(names::proofs::Scan::too_long))]
    pub(crate) fn name(self) -> Option<Name>
        ensures { MatchOption result (is_name (meant self.entry) ≡ false) (λ n. spelled n ≡ meant self.entry) }
    {
        Name::new(self.fill::<NAME_MAX>()?.as_slice())
    }
}
