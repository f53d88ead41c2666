ghost use Rattle.std.specs.Prelude.{◌≡◌, ◌≢◌, ℕ, ◌<◌, false, ◌++◌, length, slice_index, MatchOption, IfSome, IfNone};
ghost use Rattle.std.specs.Iterator.{YieldsFirst, item_count};
ghost use Rattle.names.specs.Names.{is_name};
ghost use Rattle.names.specs.Spelled.{spelled};
ghost use Rattle.script.specs.Candidates.{candidates, own, by_ending, fallback};
ghost use Rattle.script.specs.Searched.{listed, candidate, Parted, left, to_come};

use inline_vec::InlineVec;
use names::Name;
use names::limits::NAME_MAX;

/// A script that may make a page, and the stem that `%` stands for in it: the first bytes of the target's name.
#[derive(Clone, Copy)]
pub struct Candidate {
    pub script: Name,
    // A length and no slice: a candidate outlives the name that it was made from.
    stem_len: usize,
}

/// The scripts that may make the page of a target, in the order of the search: those that are still to come.
#[derive(Clone, Copy)]
pub struct Candidates {
    own: Option<Candidate>,
    ending: Option<Candidate>,
    fallback: Option<Candidate>,
}

/// The name that three pieces spell together, if it is one.
#[tactic(auto, using(crate::proofs::Stems::joined_long, crate::proofs::Stems::joined_over))]
fn join(a: &[u8], b: &[u8], c: &[u8]) -> Option<Name>
    ensures { MatchOption result (is_name (a.now ++ (b.now ++ c.now)) ≡ false) (λ n. spelled n ≡ a.now ++ (b.now ++ c.now)) }
{
    let mut bytes = InlineVec::<u8, NAME_MAX>::new(0);
    bytes.try_extend(a).ok()?;
    bytes.try_extend(b).ok()?;
    bytes.try_extend(c).ok()?;
    Name::new(bytes.as_slice())
}

/// The place of the last dot.
fn last_dot(name: &[u8]) -> Option<usize>
    ensures none { IfNone result ((k : ℕ) → k < length name.now → slice_index name.now k ≢ 46) }
    ensures last { IfSome result (λ i. (i < length name.now) × (slice_index name.now i ≡ 46)
        × ((k : ℕ) → i < k → k < length name.now → slice_index name.now k ≢ 46)) }
{
    name.iter().rposition(|b| *b == b'.')
}

/// What precedes and what follows the last dot.
#[tactic(auto, using(crate::proofs::Cuts::dotless, crate::proofs::Cuts::last_dot))]
fn cut_last(name: &[u8]) -> Option<(&[u8], &[u8])>
    ensures { Parted result name.now }
{
    let i = last_dot(name)?;
    Some((&name[..i], &name[i + 1..]))
}

/// `t.do`.
fn own_script(target: &[u8]) -> Option<Candidate>
    ensures { listed target.now result ≡ own target.now }
{
    let script = join(b"", target, b".do")?;
    Some(Candidate {
        script,
        stem_len: target.len(),
    })
}

/// `default.E.do`, where E follows the last dot.
fn ending_script(target: &[u8]) -> Option<Candidate>
    ensures { listed target.now result ≡ by_ending target.now }
{
    let (stem, ending) = cut_last(target)?;
    let script = join(b"default.", ending, b".do")?;
    Some(Candidate {
        script,
        stem_len: stem.len(),
    })
}

/// `default.do`.
#[tactic(auto, unfolding(names::specs::Names::is_name))]
fn fallback_script(target: &[u8]) -> Option<Candidate>
    ensures { listed target.now result ≡ fallback target.now }
{
    let script = Name::new(b"default.do")?;
    Some(Candidate {
        script,
        stem_len: target.len(),
    })
}

impl Candidate {
    /// The stem, which is a part of the target's name.
    pub fn stem<'a>(&self, target: &'a [u8]) -> &'a [u8]
        ensures { result.now ≡ (candidate target.now self.now).stem }
    {
        target.get(..self.stem_len).unwrap_or(target)
    }
}

impl Candidates {
    /// All candidates of a target.
    pub fn new(target: Name) -> Candidates
        ensures { to_come (spelled target) result ≡ candidates (spelled target) }
    {
        let target = target.as_bytes();
        if target.ends_with(b".do") {
            return Candidates {
                own: None,
                ending: None,
                fallback: None,
            };
        }
        Candidates {
            own: own_script(target),
            ending: ending_script(target),
            fallback: fallback_script(target),
        }
    }
}

impl Iterator for Candidates {
    type Item = Candidate;

    ghost next_gives = { YieldsFirst left };

    ghost remaining = { item_count left };

    /// The next candidate, if there is one more.
    // No `or_else`: of a closure that changes what it captures, the proof does not know what it leaves.
    fn next(&mut self) -> Option<Candidate> {
        if let Some(own) = self.own.take() {
            return Some(own);
        }
        if let Some(ending) = self.ending.take() {
            return Some(ending);
        }
        self.fallback.take()
    }
}
