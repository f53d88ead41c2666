ghost use Rattle.script.specs.Laws.{CandidatesAreSkippedForLength};

/// A law of the candidates of a name.
pub fn candidate_law()
    ensures { CandidatesAreSkippedForLength }
{}
