ghost use Rattle.clean.specs.Laws.{SkippedLinesDoNothing, EvaluationIsLocal, PagesAreMadeAlone, PagesAreShort, RunsMakeFewEntries, TrailsEndInTheTarget, CausesAreClean};

/// The laws of clean evaluation.
pub fn laws()
    ensures skipped { SkippedLinesDoNothing }
    ensures local { EvaluationIsLocal }
    ensures alone { PagesAreMadeAlone }
    ensures short { PagesAreShort }
    ensures few { RunsMakeFewEntries }
    ensures trails { TrailsEndInTheTarget }
    ensures causes { CausesAreClean }
{}
