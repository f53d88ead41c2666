#![tactic(auto)]

ghost use Rattle.worked.specs.Worked.{Worked};

/// The worked cases hold of the definitions: names, pages, faults with their trails, and a record.
pub fn worked_cases()
    ensures { Worked }
{}
