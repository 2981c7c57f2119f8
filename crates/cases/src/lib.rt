// Worked cases, proved of the definitions.
#![tactic(auto)]

ghost use Rattle.cases.specs.Worked.{Worked};

// Does nothing: what is of use is its promise, the table of the cases.
pub fn worked()
    ensures { Worked }
{}
