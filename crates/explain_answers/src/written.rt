//! What calls with status 0 have written holds, what is refused, and what a large limit leaves open. Each
//! law is the contract of a function that does nothing.

ghost use Rattle.explain_answers.specs.Written.{EnoughMapsAreWritten, EnoughRulesAreWritten, ExplainRefusalsAreWritten, WrittenMapsDecide, WrittenPagesHold, WrittenRulesHold};

/// What a page claims holds: it is that of the report of a right verdict, or of the text of a right sharp
/// verdict.
pub fn written_pages_hold()
    ensures { WrittenPagesHold }
{}

/// Each rule of a list satisfies the axioms, and it is known whether there are more.
pub fn written_rules_hold()
    ensures { WrittenRulesHold }
{}

/// With a limit of at least 3 to the number of variables, it is open whether there are more rules only where
/// the list of clauses is full.
pub fn enough_rules_are_written()
    ensures { EnoughRulesAreWritten }
{}

/// A map tells of each set of axioms whether some rule satisfies it.
pub fn written_maps_decide()
    ensures { WrittenMapsDecide }
{}

/// With a limit of at least 3 to the number of variables, a map has no open set.
pub fn enough_maps_are_written()
    ensures { EnoughMapsAreWritten }
{}

/// A study that is refused, and one whose clauses are, get their line.
pub fn refusals_are_written()
    ensures { ExplainRefusalsAreWritten }
{}
