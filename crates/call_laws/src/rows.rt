//! What calls come to that refuse, that find nothing, and that no device disturbs. Each law is the contract
//! of a function that does nothing.

ghost use Rattle.call_laws.specs.Rows.{OpenCallsHaveSpent, QuietCallsHaveRows, RefusalsAreWritten, RefutationsAreAnswered};

/// A study that is refused, and one whose clauses are, get their line of each command that asks for them;
/// and `adopt` refuses a proof by the line of `lrat`.
pub fn refusals_are_written()
    ensures { RefusalsAreWritten }
{}

/// Each row of `lrat` is what is answered where it applies; an accepted proof is confirmed.
pub fn refutations_are_answered()
    ensures { RefutationsAreAnswered }
{}

/// Where a call ends with status 4, a search over all axioms spent the limit, and the text says that nothing
/// was found.
pub fn open_calls_have_spent()
    ensures { OpenCallsHaveSpent }
{}

/// Where no fault is counted, the text of a row was written, or memory was wanting.
pub fn quiet_calls_have_rows()
    ensures { QuietCallsHaveRows }
{}
