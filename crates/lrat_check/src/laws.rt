//! What holds of the trimmed derivation. Each law is the contract of a function that does nothing.

ghost use Rattle.lrat_check.specs.Laws.{IsTrimRight, HasNoNewClause, HasNoPairs, CitesNoNewInput};

/// The trimmed derivation of an accepted one has the form of a trimmed one.
pub fn trimmed_has_form()
    ensures { IsTrimRight }
{}

/// What holds of each added clause holds of each clause of the trimmed derivation.
pub fn trimmed_has_no_new_clause()
    ensures { HasNoNewClause }
{}

/// No line of a trimmed derivation adds a clause with a complementary pair.
pub fn trimmed_has_no_pairs()
    ensures { HasNoPairs }
{}

/// An input clause that the trimmed derivation cites is cited by the given one.
pub fn trimmed_cites_no_new_input()
    ensures { CitesNoNewInput }
{}
