//! What holds of all bytes.

ghost use Rattle.study.specs.Laws.{ArePlain, AreWhole, HaveBallots, ListingsHaveOneAnswer};

/// Bytes have at most one answer, want of memory aside. So each refusal comes exactly where it is the first
/// that holds.
pub fn studies_have_one_answer()
    ensures { ListingsHaveOneAnswer }
{}

/// Each study that bytes give is one that the bench takes, at a size; its axioms have names, at most 40.
pub fn studies_are_whole()
    ensures { AreWhole }
{}

/// Each study that bytes give has the ballots of their document: the rankings that it lists, or all, and
/// absent voters where it says so.
pub fn studies_have_ballots()
    ensures { HaveBallots }
{}

/// Without the keys `ballots` and `absent` a study has the size of its numbers, or is refused as they are.
pub fn plain_studies_have_plain_sizes()
    ensures { ArePlain }
{}
