//! Verdicts on a study, and what is confirmed of them.

use lists::Items;
use meaning::{Lemma, Witnesses};
use vocab::{Places, Table};

/// What a report says of a study: a rule that satisfies its axioms; a core of axioms, by their places, with a
/// story that no rule satisfies them together and a witness for each of them; or that neither was found.
#[derive(Drop)]
pub enum Verdict {
    Possible(Table),
    Impossible {
        core: Places,
        story: Items<Lemma>,
        witnesses: Witnesses,
    },
    Undecided,
}

/// What a confirmed report says: that a rule satisfies all axioms, or that none does.
#[derive(Clone, Copy, Debug, PartialEq, Eq)]
pub enum Confirmed {
    Possible,
    Impossible,
}
