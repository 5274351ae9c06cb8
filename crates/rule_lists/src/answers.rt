//! Lists of rules.

use lists::Items;
use vocab::Table;

/// How a list of rules ends: these are all; there are more than were asked for; or a search spent its limit, or
/// its clauses pass a limit of lists, so that it is not known whether there are more.
#[derive(Clone, Copy, Debug, PartialEq, Eq)]
pub enum Ending {
    Whole,
    More,
    Open,
}

/// Rules that satisfy the axioms of a study, in the lexicographic order of their tables.
#[derive(Drop)]
pub struct RuleList {
    pub tables: Items<Table>,
    pub ending: Ending,
}
