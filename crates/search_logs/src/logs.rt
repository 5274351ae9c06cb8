//! What is kept of a search.

use cnf::Derivation;
use lists::Items;
use vocab::Places;

/// A search that spent its limit: the places in the study of the axioms over whose clauses it went, rising,
/// and the clauses that it learned, each with its hints.
#[derive(Drop)]
pub struct SearchLog {
    pub chosen: Places,
    pub lines: Derivation,
}

/// The searches that spent their limit, in the order in which they were made.
pub type Logs = Items<SearchLog>;
