//! Simpler proofs of what a given one proves: by failed literals, so that each clause has at most one literal;
//! or by failed literals under one assumption, so that each has at most two; or with shorter clauses.
#![tactic(auto)]

mod failed_literals;
mod formula;
mod leaving_out;
mod made;
mod needed;
mod ordering;
mod paired;
mod pairs;
mod reasons;
mod rebuilding;
mod search;
mod simplifying;
mod vivification;

pub use failed_literals::by_failed_literals;
pub use ordering::ordered;
pub use simplifying::simplify;
pub use vivification::vivify;
