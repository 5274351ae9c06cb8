//! The clauses of a study for chosen axioms, made piece by piece among workers.
#![tactic(auto)]

mod distinct;
mod literals;
mod making;
mod measuring;
mod merging;
mod part;
mod parts;
mod pieces;
mod sorting;

pub use making::ground;
