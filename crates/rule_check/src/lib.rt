//! Whether a rule satisfies axioms, and which it fails first, with the instances among workers.
#![tactic(auto)]

mod blocks;
mod check;
mod pieces;
mod trials;

pub use check::check_rule;
