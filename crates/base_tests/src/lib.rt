//! Tests of the crates at the bottom, `lists`, `vocab`, `cnf` and `names`: a module for each, and one of what
//! workers share. The library itself is empty, so that each of those crates is proved once, and without its
//! tests.
#![tactic(auto)]

#[cfg(test)]
mod cnf_tests;
#[cfg(test)]
mod lists_tests;
#[cfg(test)]
mod names_tests;
#[cfg(test)]
mod sharing_tests;
#[cfg(test)]
mod vocab_tests;
