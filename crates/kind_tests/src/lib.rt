//! Tests of kinds of outcomes and of sentences under a rule, each module of the crate that it is named for. The
//! library itself is empty.
#![tactic(auto)]

#[cfg(test)]
mod choice_sets_tests;
#[cfg(test)]
mod closing_tests;
#[cfg(test)]
mod kind_checks;
#[cfg(test)]
mod outcomes_tests;
#[cfg(test)]
mod worlds_tests;
