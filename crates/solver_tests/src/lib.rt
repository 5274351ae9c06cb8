//! Tests of proofs, of propagation and of the search over lists of clauses, each module of the crate that it is
//! named for, and `ordering_tests` of `simpler_proofs` too. The library itself is empty.
#![tactic(auto)]

#[cfg(test)]
mod cdcl_tests;
#[cfg(test)]
mod lists_by_numbers;
#[cfg(test)]
mod lrat_check_tests;
#[cfg(test)]
mod ordering_tests;
#[cfg(test)]
mod propagate_tests;
#[cfg(test)]
mod simpler_proofs_tests;
