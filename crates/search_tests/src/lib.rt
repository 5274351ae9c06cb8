//! Tests of what is searched for of studies and told of their refutations, each module of the crate that it is
//! named for. The library itself is empty.
#![tactic(auto)]

#[cfg(test)]
mod adopt_tests;
#[cfg(test)]
mod core_reduce_tests;
#[cfg(test)]
mod retell_tests;
#[cfg(test)]
mod studies_by_text;
