//! Tests of devices, of work among a crew and of texts that are poured, each module of the crate that it is
//! named for. The library itself is empty.
#![tactic(auto)]

#[cfg(test)]
mod crew_tests;
#[cfg(test)]
mod edge_tests;
#[cfg(test)]
mod texts_tests;
