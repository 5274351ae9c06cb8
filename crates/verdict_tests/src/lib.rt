//! Tests of reports and sharp texts that are judged and read whole, each module of the crate that it is named for.
//! The library itself is empty.
#![tactic(auto)]

#[cfg(test)]
mod report_files_tests;
#[cfg(test)]
mod report_tests;
#[cfg(test)]
mod symmetry;
#[cfg(test)]
mod verdict_reading_tests;
