//! Tests that go from a refutation to the text of a sharp verdict, and of the totals of studies. The library
//! itself is empty.
#![tactic(auto)]

#[cfg(test)]
mod sharp_tests;
#[cfg(test)]
mod studies_by_text;
#[cfg(test)]
mod total_tests;
