//! Tests of the lines of all answers and of the lines of sharp texts, each module of the crate that it is named
//! for. The library itself is empty.
#![tactic(auto)]

#[cfg(test)]
mod answer_text_tests;
#[cfg(test)]
mod sharp_report_tests;
