//! Tests of the lines of reports, read and written, each module of the crate that it is named for. The library
//! itself is empty.
#![tactic(auto)]

#[cfg(test)]
mod report_lines_tests;
#[cfg(test)]
mod report_text_tests;
#[cfg(test)]
mod studies_by_text;
