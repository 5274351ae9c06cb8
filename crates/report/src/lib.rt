//! Checks a report line by line.
#![tactic(auto)]

mod checker;
mod faults;
mod judging;
mod progress;
mod subject;

pub use checker::Checker;
pub use faults::ReportFault;
pub use judging::Judging;
pub use progress::Progress;
pub use report_text::print;
pub use subject::{Subject, Topic};
pub use verdicts::{Confirmed, Refusal, Verdict};
