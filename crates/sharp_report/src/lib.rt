//! Checks a sharp text line by line.
#![tactic(auto)]

mod checker;
mod citing;
mod failing;
mod faults;
mod judging;
mod lines;
mod places;
mod progress;

pub use checker::SharpChecker;
pub use faults::SharpFault;
pub use judging::SharpJudging;
pub use lines::SharpLine;
pub use places::SharpPlace;
pub use progress::SharpProgress;
pub use report::Subject;
pub use sharp_verdicts::SharpRefusal;
