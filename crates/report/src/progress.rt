//! How far a checker is.

use crate::faults::ReportFault;
use crate::judging::Judging;

/// What a checker has of the lines that it was given: what they have given, how many they are, and their
/// first fault.
#[derive(Drop)]
pub struct Progress {
    pub(crate) judging: Judging,
    pub lines: u32,
    pub fault: Option<ReportFault>,
}
