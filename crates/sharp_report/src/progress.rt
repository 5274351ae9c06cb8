//! How far a checker of sharp texts is.

use crate::faults::SharpFault;
use crate::judging::SharpJudging;

/// What a checker has of the lines that it was given: what they have given, how many they are, and their
/// first fault.
#[derive(Drop)]
pub struct SharpProgress {
    pub(crate) judging: SharpJudging,
    pub lines: u32,
    pub fault: Option<SharpFault>,
}
