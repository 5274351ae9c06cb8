//! What a call has written holds, and what calls come to that refuse, that find nothing, and that no device
//! disturbs: for the commands of which the laws of the table of answers speak row by row, the same of calls.
#![tactic(auto)]

pub mod laws;
pub mod rows;
