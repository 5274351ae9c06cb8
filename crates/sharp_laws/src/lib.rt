//! What holds of sharp texts: which are confirmed, and which of their lines is the first faulty one.
#![tactic(auto)]

pub mod laws;
