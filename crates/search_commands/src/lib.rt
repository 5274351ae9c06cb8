//! The commands over the clauses of a study: `decide`, `export`, `proof`, `sample`, `adopt` and `sharpen`.
#![tactic(auto)]

pub mod adoption;
pub mod decide;
pub mod export;
pub mod proof;
pub mod sample;
pub mod sharpening;
