//! The instances that a refutation names, and its reduction over the study of these.
#![tactic(auto)]

mod citing;
mod reducing;
mod refuted;

pub use citing::instances_cited;
pub use reducing::reduce_instances;
pub use refuted::RefutedStudy;
