//! What sharpening comes to.

use crate::instances::Instances;
use lists::Items;
use meaning::{Lemma, Witnesses};
use search_logs::Logs;
use vocab::Places;

/// A story in which no instance can be left out: the places of the axioms that it cites; the story; the
/// instances that it cites; a mark for each of them. `derived` lists the instances that are the axioms of
/// the study over which it was searched, and `logs` are of the searches there that spent their limit.
#[derive(Drop)]
pub struct Sharp {
    pub core: Places,
    pub story: Items<Lemma>,
    pub instances: Instances,
    pub marks: Witnesses,
    pub derived: Instances,
    pub logs: Logs,
}
