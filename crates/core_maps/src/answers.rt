//! Maps of the axioms of a study.

use axiom_sets::AxiomMap;
use vocab::Places;

/// How a map ends: it covers each set of the study's axioms; or the search for a set that it does not cover
/// was cut short, after 1,000,000 conflicts or at a limit of lists of clauses.
#[derive(Clone, Copy, Debug, PartialEq, Eq)]
pub enum Ending {
    Whole,
    Cut,
}

/// The sets of a study's axioms by what is known of them, and whether the map covers all.
#[derive(Drop)]
pub struct CoreMap {
    pub sets: AxiomMap,
    pub ending: Ending,
}

/// What was found of a set of axioms: a part of it that no rule satisfies; all axioms of a rule that satisfies
/// it; or a part of it over which a search spent the study's limit.
#[derive(Drop)]
pub enum Asked {
    Impossible(Places),
    Possible(Places),
    Open(Places),
}
