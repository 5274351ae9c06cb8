//! What is said of clauses beside their literals.

/// Where a clause of a study comes from: the frame of a profile, or an instance of the axiom at a place of
/// the study.
#[derive(Clone, Copy, Debug, PartialEq, Eq)]
pub enum Origin {
    Frame(u32),
    Instance { axiom: u32, number: u64 },
}

/// How many clauses there are, and how many literals stand in them, repeats counted.
#[derive(Clone, Copy, Debug, PartialEq, Eq)]
pub struct Counts {
    pub clauses: u64,
    pub literals: u64,
}
