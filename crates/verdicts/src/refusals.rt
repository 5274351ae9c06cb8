//! Why a line of a report is refused.

use vocab::Name;

/// Why a line of a report is refused. `Form`: it is not a line that the grammar has there. `StudyDiffers`: it
/// says another study. `Undecided`: the report claims nothing. `Core`: the core is no list of distinct axioms
/// in the order of the study, or a witness is not that of the next core axiom. `Row`: it does not say how
/// many rows there are, or is not the row of the next profile. `Fails`: the table does not satisfy the axiom
/// of this name, at this instance first. `NotInCore` to `Supposes` are the faults of stories. `OpenMark`: an
/// open mark has another limit than the study.
#[derive(Clone, Copy, Debug, PartialEq, Eq)]
pub enum Refusal {
    Form,
    StudyDiffers,
    Undecided,
    Core,
    Row,
    Fails { axiom: Name, instance: u64 },
    NotInCore,
    Later,
    NotForced,
    Known,
    Supposes,
    OpenMark,
}
