//! The places of the grammar of reports.

use verdicts::Confirmed;

/// A place of the grammar, by the line that is wanted next. Where all of the verdict is read, the place tells
/// what it claims, if it claims something.
#[derive(Clone, Copy, Debug, PartialEq, Eq)]
pub enum Place {
    AtTitle,
    AtKind,
    AtVoters,
    AtAlternatives,
    AtBallots,
    AtAbsent,
    AtAxioms,
    AtVerdict,
    AtLimit,
    AtRule,
    AtRow,
    AtCore,
    AtLemmas,
    AtLemma,
    AtSuppose,
    AtStep,
    AtWitness,
    AtWitnessRow,
    AtEnd(Option<Confirmed>),
    AtNothing(Option<Confirmed>),
}
