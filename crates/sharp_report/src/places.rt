//! The places of the grammar of sharp texts.

/// A place of the grammar, by the line that is wanted next. `AtReport` stands for all lines from the kind of
/// rule up to the last lemma, which are those of a report.
#[derive(Clone, Copy, Debug, PartialEq, Eq)]
pub enum SharpPlace {
    AtSharp,
    AtReport,
    AtInstances,
    AtNeed,
    AtNeedRow,
    AtSharpEnd,
    AtSharpNothing,
}
