//! What a line of a report says.

use meaning::Reason;
use vocab::{Kind, Literal, Name};

/// What a line says. `Title` has the version of the report, 1 or 2. A number stands still at the end of
/// `u64`, and the number of a cited lemma, which is counted from 0, at the end of `u32`. `BallotsAre` tells
/// whether the rankings are the ballots of the study's size in order, and `AxiomsAre` whether the names are
/// those of the study's axioms in order. Of the names of `CoreIs` nothing is told: `read_core` reads them.
#[derive(Clone, Copy, Debug, PartialEq, Eq)]
pub enum Line {
    Title(u8),
    KindIs(Kind),
    VotersAre(u64),
    AlternativesAre(u64),
    BallotsAre(bool),
    AbsentIs(bool),
    AxiomsAre(bool),
    SaysPossible,
    SaysImpossible,
    SaysUndecided,
    LimitIs(u64),
    RuleOf(u64),
    Row(u32, u8),
    CoreIs,
    LemmasAre(u64),
    Heading(u64),
    Suppose(Literal),
    So(Literal, Reason),
    Clash(Reason),
    WithRule(Name, u64),
    WithOpen(Name, u64),
    End,
}
