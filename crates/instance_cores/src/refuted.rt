//! What is reduced among instances.

ghost use Rattle.retell.specs.TrimmedProof.{IsTrimmedProof};
ghost use Rattle.sharp_verdicts.specs.Totals.{IsWithinTotal};

use core_reduce::Refutation;
use outcomes::{OutcomeKind, Setting};

/// A study beside the kind of its rules, and a trimmed refutation of the clauses of a core of it. The clauses
/// of all its instances together are within the limits of a list of clauses.
#[derive(Drop)]
pub struct RefutedStudy<'a, K: OutcomeKind> {
    pub setting: &'a Setting<'a, K>,
    pub refutation: &'a Refutation,
    pub ghost total: { IsWithinTotal setting.now.study.now },
    pub ghost trimmed: { IsTrimmedProof setting.now.study.now
        refutation.now.core refutation.now.clauses refutation.now.proof },
}
