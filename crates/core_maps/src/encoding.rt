//! What is asked about.

ghost use Rattle.std.specs.Prelude.{◌≡◌};
ghost use Rattle.meaning.specs.StudyClauses.{study_clauses};
ghost use Rattle.search_logs.specs.Spent.{all_places};

use clause_form::Ground;
use outcomes::OutcomeKind;
use vocab::Study;

/// A study, the kind of its rules, and the clauses of all its axioms.
#[derive(Drop)]
pub(crate) struct Encoding<'a, K: OutcomeKind> {
    pub kind: &'a K,
    pub study: &'a Study,
    pub ground: &'a Ground,
    ghost same: { study.now.size ≡ K.size kind.now },
    ghost clauses: { ground.now ≡ study_clauses study.now.size study.now.axioms (all_places study.now) },
}
