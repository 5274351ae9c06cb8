//! What a story is told by.

ghost use Rattle.std.specs.Prelude.{◌≡◌, IsTrue};
ghost use Rattle.std.specs.List.{list_all};
ghost use Rattle.vocab.specs.Study.{is_sentence};
ghost use Rattle.retell.specs.TrimmedProof.{IsTrimmedProof};

use clause_form::Ground;
use cnf::Derivation;
use outcomes::OutcomeKind;
use vocab::{Places, Study};

/// A trimmed proof over the clauses of a core of a study, which a story tells.
#[derive(Drop)]
pub(crate) struct Teller<'a, K: OutcomeKind> {
    pub(crate) kind: &'a K,
    pub(crate) study: &'a Study,
    pub(crate) core: &'a Places,
    pub(crate) clauses: &'a Ground,
    pub(crate) proof: &'a Derivation,
    pub ghost size: { study.now.size ≡ K.size kind.now },
    pub ghost sentences: { IsTrue (list_all (is_sentence study.now.size) study.now.axioms) },
    pub ghost trimmed: { IsTrimmedProof study.now core.now clauses.now proof.now },
}
