//! The story of a simpler proof.

ghost use Rattle.std.specs.Prelude.{◌≡◌, ◌<◌, ◌^◌, IfOk, IsTrue};
ghost use Rattle.meaning.specs.Stories.{is_story};
ghost use Rattle.meaning.specs.Tidy.{is_tidy};
ghost use Rattle.meaning.specs.Variables.{variable_count};
ghost use Rattle.retell.specs.TrimmedProof.{IsTrimmedProof};

use crate::stories::retell;
use clause_form::Ground;
use cnf::Derivation;
use lists::NoMemory;
use outcomes::laws::kinds_have_sizes;
use outcomes::{OutcomeKind, Setting};
use simpler_proofs::simplify;
use std::alloc::Global;
use story::Story;
use vocab::Places;

/// The number of variables of a study of a kind.
fn variables<K: OutcomeKind>(kind: &K) -> u32
    ensures value { result ≡ variable_count (K.size kind.now) }
    ensures few { result < 2 ^ 31 }
{
    kind.space().count() * kind.bits()
}

/// The story of a simpler proof than the given one, a trimmed derivation over the clauses of a core; where
/// none is found, that of the given one. The story is accepted, and each of its lemmas and steps is needed.
/// A lemma supposes the opposites of the literals of its line. What a simpler proof has of these is promised
/// by `simplify`: at most one a line, or at most two, each of which is needed, or in each line part of a given
/// line's. That the lemmas suppose no more is in no clause here, and is tested.
pub fn retell_simply<K: OutcomeKind>(
    alloc: Global,
    setting: &Setting<K>,
    core: &Places,
    clauses: &Ground,
    proof: &Derivation,
) -> Result<Story, NoMemory>
    requires { IsTrimmedProof setting.now.study.now core.now clauses.now proof.now }
    ensures accepted { IfOk result (λ story.
        IsTrue (is_story setting.now.study.now.size setting.now.study.now.axioms core.now story)) }
    ensures tidy { IfOk result (λ story.
        IsTrue (is_tidy setting.now.study.now.size setting.now.study.now.axioms core.now story)) }
{
    let _axioms = setting.study.axioms();
    kinds_have_sizes(setting.kind);
    match simplify(alloc, clauses.clauses(), variables(setting.kind), proof)? {
        Some(made) => {
            let story = retell(alloc, setting, core, clauses, &made)?;
            Ok(story)
        }
        None => {
            let story = retell(alloc, setting, core, clauses, proof)?;
            Ok(story)
        }
    }
}
