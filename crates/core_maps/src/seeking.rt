//! A search over the clauses of a set of axioms.

ghost use Rattle.std.specs.Prelude.{◌≡◌, ◌<◌, ◌-◌, ◌^◌, length, IfOk, IsTrue};
ghost use Rattle.cnf.specs.Derived.{IsAccepted};
ghost use Rattle.cnf.specs.Fresh.{AreOver};
ghost use Rattle.meaning.specs.StudyClauses.{study_clauses, clauses_for};
ghost use Rattle.meaning.specs.Variables.{variable_count};
ghost use Rattle.axiom_sets.specs.Sets.{is_set};
ghost use Rattle.core_maps.specs.Asking.{IsCoreOf, IsSought};

use crate::encoding::Encoding;
use crate::parts::clauses_of;
use crate::passing::all_passed;
use cdcl::Search;
use clause_form::Ground;
use cnf::Derivation;
use core_reduce::{Reduced, Refutation, reduce, search};
use lists::NoMemory;
use outcomes::OutcomeKind;
use std::alloc::Global;
use vocab::Places;

/// What a search came to: all axioms of a rule that satisfies the set; a core of it; or nothing, where it spent
/// its limit.
#[derive(Drop)]
pub(crate) enum Sought {
    Rule(Places),
    Core(Places),
    Spent,
}

/// A minimal core of a set whose clauses are refuted.
fn core_of<K: OutcomeKind>(
    alloc: Global,
    whole: &Encoding<K>,
    set: &Places,
    clauses: Ground,
    lines: &Derivation,
) -> Result<Places, NoMemory>
    requires set { IsTrue (is_set (length whole.now.study.now.axioms) set.now) }
    requires clauses { clauses ≡ study_clauses whole.now.study.now.size whole.now.study.now.axioms set.now }
    requires accepted { IsAccepted
        (clauses_for whole.now.study.now.size whole.now.study.now.axioms set.now) lines.now }
    requires over { AreOver (variable_count whole.now.study.now.size) lines.now }
    requires few { length lines.now < 2 ^ 32 - 1 }
    ensures { IfOk result (IsCoreOf whole.now.study.now set.now) }
{
    let _axioms = whole.study.axioms();
    let Reduced {
        refutation,
        logs: _,
    } = reduce(alloc, whole.kind, whole.study, set, clauses, lines)?;
    let Refutation {
        core,
        clauses: _,
        proof: _,
        witnesses: _,
    } = refutation;
    Ok(core)
}

/// Searches over the clauses of a set.
pub(crate) fn seek<K: OutcomeKind>(
    alloc: Global,
    whole: &Encoding<K>,
    set: &Places,
) -> Result<Sought, NoMemory>
    requires set { IsTrue (is_set (length whole.now.study.now.axioms) set.now) }
    ensures { IfOk result (IsSought whole.now.study.now set.now) }
{
    let clauses = clauses_of(alloc, whole.study, whole.ground, set)?;
    match search(alloc, whole.kind, whole.study, set, &clauses)? {
        Search::Found(bits) => {
            let all = all_passed(alloc, whole.study, whole.ground, set, &bits)?;
            Ok(Sought::Rule(all))
        }
        Search::Refuted(lines) => {
            let core = core_of(alloc, whole, set, clauses, &lines)?;
            Ok(Sought::Core(core))
        }
        Search::Spent(_) => Ok(Sought::Spent),
    }
}
