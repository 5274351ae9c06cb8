//! The decision of a study, and the reduction of a given proof.

ghost use Rattle.std.specs.Prelude.{◌≡◌, ◌<◌, ◌-◌, ◌^◌, length, IfOk, IsTrue};
ghost use Rattle.cnf.specs.Derived.{IsAccepted};
ghost use Rattle.cnf.specs.Fresh.{AreOver};
ghost use Rattle.meaning.specs.Cores.{is_core_from};
ghost use Rattle.meaning.specs.StudyClauses.{study_clauses, clauses_for};
ghost use Rattle.meaning.specs.Variables.{variable_count};
ghost use Rattle.search_logs.specs.Spent.{all_places};
ghost use Rattle.core_reduce.specs.Answers.{IsDecision, IsReduced};
ghost use Rattle.core_reduce.specs.Reducing.{IsReducing, IsFrom};

use crate::answers::{Decision, Finding, Reduced};
use crate::leaving::places_kept;
use crate::needs::focus_on;
use crate::reduction::{Reduction, search, step};
use crate::tables::rule_of;
use cdcl::Search;
use clause_form::Ground;
use cnf::Derivation;
use lists::{Items, NoMemory};
use outcomes::{OutcomeKind, laws};
use search_logs::{SearchLog, all_places};
use std::alloc::Global;
use vocab::{Places, Study};

/// The axioms that a proof needs, before any search.
fn start(
    alloc: Global,
    study: &Study,
    chosen: &Places,
    clauses: &Ground,
    proof: &Derivation,
) -> Result<Reduction, NoMemory>
    requires chosen { IsTrue (is_core_from 0 (length study.now.axioms) chosen.now) }
    requires clauses { clauses.now ≡ study_clauses study.now.size study.now.axioms chosen.now }
    requires accepted { IsAccepted (clauses_for study.now.size study.now.axioms chosen.now) proof.now }
    requires over { AreOver (variable_count study.now.size) proof.now }
    requires few { length proof.now < 2 ^ 32 - 1 }
    ensures reducing { IfOk result (IsReducing study.now) }
    ensures taken { IfOk result (λ r. IsFrom study.now chosen.now proof.now r.core) }
{
    let focus = focus_on(alloc, clauses, proof, study.axioms().len())?;
    let core = places_kept(alloc, chosen.as_slice(), focus.gone.as_slice())?;
    Ok(focus.into_reduction(core, Vec::new(alloc), Items::new(alloc)))
}

/// Reduces a refutation of the clauses of the chosen axioms, whoever found it, to a core with a witness for
/// each axiom: each axiom of the core is one of the chosen, and a hint of `proof` names a clause of it. What
/// `proof` does not need plays no part. One axiom after the other is left out, in the order of the study, and
/// a search goes over the clauses of the rest; where it spends the study's limit, the mark is open, and the
/// logs have that search.
///
/// `chosen` are places of the study that rise, and `clauses` those of these axioms. `lrat_check::check`
/// accepts `proof` over them.
pub fn reduce<K: OutcomeKind>(
    alloc: Global,
    kind: &K,
    study: &Study,
    chosen: &Places,
    clauses: Ground,
    proof: &Derivation,
) -> Result<Reduced, NoMemory>
    requires size { study.now.size ≡ K.size kind.now }
    requires chosen { IsTrue (is_core_from 0 (length study.now.axioms) chosen.now) }
    requires clauses { clauses ≡ study_clauses study.now.size study.now.axioms chosen.now }
    requires accepted { IsAccepted (clauses_for study.now.size study.now.axioms chosen.now) proof.now }
    requires over { AreOver (variable_count study.now.size) proof.now }
    requires few { length proof.now < 2 ^ 32 - 1 }
    ensures { IfOk result (IsReduced study.now chosen.now proof.now) }
{
    laws::kinds_have_sizes(kind);
    let mut reduction = start(alloc, study, chosen, &clauses, proof)?;
    while reduction.witnesses.as_slice().len() < reduction.core.as_slice().len() {
        reduction = step(alloc, kind, study, reduction)?;
    }
    let reduced = reduction.finish(alloc, study)?;
    Ok(reduced)
}

/// Decides a study over its clauses: a rule that satisfies all axioms, a core that none satisfies, or nothing
/// where the search spent its limit.
pub fn decide<K: OutcomeKind>(
    alloc: Global,
    kind: &K,
    study: &Study,
    clauses: Ground,
) -> Result<Decision, NoMemory>
    requires size { study.now.size ≡ K.size kind.now }
    requires clauses { clauses ≡ study_clauses study.now.size study.now.axioms (all_places study.now) }
    ensures { IfOk result (IsDecision study.now) }
{
    let all = all_places(alloc, study)?;
    match search(alloc, kind, study, &all, &clauses)? {
        Search::Found(bits) => {
            let table = rule_of(alloc, kind, study, &all, &bits)?;
            Ok(Decision {
                finding: Finding::Possible(table),
                logs: Items::new(alloc),
            })
        }
        Search::Refuted(lines) => {
            let Reduced { refutation, logs } = reduce(alloc, kind, study, &all, clauses, &lines)?;
            Ok(Decision {
                finding: Finding::Impossible(refutation),
                logs,
            })
        }
        Search::Spent(lines) => {
            let mut logs = Items::new(alloc);
            logs.push(SearchLog { chosen: all, lines })?;
            Ok(Decision {
                finding: Finding::Undecided,
                logs,
            })
        }
    }
}
