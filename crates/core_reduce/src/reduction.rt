//! The reduction of a refutation to a core.

ghost use Rattle.std.specs.Prelude.{◌≡◌, ◌<◌, ◌≤◌, ◌-◌, ◌^◌, length, IfOk, IsTrue};
ghost use Rattle.std.specs.List.{AllByRecursion};
ghost use Rattle.cnf.specs.Derived.{IsAccepted};
ghost use Rattle.cnf.specs.Fresh.{AreOver, IsSpent};
ghost use Rattle.cdcl.specs.Answer.{IsSearchAnswer};
ghost use Rattle.meaning.specs.StudyClauses.{study_clauses, clauses_for};
ghost use Rattle.meaning.specs.Truth.{satisfies};
ghost use Rattle.meaning.specs.Variables.{variable_count};
ghost use Rattle.clause_form.specs.Sources.{clauses_in};
ghost use Rattle.search_logs.specs.Spent.{IsSpentLog};
ghost use Rattle.core_reduce.specs.Answers.{IsRefutation};
ghost use Rattle.core_reduce.specs.Reducing.{others, next_open, IsReducing, IsNext};

use crate::answers::{Reduced, Refutation};
use crate::leaving::{leave_out, marks_kept, places_kept};
use crate::needs::focus_on;
use crate::rests::rest_of;
use crate::tables::rule_of;
use cdcl::{Search, solve};
use clause_form::Ground;
use cnf::Derivation;
use lists::{Items, NoMemory};
use meaning::{Witness, Witnesses};
use outcomes::OutcomeKind;
use search_logs::{Logs, SearchLog};
use std::alloc::Global;
use vocab::{Places, Study, Table};

/// A core that is being reduced: its clauses, a proof over them, the witnesses of its first axioms, and the
/// searches that spent their limit.
pub struct Reduction {
    pub core: Places,
    pub clauses: Ground,
    pub proof: Derivation,
    pub witnesses: Vec<Witness>,
    pub logs: Logs,
}

/// Written out, so that letting go of a reduction is one call.
impl Drop for Reduction {
    fn drop(self) {
        let Reduction {
            core: _,
            clauses: _,
            proof: _,
            witnesses: _,
            logs: _,
        } = self;
    }
}

/// The number of variables of a study of a kind.
pub fn variables<K: OutcomeKind>(kind: &K) -> u32
    ensures value { result ≡ variable_count (K.size kind.now) }
    ensures few { result < 2 ^ 31 }
{
    kind.space().count() * kind.bits()
}

/// A search over the clauses of the chosen axioms.
pub fn search<K: OutcomeKind>(
    alloc: Global,
    kind: &K,
    study: &Study,
    chosen: &Places,
    clauses: &Ground,
) -> Result<Search, NoMemory>
    requires size { study.now.size ≡ K.size kind.now }
    requires clauses { clauses.now ≡ study_clauses study.now.size study.now.axioms chosen.now }
    ensures { IfOk result
        (IsSearchAnswer (clauses_for study.now.size study.now.axioms chosen.now)
        (variable_count study.now.size) study.now.conflicts) }
{
    let _chosen = chosen;
    let _axioms = study.axioms();
    outcomes::laws::kinds_have_sizes(kind);
    solve(alloc, clauses.clauses(), variables(kind), study.conflicts())
}

/// The first axiom of the core has a rule as its witness.
fn with_rule(study: &Study, mut reduction: Reduction, table: Table) -> Result<Reduction, NoMemory>
    requires reducing { IsReducing study.now reduction }
    requires open { length reduction.witnesses.items < length reduction.core }
    requires table { IsTrue
        (satisfies study.now.size study.now.axioms (others (next_open reduction) reduction.core) table) }
    ensures { IfOk result (IsNext study.now reduction) }
{
    let _study = study;
    reduction.witnesses.push(Witness::Rule(table))?;
    Ok(reduction)
}

/// The first axiom of the core has an open mark, after a search without it that spent its limit.
fn with_mark(
    study: &Study,
    mut reduction: Reduction,
    rest: Places,
    lines: Derivation,
) -> Result<Reduction, NoMemory>
    requires reducing { IsReducing study.now reduction }
    requires open { length reduction.witnesses.items < length reduction.core }
    requires rest { rest ≡ others (next_open reduction) reduction.core }
    requires spent { IsSpent (variable_count study.now.size)
        (clauses_for study.now.size study.now.axioms rest) study.now.conflicts lines }
    ensures { IfOk result (IsNext study.now reduction) }
{
    reduction.logs.push(SearchLog {
        chosen: rest,
        lines,
    })?;
    reduction.witnesses.push(Witness::Open(study.conflicts()))?;
    Ok(reduction)
}

/// A list of the witnesses.
fn listed(alloc: Global, witnesses: Vec<Witness>) -> Result<Witnesses, NoMemory>
    ensures { IfOk result (λ list. list ≡ witnesses.items) }
{
    let mut list = Items::new(alloc);
    for witness in witnesses {
        list.push(witness)?;
    }
    Ok(list)
}

impl Reduction {
    /// The core without its first axiom that has no witness, and without those that a refutation of the rest
    /// does not need.
    fn without(
        self,
        alloc: Global,
        study: &Study,
        clauses: &Ground,
        lines: &Derivation,
        k: u32,
    ) -> Result<Reduction, NoMemory>
        requires reducing { IsReducing study.now self }
        requires open { length self.witnesses.items < length self.core }
        requires k { k ≡ next_open self }
        requires clauses { clauses.now ≡ study_clauses study.now.size study.now.axioms (others k self.core) }
        requires accepted { IsAccepted (clauses_in clauses.now) lines.now }
        requires over { AreOver (variable_count study.now.size) lines.now }
        requires few { length lines.now < 2 ^ 32 - 1 }
        ensures { IfOk result (IsNext study.now self) }
    {
        let mut focus = focus_on(alloc, clauses, lines, study.axioms().len())?;
        leave_out(&mut focus.gone, k);
        let core = places_kept(alloc, self.core.as_slice(), focus.gone.as_slice())?;
        let Reduction {
            core: before,
            clauses: _,
            proof: _,
            witnesses,
            logs,
        } = self;
        let marks = marks_kept(alloc, before.as_slice(), witnesses, focus.gone.as_slice())?;
        Ok(focus.into_reduction(core, marks, logs))
    }

    /// The refutation of a reduction that has a witness for each axiom of its core.
    pub fn finish(self, alloc: Global, study: &Study) -> Result<Reduced, NoMemory>
        requires reducing { IsReducing study.now self }
        requires whole { length self.core ≤ length self.witnesses.items }
        ensures refutation { IfOk result (λ r. IsRefutation study.now r.logs r.refutation) }
        ensures logs { IfOk result (λ r. AllByRecursion (IsSpentLog study.now) r.logs) }
        ensures core { IfOk result (λ r. r.refutation.core ≡ self.core) }
    {
        let _axioms = study.axioms();
        let Reduction {
            core,
            clauses,
            proof,
            witnesses,
            logs,
        } = self;
        let list = listed(alloc, witnesses)?;
        Ok(Reduced {
            refutation: Refutation {
                core,
                clauses,
                proof,
                witnesses: list,
            },
            logs,
        })
    }
}

/// The first axiom of the core that has no witness.
fn first_open(reduction: &Reduction) -> u32
    requires { length reduction.now.witnesses.items < length reduction.now.core }
    ensures { result ≡ next_open reduction.now }
{
    reduction.core.as_slice()[reduction.witnesses.as_slice().len()]
}

/// Searches without the first axiom of the core that has no witness.
pub fn step<K: OutcomeKind>(
    alloc: Global,
    kind: &K,
    study: &Study,
    reduction: Reduction,
) -> Result<Reduction, NoMemory>
    requires size { study.now.size ≡ K.size kind.now }
    requires reducing { IsReducing study.now reduction }
    requires open { length reduction.witnesses.items < length reduction.core }
    ensures { IfOk result (IsNext study.now reduction) }
{
    let k = first_open(&reduction);
    let rest = rest_of(alloc, study, &reduction.core, &reduction.clauses, k)?;
    match search(alloc, kind, study, &rest.places, &rest.clauses)? {
        Search::Found(bits) => {
            let table = rule_of(alloc, kind, study, &rest.places, &bits)?;
            with_rule(study, reduction, table)
        }
        Search::Refuted(lines) => reduction.without(alloc, study, &rest.clauses, &lines, k),
        Search::Spent(lines) => with_mark(study, reduction, rest.into_places(), lines),
    }
}
