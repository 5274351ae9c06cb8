//! The rules that were found, and the clauses that leave them out.

ghost use Rattle.std.specs.Prelude.{◌≡◌, length, IfOk, IsTrue};
ghost use Rattle.cnf.specs.Assignment.{value_of};
ghost use Rattle.cnf.specs.Sat.{is_satisfied};
ghost use Rattle.cdcl.specs.Answer.{IsSearchAnswer};
ghost use Rattle.meaning.specs.StudyClauses.{study_clauses};
ghost use Rattle.meaning.specs.Variables.{variable_count};
ghost use Rattle.clause_form.specs.Sources.{clauses_in};
ghost use Rattle.search_logs.specs.Spent.{all_places};
ghost use Rattle.rule_lists.specs.RuleLists.{EndsWith};
ghost use Rattle.rule_lists.specs.Finding.{AreFoundRules, IsAfter};

use crate::answers::{Ending, RuleList};
use crate::denying::denial_of;
use crate::ordering::put;
use cdcl::{Search, solve};
use clause_form::Ground;
use cnf::{Bits, Clauses, PushFault};
use core_reduce::{table_of, variables};
use lists::{Items, NoMemory};
use outcomes::{OutcomeKind, Setting, laws};
use std::alloc::Global;
use vocab::{Study, Table};

/// Rules that were found, in order, and the clauses of all axioms with one for each of them.
pub(crate) struct Found {
    pub(crate) clauses: Clauses,
    pub(crate) tables: Vec<Table>,
}

/// Written out, so that letting go of it is one call.
impl Drop for Found {
    fn drop(self) {
        let Found {
            clauses: _,
            tables: _,
        } = self;
    }
}

/// The clauses, once more.
fn copied(alloc: Global, ground: &Ground) -> Result<Clauses, NoMemory>
    ensures { IfOk result (λ copy. copy.clauses ≡ clauses_in ground.now) }
{
    let list = ground.clauses();
    let mut copy = Clauses::new(alloc);
    for k in 0..list.len() {
        match copy.push(list.get(k), list.origin(k)) {
            Ok(()) => {}
            Err(_) => return Err(NoMemory),
        }
    }
    Ok(copy)
}

impl Found {
    /// Nothing is found yet.
    pub(crate) fn new(alloc: Global, study: &Study, ground: &Ground) -> Result<Found, NoMemory>
        requires { ground.now ≡ study_clauses study.now.size study.now.axioms (all_places study.now) }
        ensures found { IfOk result
            (λ found. AreFoundRules study.now found.tables.items found.clauses.clauses) }
        ensures none { IfOk result (λ found. length found.tables.items ≡ 0) }
    {
        let _axioms = study.axioms();
        let clauses = copied(alloc, ground)?;
        Ok(Found {
            clauses,
            tables: Vec::new(alloc),
        })
    }

    /// A search for a rule that was not found.
    fn search<K: OutcomeKind>(
        &self,
        alloc: Global,
        setting: &Setting<K>,
    ) -> Result<Search, NoMemory>
        requires found { AreFoundRules setting.now.study.now self.now.tables.items self.now.clauses.clauses }
        ensures { IfOk result
            (IsSearchAnswer self.now.clauses.clauses (variable_count setting.now.study.now.size)
            setting.now.study.now.conflicts) }
    {
        let _axioms = setting.study.axioms();
        laws::kinds_have_sizes(setting.kind);
        solve(
            alloc,
            &self.clauses,
            variables(setting.kind),
            setting.study.conflicts(),
        )
    }

    /// Takes the rule of an assignment that satisfies the clauses: None; or leaves the rules as they are, where
    /// the clauses have no room for one that leaves it out.
    fn take<K: OutcomeKind>(
        &mut self,
        alloc: Global,
        setting: &Setting<K>,
        bits: &Bits,
    ) -> Result<Option<Ending>, NoMemory>
        requires found { AreFoundRules setting.now.study.now self.old.tables.items self.old.clauses.clauses }
        requires length { length bits.now ≡ variable_count setting.now.study.now.size }
        requires satisfied { IsTrue (is_satisfied (value_of bits.now) self.old.clauses.clauses) }
        ensures { IfOk result
            (IsAfter setting.now.study.now self.old.tables.items self.new.tables.items
            self.new.clauses.clauses) }
    {
        let _axioms = setting.study.axioms();
        laws::kinds_have_sizes(setting.kind);
        let table = table_of(alloc, setting.kind, bits)?;
        let clause = denial_of(alloc, bits, variables(setting.kind))?;
        match self.clauses.push(clause.as_slice(), 0) {
            Ok(()) => {}
            Err(PushFault::NoMemory) => return Err(NoMemory),
            Err(PushFault::Full) => return Ok(Some(Ending::Open)),
        }
        put(&mut self.tables, table)?;
        Ok(None)
    }

    /// Searches for one rule more: None where it was found; else how the list ends.
    pub(crate) fn step<K: OutcomeKind>(
        &mut self,
        alloc: Global,
        setting: &Setting<K>,
    ) -> Result<Option<Ending>, NoMemory>
        requires found { AreFoundRules setting.now.study.now self.old.tables.items self.old.clauses.clauses }
        ensures { IfOk result
            (IsAfter setting.now.study.now self.old.tables.items self.new.tables.items
            self.new.clauses.clauses) }
    {
        let _axioms = setting.study.axioms();
        match self.search(alloc, setting)? {
            Search::Found(bits) => self.take(alloc, setting, &bits),
            Search::Refuted(_) => Ok(Some(Ending::Whole)),
            Search::Spent(_) => Ok(Some(Ending::Open)),
        }
    }

    /// How the list ends that has as many rules as were asked for.
    pub(crate) fn end<K: OutcomeKind>(
        &self,
        alloc: Global,
        setting: &Setting<K>,
    ) -> Result<Ending, NoMemory>
        requires found { AreFoundRules setting.now.study.now self.now.tables.items self.now.clauses.clauses }
        ensures { IfOk result
            (EndsWith setting.now.study.now (length self.now.tables.items) self.now.tables.items) }
    {
        let _axioms = setting.study.axioms();
        match self.search(alloc, setting)? {
            Search::Found(_) => Ok(Ending::More),
            Search::Refuted(_) => Ok(Ending::Whole),
            Search::Spent(_) => Ok(Ending::Open),
        }
    }

    /// The list of what was found, which ends so.
    pub(crate) fn into_list(self, ending: Ending) -> RuleList
        ensures tables { result.tables ≡ self.tables.items }
        ensures ending { result.ending ≡ ending }
    {
        let Found { clauses: _, tables } = self;
        RuleList {
            tables: Items::from_vec(tables),
            ending,
        }
    }
}
