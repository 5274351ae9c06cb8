//! Takes the rows of tables.

ghost use Rattle.std.specs.Prelude.{◌≡◌, ◌≤◌, filter, not, ◌==◌, IsTrue, IfOk};
ghost use Rattle.meaning.specs.Space.{below};
ghost use Rattle.meaning.specs.Truth.{is_rule};
ghost use Rattle.verdicts.specs.Lines.{Row};
ghost use Rattle.verdicts.specs.Places.{Standing, AtWitnessRow};
ghost use Rattle.verdicts.specs.Faults.{table_fault};
ghost use Rattle.report_lines.specs.Held.{held_place};
ghost use Rattle.report.specs.Stands.{Stands};
ghost use Rattle.report.specs.Taken.{Takes, TakesTable, AreAxiomPlaces, IsNextRow, HasTable};

use crate::judging::Judging;
use crate::subject::Subject;
use crew::Crew;
use edge::Gate;
use lists::{Items, NoMemory};
use outcomes::OutcomeKind;
use report_lines::Place;
use rule_check::check_rule;
use std::alloc::Global;
use std::thread::Threads;
use verdicts::{Confirmed, Refusal};
use vocab::Table;

/// The places of all axioms.
#[tactic(auto, using(crate::proofs::TableLineLemmas::below_more))]
fn all_places(alloc: Global, count: usize) -> Result<Vec<u32>, NoMemory>
    requires { count ≤ 4000000 }
    ensures { IfOk result (λ places. places.items ≡ below count) }
{
    let mut places = Vec::new(alloc);
    for place in 0..count {
        places.push(place as u32)?;
    }
    Ok(places)
}

/// The places of a core without one of them.
fn without(alloc: Global, core: &[u32], left_out: u32) -> Result<Vec<u32>, NoMemory>
    ensures { IfOk result (λ rest. rest.items ≡ filter (λ c. not (c == left_out)) core.now) }
{
    let rest = core
        .iter()
        .copied()
        .filter(|c| *c != left_out)
        .collect(alloc)?;
    Ok(rest)
}

/// The first of the axioms at some places that a table does not satisfy.
fn check<R: Threads + Sync, G: Gate, K: OutcomeKind>(
    crew: &Crew<R, G>,
    subject: &Subject<K>,
    table: &Table,
    places: &[u32],
) -> Result<Option<Refusal>, NoMemory>
    requires rule { IsTrue (is_rule subject.now.setting.study.now.size table.now) }
    requires places { AreAxiomPlaces subject.now.setting.study.now places.now }
    ensures { IfOk result (λ fault. fault ≡ table_fault subject.now.setting.study.now table.now places.now) }
{
    check_rule(subject.alloc, crew, &subject.setting, table, places)
}

impl Judging {
    /// Takes a row, and the whole table where it is the last one.
    pub(crate) fn take_row<R: Threads + Sync, G: Gate, K: OutcomeKind>(
        &mut self,
        crew: &Crew<R, G>,
        subject: &Subject<K>,
        profile: u32,
        outcome: u8,
    ) -> Result<Option<Refusal>, NoMemory>
        requires row { IsNextRow subject.now.setting.study.now self.old outcome }
        ensures { (s : Standing) → Stands subject.now.setting.study.now self.old s →
            Takes subject.now.setting.study.now s (Row profile outcome) self.new result }
    {
        if profile as usize != self.rows.len() {
            return Ok(Some(Refusal::Row));
        }
        self.rows.push(outcome)?;
        if self.rows.len() == subject.setting.kind.space().count() as usize {
            self.take_table(crew, subject)
        } else {
            Ok(None)
        }
    }

    /// Takes a table, whose last row is read.
    fn take_table<R: Threads + Sync, G: Gate, K: OutcomeKind>(
        &mut self,
        crew: &Crew<R, G>,
        subject: &Subject<K>,
    ) -> Result<Option<Refusal>, NoMemory>
        requires table { HasTable subject.now.setting.study.now self.old }
        ensures { (s : Standing) → Stands subject.now.setting.study.now self.old s →
            TakesTable subject.now.setting.study.now s self.new result }
    {
        match self.place {
            Place::AtWitnessRow => self.take_witness(crew, subject),
            _ => self.take_rule(crew, subject),
        }
    }

    /// Takes the table of a rule, which has to satisfy all axioms.
    fn take_rule<R: Threads + Sync, G: Gate, K: OutcomeKind>(
        &mut self,
        crew: &Crew<R, G>,
        subject: &Subject<K>,
    ) -> Result<Option<Refusal>, NoMemory>
        requires rule { IsTrue (is_rule subject.now.setting.study.now.size self.old.rows) }
        requires place { self.old.place ≡ held_place AtWitnessRow → ⊥ }
        ensures { (s : Standing) → Stands subject.now.setting.study.now self.old s →
            TakesTable subject.now.setting.study.now s self.new result }
    {
        let places = all_places(subject.alloc, subject.setting.study.axioms().len())?;
        let fault = check(crew, subject, &self.rows, places.as_slice())?;
        if fault.is_none() {
            self.place = Place::AtEnd(Some(Confirmed::Possible));
        }
        Ok(fault)
    }

    /// Takes the table of a witness, which has to satisfy the other axioms of the core.
    fn take_witness<R: Threads + Sync, G: Gate, K: OutcomeKind>(
        &mut self,
        crew: &Crew<R, G>,
        subject: &Subject<K>,
    ) -> Result<Option<Refusal>, NoMemory>
        requires table { HasTable subject.now.setting.study.now self.old }
        requires place { self.old.place ≡ held_place AtWitnessRow }
        ensures { (s : Standing) → Stands subject.now.setting.study.now self.old s →
            TakesTable subject.now.setting.study.now s self.new result }
    {
        let Some(next) = self.next_core() else {
            return Ok(Some(Refusal::Core));
        };
        let places = without(subject.alloc, self.core.as_slice(), next)?;
        match check(crew, subject, &self.rows, places.as_slice())? {
            Some(refusal) => Ok(Some(refusal)),
            None => {
                self.rows = Items::new(subject.alloc);
                self.witnesses += 1;
                self.after_witness();
                Ok(None)
            }
        }
    }
}
