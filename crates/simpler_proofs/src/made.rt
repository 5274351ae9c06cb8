//! A derivation that is being made, beside a trail over its clauses.

ghost use Rattle.std.specs.Prelude.{◌≡◌, ◌<◌, ◌≤◌, ◌+◌, [], Bool, true, false, length, OnOk, IfOk, IfSome, IfNone, IsTrue};
ghost use Rattle.std.specs.List.{list_all};
ghost use Rattle.cnf.specs.Sat.{Clause};
ghost use Rattle.lrat_check.specs.Ranges.{has_next};
ghost use Rattle.propagate.specs.Values.{StaysWithin, IsUnassigned};
ghost use Rattle.propagate.specs.TrailState.{IsTrail, known};
ghost use Rattle.simpler_proofs.specs.Made.{EachPasses, IsProof};

use crate::formula::Cnf;
use crate::reasons::MarkedTrail;
use cnf::{Clauses, Derivation, Ids, Line, Lit, Lits, Step};
use lists::{Items, NoMemory};
use lrat_check::{CheckFault, check, trim};
use propagate::{Outcome, Trail};
use std::alloc::Global;

/// The most lines before the last two.
pub const MOST_LINES: usize = 999_998;

/// Lines of which there are at most 1,000,000.
#[derive(Drop)]
pub(crate) struct FewLines<'a> {
    pub(crate) lines: &'a [Line],
    pub ghost few: { length lines.now ≤ 1000000 },
}

/// Lines that are made, at most 1,000,000, each with a number that has a next one.
#[derive(Drop)]
pub(crate) struct Numbered {
    pub(crate) lines: Derivation,
    pub ghost few: { length lines ≤ 1000000 },
    pub ghost numbers: { IsTrue (list_all has_next lines) },
}

/// The ids of clauses that are numbered from 0.
fn ids(alloc: Global, numbers: &[u32]) -> Result<Ids, NoMemory> {
    let mut ids = Items::with_room(alloc, numbers.len())?;
    for number in numbers {
        ids.push(*number as u64 + 1)?;
    }
    Ok(ids)
}

/// A derivation that is being made of clauses: a trail over these and over those that its lines add, with
/// nothing assumed, the lines, and how many entries propagation may still make.
#[derive(Drop)]
pub(crate) struct Draft<'a> {
    pub(crate) clauses: &'a Clauses,
    pub(crate) marked: MarkedTrail,
    pub(crate) lines: Vec<Line>,
    pub(crate) budget: u32,
    pub ghost level: { marked.trail.level ≡ 0 },
    pub ghost count: { length marked.trail.clauses ≡ length clauses.now.clauses + length lines.items },
    pub ghost few: { length lines.items ≤ 1000000 },
    pub ghost numbers: { IsTrue (list_all has_next lines.items) },
}

impl<'a> Draft<'a> {
    /// The draft without a line over the clauses of a formula.
    pub(crate) fn new(alloc: Global, formula: &Cnf<'a>, budget: u32) -> Result<Draft<'a>, NoMemory>
        ensures variables { IfOk result (λ draft. draft.marked.trail.variables ≡ formula.now.variables) }
        ensures lines { IfOk result (λ draft. draft.lines.items ≡ []) }
    {
        let trail = Trail::new(alloc, formula.clauses, formula.variables)?;
        let seen = vec![in alloc; false; formula.variables as usize]?;
        Ok(Draft {
            clauses: formula.clauses,
            marked: MarkedTrail { trail, seen },
            lines: Vec::new(alloc),
            budget,
        })
    }

    /// The lines.
    pub(crate) fn into_lines(self) -> Numbered
        ensures { result.lines ≡ self.entry.lines.items }
    {
        let Draft {
            clauses: _,
            marked: _,
            lines,
            budget: _,
        } = self;
        Numbered {
            lines: Items::from_vec(lines),
        }
    }
}

impl Draft<'_> {
    /// Adds a clause after the others, by its hints, to the trail and to the lines.
    pub(crate) fn learn(
        &mut self,
        alloc: Global,
        clause: Lits,
        hints: &[u32],
    ) -> Result<(), NoMemory>
        requires variables { StaysWithin self.old.marked.trail.variables clause }
        requires room { length self.old.lines.items < 1000000 }
        ensures clauses { self.new.clauses ≡ self.old.clauses }
        ensures variables { self.new.marked.trail.variables ≡ self.old.marked.trail.variables }
        ensures more { OnOk result (length self.new.lines.items ≡ length self.old.lines.items + 1) }
        ensures passes { (test : Clause → Bool) → IsTrue (test clause) →
            EachPasses test self.old.lines.items → EachPasses test self.new.lines.items }
    {
        let at = self.lines.as_slice().len() as u32 + 1;
        let id = self.clauses.len() as u64 + at as u64;
        let hints = ids(alloc, hints)?;
        self.lines.reserve(1)?;
        self.marked.trail.learn(clause.as_slice())?;
        self.lines.push_reserved(Line {
            at,
            step: Step::Add { id, clause, hints },
        });
        Ok(())
    }

    /// Propagates at level 0. Where a clause is falsified, the empty clause is added, and the answer is true.
    pub(crate) fn propagate(&mut self, alloc: Global) -> Result<bool, NoMemory>
        requires room { length self.old.lines.items < 1000000 }
        ensures clauses { self.new.clauses ≡ self.old.clauses }
        ensures variables { self.new.marked.trail.variables ≡ self.old.marked.trail.variables }
        ensures propagated { IfOk result (λ ended. ended ≡ false → self.new.marked.trail.propagated ≡ true) }
        ensures same { IfOk result (λ ended. ended ≡ false → self.new.lines ≡ self.old.lines) }
        ensures passes { (test : Clause → Bool) → IsTrue (test []) →
            EachPasses test self.old.lines.items → EachPasses test self.new.lines.items }
    {
        match self.marked.trail.propagate() {
            Outcome::Closed => Ok(false),
            Outcome::Conflict(k) => {
                let hints = self.marked.reasons(alloc, k)?;
                self.learn(alloc, Items::new(alloc), hints.as_slice())?;
                Ok(true)
            }
        }
    }
}

/// Decides a literal and propagates. Gives the number of a falsified clause, and takes the new entries off
/// the budget.
pub fn assume(trail: &mut Trail, lit: Lit, budget: &mut u32) -> Option<u32>
    requires variable { lit.variable ≤ trail.old.variables }
    requires unassigned { IsUnassigned (known trail.old) lit }
    requires propagated { trail.old.propagated ≡ true }
    ensures form { IsTrail trail.new }
    ensures variables { trail.new.variables ≡ trail.old.variables }
    ensures clauses { trail.new.clauses ≡ trail.old.clauses }
    ensures some { IfSome result (λ k. k < length trail.new.clauses) }
    ensures none { IfNone result (trail.new.propagated ≡ true) }
{
    let before = trail.len();
    trail.decide(lit);
    let end = trail.propagate();
    *budget = budget.saturating_sub(trail.len().saturating_sub(before));
    match end {
        Outcome::Conflict(k) => Some(k),
        Outcome::Closed => None,
    }
}

/// The derivation without what its empty clause does not need, where it is accepted.
pub fn finish(
    alloc: Global,
    clauses: &Clauses,
    made: &Numbered,
) -> Result<Option<Derivation>, NoMemory>
    ensures proof { IfOk result (λ proof. IfSome proof (IsProof clauses.now.clauses)) }
    ensures passes { IfOk result (λ proof. IfSome proof (λ new. (test : Clause → Bool) →
        EachPasses test made.now.lines → EachPasses test new)) }
{
    match check(alloc, clauses, &made.lines) {
        Ok(()) => Ok(Some(trim(alloc, clauses, &made.lines)?)),
        Err(CheckFault::Line { .. }) => Ok(None),
        Err(CheckFault::NoMemory) => Err(NoMemory),
    }
}
