//! Vivification: of each clause only those literals stay on which a conflict rests (Piette, Hamadi and Sais,
//! 2008).

ghost use Rattle.std.specs.Prelude.{◌≡◌, ◌<◌, ◌≤◌, ◌+◌, ◌^◌, Bool, true, false, All, length, OnOk, IfOk, IfSome, IsTrue};
ghost use Rattle.std.specs.List.{list_all};
ghost use Rattle.cnf.specs.Signed.{Signed};
ghost use Rattle.cnf.specs.Sat.{Clause};
ghost use Rattle.cnf.specs.Fresh.{AreOver, is_over};
ghost use Rattle.propagate.specs.Values.{StaysWithin};
ghost use Rattle.simpler_proofs.specs.Made.{EachPasses, IsProof, is_part_of};

use crate::formula::{Cnf, Given};
use crate::made::{Draft, MOST_LINES, assume, finish};
use crate::reasons::{MarkedTrail, unmark};
use cnf::{Clauses, Derivation, Lit, Lits, Step};
use lists::{Items, NoMemory};
use std::alloc::Global;

/// What is left of a clause, and the numbers of the clauses on which its conflict rests.
#[derive(Drop)]
struct Left {
    clause: Lits,
    reasons: Vec<u32>,
}

impl MarkedTrail {
    /// Assumes the opposites of the literals one after another, until a clause is falsified or forces one of
    /// them. Gives the number of that clause.
    fn conflict_of(&mut self, clause: &[Lit], budget: &mut u32) -> Option<u32>
        requires propagated { self.old.trail.propagated ≡ true }
        requires variables { StaysWithin self.old.trail.variables clause.now }
        ensures variables { self.new.trail.variables ≡ self.old.trail.variables }
        ensures clauses { self.new.trail.clauses ≡ self.old.trail.clauses }
        ensures some { IfSome result (λ k. k < length self.new.trail.clauses) }
    {
        for lit in clause {
            match self.trail.value(lit.variable()) {
                Some(value) => {
                    if value == lit.positive() {
                        return self.trail.reason(lit.variable());
                    }
                }
                None => {
                    if let Some(k) = assume(&mut self.trail, lit.opposite(), budget) {
                        return Some(k);
                    }
                }
            }
        }
        None
    }

    /// The literals whose variables are marked. The marks are taken away.
    fn marked_of(&mut self, alloc: Global, clause: &[Lit]) -> Result<Lits, NoMemory>
        requires variables { StaysWithin self.old.trail.variables clause.now }
        ensures trail { self.new.trail ≡ self.old.trail }
        ensures part { IfOk result (λ marked. (test : Signed → Bool) → IsTrue (list_all test clause.now) →
            IsTrue (list_all test marked)) }
        ensures few { IfOk result (λ marked. length marked ≤ length clause.now) }
    {
        let mut marked = Items::new(alloc);
        for lit in clause {
            if unmark(&mut self.seen, *lit) {
                marked.push(*lit)?;
            }
        }
        Ok(marked)
    }

    /// What is left of a clause by the conflict to which the opposites of its literals lead; nothing where
    /// they lead to none. Then the trail is at level 0 again.
    fn left_of(
        &mut self,
        alloc: Global,
        clause: &[Lit],
        budget: &mut u32,
    ) -> Result<Option<Left>, NoMemory>
        requires propagated { self.old.trail.propagated ≡ true }
        requires variables { StaysWithin self.old.trail.variables clause.now }
        ensures level { self.new.trail.level ≡ 0 }
        ensures variables { self.new.trail.variables ≡ self.old.trail.variables }
        ensures clauses { self.new.trail.clauses ≡ self.old.trail.clauses }
        ensures part { IfOk result (λ left. IfSome left (λ l. (test : Signed → Bool) →
            IsTrue (list_all test clause.now) → IsTrue (list_all test l.clause))) }
        ensures few { IfOk result (λ left. IfSome left (λ l. length l.clause ≤ length clause.now)) }
    {
        let Some(k) = self.conflict_of(clause, budget) else {
            self.trail.back_to(0);
            return Ok(None);
        };
        let found = self.reasons(alloc, k);
        self.mark_forced(k);
        self.trail.back_to(0);
        let reasons = found?;
        let clause = self.marked_of(alloc, clause)?;
        Ok(Some(Left { clause, reasons }))
    }
}

impl Draft<'_> {
    /// Adds what is left of a clause. The answer is whether a conflict was found.
    pub(crate) fn shorten(&mut self, alloc: Global, clause: &[Lit]) -> Result<bool, NoMemory>
        requires propagated { self.old.marked.trail.propagated ≡ true }
        requires over { IsTrue (is_over self.old.marked.trail.variables clause.now) }
        requires room { length self.old.lines.items < 1000000 }
        ensures clauses { self.new.clauses ≡ self.old.clauses }
        ensures variables { self.new.marked.trail.variables ≡ self.old.marked.trail.variables }
        ensures more { OnOk result (length self.new.lines.items ≤ length self.old.lines.items + 1) }
        ensures passes { (test : Clause → Bool) →
            ((part : Clause) → length part ≤ length clause.now →
            ((pass : Signed → Bool) → IsTrue (list_all pass clause.now) → IsTrue (list_all pass part)) →
            IsTrue (test part)) →
            EachPasses test self.old.lines.items → EachPasses test self.new.lines.items }
    {
        match self.marked.left_of(alloc, clause, &mut self.budget)? {
            None => Ok(false),
            Some(left) => {
                let Left { clause, reasons } = left;
                self.learn(alloc, clause, reasons.as_slice())?;
                Ok(true)
            }
        }
    }
}

/// Given lines, and a derivation each clause of which is empty or part of one of these, with no more
/// literals.
#[derive(Drop)]
struct Vivifying<'f, 'a> {
    given: &'f Given<'f, 'a>,
    draft: Draft<'a>,
    ghost variables: { draft.marked.trail.variables ≡ given.now.formula.now.variables },
    ghost over: { AreOver given.now.formula.now.variables draft.lines.items },
    ghost parts: { EachPasses (is_part_of given.now.lines.now) draft.lines.items },
}

impl Vivifying<'_, '_> {
    /// Propagates at level 0. Where a clause is falsified, the empty clause is added, and the answer is true.
    fn propagate(&mut self, alloc: Global) -> Result<bool, NoMemory>
        requires room { length self.old.draft.lines.items < 1000000 }
        ensures given { self.new.given ≡ self.old.given }
        ensures propagated { IfOk result
            (λ ended. ended ≡ false → self.new.draft.marked.trail.propagated ≡ true) }
    {
        let ended = self.draft.propagate(alloc)?;
        Ok(ended)
    }

    /// Adds what is left of the clause of a line. The answer is whether a conflict was found.
    fn shorten_line(&mut self, alloc: Global, k: usize) -> Result<bool, NoMemory>
        requires propagated { self.old.draft.marked.trail.propagated ≡ true }
        requires place { k < length self.old.given.now.lines.now }
        ensures given { self.new.given ≡ self.old.given }
        ensures room { IfOk result (λ found. found ≡ true → length self.new.draft.lines.items < 1000000) }
    {
        if self.draft.budget == 0 || self.draft.lines.len() > MOST_LINES {
            return Ok(false);
        }
        match &self.given.lines.get(k).step {
            Step::Add { clause, .. } => {
                let found = self.draft.shorten(alloc, clause.as_slice())?;
                Ok(found)
            }
            Step::Drop { .. } => Ok(false),
        }
    }

    /// Goes through the lines until the clauses are refuted.
    fn shorten_all(&mut self, alloc: Global) -> Result<bool, NoMemory>
        requires room { length self.old.draft.lines.items < 1000000 }
        ensures given { OnOk result (self.new.given ≡ self.old.given) }
    {
        if self.propagate(alloc)? {
            return Ok(true);
        }
        for k in 0..self.given.lines.len() {
            if !self.shorten_line(alloc, k)? {
                return Ok(false);
            }
            if self.propagate(alloc)? {
                return Ok(true);
            }
        }
        Ok(false)
    }
}

/// A refutation of a formula of which each clause is empty or part of one of the given lines', with no more
/// literals. `budget` is how many entries propagation may make; where it is spent, there is none.
pub(crate) fn by_vivification(
    alloc: Global,
    given: &Given,
    budget: u32,
) -> Result<Option<Derivation>, NoMemory>
    ensures proof { IfOk result (λ made. IfSome made (IsProof given.now.formula.now.clauses.now.clauses)) }
    ensures over { IfOk result (λ made. IfSome made (AreOver given.now.formula.now.variables)) }
    ensures parts { IfOk result (λ made. IfSome made (EachPasses (is_part_of given.now.lines.now))) }
{
    let formula = given.formula;
    let draft = Draft::new(alloc, formula, budget)?;
    let mut vivifying = Vivifying { given, draft };
    if vivifying.shorten_all(alloc)? {
        let Vivifying { given: _, draft } = vivifying;
        let made = finish(alloc, formula.clauses, &draft.into_lines())?;
        return Ok(made);
    }
    Ok(None)
}

/// A refutation of which each clause is empty or part of one of the given lines', with no more literals. No
/// variable of a clause is above the number of variables. `budget` is how many entries propagation may make;
/// where it is spent, there is none.
pub fn vivify(
    alloc: Global,
    clauses: &Clauses,
    variables: u32,
    given: &Derivation,
    budget: u32,
) -> Result<Option<Derivation>, NoMemory>
    requires few { variables < 2 ^ 31 }
    requires range { All (λ clause. All (λ l. l.variable ≤ variables) clause) clauses.now.clauses }
    requires over { AreOver variables given.now }
    ensures proof { IfOk result (λ made. IfSome made (IsProof clauses.now.clauses)) }
    ensures over { IfOk result (λ made. IfSome made (AreOver variables)) }
    ensures parts { IfOk result (λ made. IfSome made (EachPasses (is_part_of given.now))) }
{
    let formula = Cnf { clauses, variables };
    let lines = Given {
        formula: &formula,
        lines: given,
    };
    let made = by_vivification(alloc, &lines, budget)?;
    Ok(made)
}
