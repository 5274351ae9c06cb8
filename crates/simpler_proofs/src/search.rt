//! A search for clauses that propagation gives: the opposites of some literals are assumed, and where a
//! clause is falsified then, those on which that rests are learned as a clause (Freeman, 1995).

ghost use Rattle.std.specs.Prelude.{◌≡◌, ◌<◌, ◌≤◌, false, length, OnOk, IfOk, IsTrue};
ghost use Rattle.cnf.specs.Fresh.{AreOver, is_over};
ghost use Rattle.simpler_proofs.specs.Made.{EachPasses, has_at_most};

use crate::made::{Draft, MOST_LINES};
use cnf::Lit;
use lists::NoMemory;
use std::alloc::Global;

/// A search for clauses, each of at most so many literals, one or more: the derivation that adds those that
/// are learned.
#[derive(Drop)]
pub(crate) struct Search<'a> {
    pub(crate) draft: Draft<'a>,
    pub(crate) most: usize,
    pub ghost least: { 1 ≤ most },
    pub ghost over: { AreOver draft.marked.trail.variables draft.lines.items },
    pub ghost short: { EachPasses (has_at_most most) draft.lines.items },
}

impl Search<'_> {
    ghost use Rattle.simpler_proofs.specs.Search.{IsAtRoot, IsSameSearch};

    /// Propagates at level 0. Where a clause is falsified, the empty clause is added, and the answer is true.
    pub(crate) fn propagate(&mut self, alloc: Global) -> Result<bool, NoMemory>
        requires room { length self.old.draft.lines.items < 1000000 }
        ensures root { IfOk result (λ ended. ended ≡ false → IsAtRoot self.new) }
        ensures same { OnOk result (IsSameSearch self.old self.new) }
    {
        let ended = self.draft.propagate(alloc)?;
        Ok(ended)
    }

    /// Whether each literal has a variable of the trail that has no value.
    fn are_open(&self, clause: &[Lit]) -> bool
        ensures { IsTrue result → IsTrue (is_over self.now.draft.marked.trail.variables clause.now) }
    {
        let marked = &self.draft.marked;
        for k in 0..clause.len() {
            let variable = clause[k].variable();
            if variable as usize > marked.seen.len() || marked.trail.value(variable).is_some() {
                return false;
            }
        }
        true
    }

    /// Tries to learn a clause, or a part of it, where none of its variables has a value and the budget
    /// allows it: the opposites of its literals are assumed, one after another, and where a clause is
    /// falsified, or forces one of them, what is left of the given one is learned. Where clauses of two
    /// literals may be learned, a conflict also takes as many off the budget as the trail has entries at
    /// level 0. The answer is whether the clauses are refuted.
    pub(crate) fn attempt(&mut self, alloc: Global, clause: &[Lit]) -> Result<bool, NoMemory>
        requires root { IsAtRoot self.old }
        requires short { length clause.now ≤ self.old.most }
        ensures root { IfOk result (λ ended. ended ≡ false → IsAtRoot self.new) }
        ensures same { OnOk result (IsSameSearch self.old self.new) }
    {
        if self.draft.budget == 0 || self.draft.lines.len() > MOST_LINES || !self.are_open(clause) {
            return Ok(false);
        }
        let found = self.draft.shorten(alloc, clause)?;
        if found && self.most > 1 {
            let entries = self.draft.marked.trail.len();
            self.draft.budget = self.draft.budget.saturating_sub(entries);
        }
        let ended = self.propagate(alloc)?;
        Ok(ended)
    }

    /// Tries the opposite of each literal. The answer is whether the clauses are refuted.
    pub(crate) fn each_alone(&mut self, alloc: Global, tried: &[Lit]) -> Result<bool, NoMemory>
        requires root { IsAtRoot self.old }
        ensures root { IfOk result (λ ended. ended ≡ false → IsAtRoot self.new) }
        ensures same { OnOk result (IsSameSearch self.old self.new) }
    {
        for lit in tried {
            if self.attempt(alloc, [lit.opposite()].as_slice())? {
                return Ok(true);
            }
        }
        Ok(false)
    }
}
