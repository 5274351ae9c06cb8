//! Failed literals under one assumption: two literals are assumed, one after the other, and where propagation
//! then falsifies a clause, it is learned that one of them is false (as in the double look-ahead of Heule and
//! van Maaren, 2007).

ghost use Rattle.std.specs.Prelude.{◌≡◌, ◌≤◌, true, false, OnOk, IfOk};
ghost use Rattle.propagate.specs.Values.{IsUnassigned};
ghost use Rattle.propagate.specs.TrailState.{known};
ghost use Rattle.simpler_proofs.specs.Search.{IsAtRoot, IsSameSearch};

use crate::made::{MOST_LINES, assume};
use crate::reasons::MarkedTrail;
use crate::search::Search;
use cnf::{Lit, Lits};
use lists::{Items, NoMemory};
use propagate::Trail;
use std::alloc::Global;

/// One literal.
fn alone(alloc: Global, lit: Lit) -> Result<Lits, NoMemory> {
    let mut literals = Items::new(alloc);
    literals.push(lit)?;
    Ok(literals)
}

/// The literals of some that have no value.
fn without_value(alloc: Global, trail: &Trail, tried: &[Lit]) -> Result<Lits, NoMemory> {
    let mut open = Items::new(alloc);
    for lit in tried {
        if trail.value(lit.variable()).is_none() {
            open.push(*lit)?;
        }
    }
    Ok(open)
}

impl MarkedTrail {
    /// The literals of some that have no value under an assumed one; that one alone, where it fails. The trail is
    /// at level 0 again. The new entries are taken off the budget.
    fn open_under(
        &mut self,
        alloc: Global,
        tried: &[Lit],
        first: Lit,
        budget: &mut u32,
    ) -> Result<Lits, NoMemory>
        requires propagated { self.old.trail.propagated ≡ true }
        requires variable { first.variable ≤ self.old.trail.variables }
        requires unassigned { IsUnassigned (known self.old.trail) first }
        ensures level { self.new.trail.level ≡ 0 }
        ensures variables { self.new.trail.variables ≡ self.old.trail.variables }
        ensures clauses { self.new.trail.clauses ≡ self.old.trail.clauses }
    {
        let found = assume(&mut self.trail, first, budget);
        let open = if found.is_some() {
            alone(alloc, first)
        } else {
            without_value(alloc, &self.trail, tried)
        };
        self.trail.back_to(0);
        open
    }
}

impl Search<'_> {
    /// Tries under a first literal each that has no value under it, where the budget allows it. The answer is
    /// whether the clauses are refuted.
    fn under(&mut self, alloc: Global, tried: &[Lit], first: Lit) -> Result<bool, NoMemory>
        requires root { IsAtRoot self.old }
        requires two { 2 ≤ self.old.most }
        ensures root { IfOk result (λ ended. ended ≡ false → IsAtRoot self.new) }
        ensures same { OnOk result (IsSameSearch self.old self.new) }
    {
        if self.draft.budget == 0 || self.draft.lines.len() > MOST_LINES {
            return Ok(false);
        }
        if first.variable() as usize > self.draft.marked.seen.len() {
            return Ok(false);
        }
        if self.draft.marked.trail.value(first.variable()).is_some() {
            return Ok(false);
        }
        let draft = &mut self.draft;
        let open = draft
            .marked
            .open_under(alloc, tried, first, &mut draft.budget)?;
        if self.propagate(alloc)? {
            return Ok(true);
        }
        for second in open.as_slice() {
            let both = [first.opposite(), second.opposite()];
            if self.attempt(alloc, both.as_slice())? {
                return Ok(true);
            }
        }
        Ok(false)
    }

    /// Tries under each literal the others; and where it has a value then, each alone. The answer is whether
    /// the clauses are refuted.
    pub(crate) fn each_in_turn(&mut self, alloc: Global, tried: &[Lit]) -> Result<bool, NoMemory>
        requires root { IsAtRoot self.old }
        requires two { 2 ≤ self.old.most }
        ensures root { IfOk result (λ ended. ended ≡ false → IsAtRoot self.new) }
        ensures same { OnOk result (IsSameSearch self.old self.new) }
    {
        for first in tried {
            if self.draft.marked.trail.value(first.variable()).is_some() {
                continue;
            }
            if self.under(alloc, tried, *first)? {
                return Ok(true);
            }
            if self.draft.marked.trail.value(first.variable()).is_some()
                && self.each_alone(alloc, tried)?
            {
                return Ok(true);
            }
        }
        Ok(false)
    }
}
