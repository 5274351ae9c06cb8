//! The clauses on which a falsified clause rests.

ghost use Rattle.std.specs.Prelude.{◌≡◌, ◌<◌, ◌≤◌, length};
ghost use Rattle.propagate.specs.Values.{UsesUpTo};
ghost use Rattle.propagate.specs.TrailState.{IsTrail};

use cnf::Lit;
use lists::NoMemory;
use propagate::Trail;
use std::alloc::Global;

/// A trail, and a mark for each of its variables.
#[derive(Drop)]
pub(crate) struct MarkedTrail {
    pub(crate) trail: Trail,
    pub(crate) seen: Vec<bool>,
    pub ghost form: { ∥ IsTrail trail ∥₁ },
    pub ghost marks: { length seen.items ≡ trail.variables },
}

/// Takes the mark of the variable of a literal away, and says whether it had one.
pub fn unmark(seen: &mut Vec<bool>, lit: Lit) -> bool
    requires { lit.variable ≤ length seen.old.items }
    ensures { length seen.new.items ≡ length seen.old.items }
{
    let place = lit.variable() as usize - 1;
    let had = seen[place];
    seen[place] = false;
    had
}

/// Marks the variable of a literal.
pub fn mark(seen: &mut Vec<bool>, lit: Lit)
    requires { lit.variable ≤ length seen.old.items }
    ensures { length seen.new.items ≡ length seen.old.items }
{
    seen[lit.variable() as usize - 1] = true;
}

/// Marks the variables of a clause.
fn mark_all(seen: &mut Vec<bool>, clause: &[Lit])
    requires { UsesUpTo (length seen.old.items) clause.now }
    ensures { length seen.new.items ≡ length seen.old.items }
{
    for lit in clause {
        mark(seen, *lit);
    }
}

/// Marks the variable of that literal of a clause which is true.
fn mark_true(trail: &Trail, seen: &mut Vec<bool>, clause: &[Lit])
    requires { UsesUpTo (length seen.old.items) clause.now }
    ensures { length seen.new.items ≡ length seen.old.items }
{
    for lit in clause {
        if trail.value(lit.variable()) == Some(lit.positive()) {
            mark(seen, *lit);
        }
    }
}

impl MarkedTrail {
    /// Marks the variable of the literal that a clause forced, where it is true.
    #[tactic(auto, using(crate::proofs::Entries::clause_within))]
    pub(crate) fn mark_forced(&mut self, k: u32)
        requires { k < length self.old.trail.clauses }
        ensures { self.new.trail ≡ self.old.trail }
    {
        mark_true(&self.trail, &mut self.seen, self.trail.clause(k));
    }

    /// Goes one entry back: a marked one that was forced is replaced by the clause that forced it.
    fn trace(&mut self, place: u32, hints: &mut Vec<u32>) -> Result<(), NoMemory>
        requires { place < length self.old.trail.entries }
        ensures { self.new.trail ≡ self.old.trail }
    {
        let lit = self.trail.at(place);
        if !unmark(&mut self.seen, lit) {
            return Ok(());
        }
        match self.trail.reason(lit.variable()) {
            None => mark(&mut self.seen, lit),
            Some(k) => {
                hints.push(k)?;
                mark_all(&mut self.seen, self.trail.clause(k));
                let _ = unmark(&mut self.seen, lit);
            }
        }
        Ok(())
    }

    /// The numbers of the clauses on which a falsified clause rests, each the reason of an entry and in their
    /// order, and its own number last. The variables that are marked are then those of the decided entries on
    /// which it rests, where none was marked before.
    #[tactic(auto, using(crate::proofs::Entries::clause_within))]
    pub(crate) fn reasons(&mut self, alloc: Global, conflict: u32) -> Result<Vec<u32>, NoMemory>
        requires { conflict < length self.old.trail.clauses }
        ensures { self.new.trail ≡ self.old.trail }
    {
        let mut hints = Vec::new(alloc);
        hints.push(conflict)?;
        mark_all(&mut self.seen, self.trail.clause(conflict));
        let mut place = self.trail.len();
        'tracing: while place > 0 {
            place -= 1;
            self.trace(place, &mut hints)?;
        }
        hints.reverse();
        Ok(hints)
    }
}
