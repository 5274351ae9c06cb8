//! Shorter ways to the conflict of a line: what it forces without need is left out.

use crate::literal_sets::{LiteralSet, Standing, clause_at, from_end, service};
use crate::ways::{Way, way_within};
use cnf::{Clauses, Ids, Lit, Lits};
use lists::{Items, NoMemory};
use std::alloc::Global;

/// No clause, or more than one.
const NONE: u32 = 0;

const SEVERAL: u32 = u32::MAX;

/// One more clause, where so many are at hand.
fn one_more(at_hand: u32, k: u32) -> u32 {
    if at_hand == NONE {
        k.saturating_add(1)
    } else {
        SEVERAL
    }
}

/// A way to a conflict that is being made shorter: what it may force, and what it can't do without.
#[derive(Drop)]
struct Thinning {
    supposed: Lits,
    allowed: LiteralSet,
    needed: LiteralSet,
    way: Way,
}

/// For each variable, the number of the only clause that can force its literal, from 1, and the only one that
/// can be false.
#[derive(Drop)]
struct Only {
    reasons: Vec<u32>,
    conflict: u32,
}

impl Only {
    /// The only clauses of these for what is allowed.
    fn of(
        alloc: Global,
        clauses: &Clauses,
        variables: u32,
        allowed: &LiteralSet,
    ) -> Result<Only, NoMemory> {
        let reasons = vec![in alloc; NONE; variables as usize + 1]?;
        let mut only = Only {
            reasons,
            conflict: NONE,
        };
        for k in 0..clauses.len() {
            only.count(service(clause_at(clauses, k), allowed), k);
        }
        Ok(only)
    }

    /// Counts what a clause can serve for.
    fn count(&mut self, serves: Standing, k: u32) {
        match serves {
            Standing::False => self.conflict = one_more(self.conflict, k),
            Standing::Forces(lit) => {
                let place = lit.variable() as usize;
                if place < self.reasons.len() {
                    self.reasons[place] = one_more(self.reasons[place], k);
                }
            }
            Standing::Rest => {}
        }
    }

    /// The only clause that can force a literal of a variable.
    fn reason(&self, variable: u32) -> u32 {
        let place = variable as usize;
        if place < self.reasons.len() {
            self.reasons[place]
        } else {
            NONE
        }
    }
}

/// Marks as needed what a clause rests on, where it is the only one.
fn need(clauses: &Clauses, only: u32, needed: &mut LiteralSet) {
    if only != NONE && only <= clauses.len() {
        needed.put_opposites(clauses.get(only - 1));
    }
}

/// Marks what the needed ones of some literals rest on, from the last to the first.
fn spread(clauses: &Clauses, only: &Only, literals: &[Lit], needed: &mut LiteralSet) {
    for turn in 0..literals.len() {
        if let Some(lit) = from_end(literals, turn) {
            if needed.has(lit) {
                need(clauses, only.reason(lit.variable()), needed);
            }
        }
    }
}

impl Thinning {
    /// Where nothing is left out yet of a way.
    fn new(alloc: Global, variables: u32, supposed: Lits, way: Way) -> Result<Thinning, NoMemory> {
        let mut allowed = LiteralSet::new(alloc, variables)?;
        let needed = LiteralSet::new(alloc, variables)?;
        allowed.set_all(supposed.as_slice(), true);
        allowed.set_all(way.literals.as_slice(), true);
        Ok(Thinning {
            supposed,
            allowed,
            needed,
            way,
        })
    }

    /// Marks what no way can do without: where only one clause can be false, or force a literal that is
    /// needed, what it rests on.
    fn mark_needed(
        &mut self,
        alloc: Global,
        clauses: &Clauses,
        variables: u32,
    ) -> Result<(), NoMemory> {
        let only = Only::of(alloc, clauses, variables, &self.allowed)?;
        need(clauses, only.conflict, &mut self.needed);
        spread(
            clauses,
            &only,
            self.way.literals.as_slice(),
            &mut self.needed,
        );
        Ok(())
    }

    /// Takes another way, and allows no other literals than it has.
    fn take(&mut self, alloc: Global, variables: u32, way: Way) -> Result<(), NoMemory> {
        let mut allowed = LiteralSet::new(alloc, variables)?;
        allowed.set_all(self.supposed.as_slice(), true);
        allowed.set_all(way.literals.as_slice(), true);
        self.allowed = allowed;
        self.way = way;
        Ok(())
    }

    /// The hints of the way.
    fn into_hints(self) -> Ids {
        let Thinning {
            supposed: _,
            allowed: _,
            needed: _,
            way,
        } = self;
        let Way { literals: _, hints } = way;
        hints
    }

    /// Whether a literal may be left out as far as is known.
    fn is_open(&self, lit: Lit) -> bool {
        self.allowed.has(lit) && !self.needed.has(lit)
    }

    /// The next literals that may be left out, as many as are tried at once.
    fn group(&self, alloc: Global, tries: &mut Tries) -> Result<Lits, NoMemory> {
        let mut group = Items::new(alloc);
        tries.end = tries.place;
        for place in tries.place..tries.literals.len() {
            if group.as_slice().len() >= tries.size {
                return Ok(group);
            }
            if let Some(lit) = from_end(tries.literals.as_slice(), place) {
                if self.is_open(lit) {
                    group.push(lit)?;
                }
            }
            tries.end = place + 1;
        }
        Ok(group)
    }

    /// Tries a way without the literals of a group. Where there is none, one literal alone is needed, and of
    /// more only half are tried next. It takes as many off the budget as there are clauses and variables,
    /// beside what the way takes.
    fn leave_out(
        &mut self,
        alloc: Global,
        clauses: &Clauses,
        variables: u32,
        group: &[Lit],
        tries: &mut Tries,
        budget: &mut u32,
    ) -> Result<(), NoMemory> {
        *budget = budget
            .saturating_sub(clauses.len())
            .saturating_sub(variables);
        self.allowed.set_all(group, false);
        let found = way_within(
            alloc,
            clauses,
            variables,
            self.supposed.as_slice(),
            &self.allowed,
            budget,
        )?;
        match found {
            Some(way) => {
                self.take(alloc, variables, way)?;
                tries.place = tries.end;
                tries.size = tries.size.saturating_mul(2);
            }
            None => {
                self.allowed.set_all(group, true);
                if group.len() > 1 {
                    tries.size = group.len() / 2;
                    return Ok(());
                }
                self.needed.set_all(group, true);
                tries.place = tries.end;
            }
        }
        self.mark_needed(alloc, clauses, variables)
    }
}

/// The literals that are left out in turn, from the last to the first: the place from the end of those that
/// are tried next, that after them, and how many are tried at once.
#[derive(Drop)]
struct Tries {
    literals: Lits,
    place: usize,
    end: usize,
    size: usize,
}

/// Leaves literals out as long as there are some, and the budget allows it.
fn leave_all_out(
    alloc: Global,
    clauses: &Clauses,
    variables: u32,
    thinning: &mut Thinning,
    tries: &mut Tries,
    budget: &mut u32,
) -> Result<(), NoMemory> {
    for _ in 0..tries.literals.len().saturating_mul(4) {
        let group = thinning.group(alloc, tries)?;
        if group.is_empty() || *budget == 0 {
            return Ok(());
        }
        thinning.leave_out(alloc, clauses, variables, group.as_slice(), tries, budget)?;
    }
    Ok(())
}

/// The hints of a way that forces no literal without need, by these clauses, whose origins are their ids: the
/// literals of the given way are left out in turn, from the last to the first, some at once, where the others
/// still come to a conflict. `budget` is how many clauses may be looked at, and becomes how many are left.
pub fn thin(
    alloc: Global,
    clauses: &Clauses,
    variables: u32,
    supposed: Lits,
    way: Way,
    budget: &mut u32,
) -> Result<Ids, NoMemory> {
    let mut literals = Items::new(alloc);
    literals.append(way.literals.as_slice())?;
    let mut tries = Tries {
        literals,
        place: 0,
        end: 0,
        size: 1,
    };
    let mut thinning = Thinning::new(alloc, variables, supposed, way)?;
    thinning.mark_needed(alloc, clauses, variables)?;
    leave_all_out(alloc, clauses, variables, &mut thinning, &mut tries, budget)?;
    Ok(thinning.into_hints())
}
