//! Ways to a conflict within a set of literals.

use crate::literal_sets::{LiteralSet, Standing, clause_at, from_end, origin_at, stands};
use cnf::{Clauses, Ids, Lit, Lits};
use lists::{Items, NoMemory};
use std::alloc::Global;

/// A literal, and the number of the clause that forces it.
#[derive(Clone, Copy)]
struct Forced {
    literal: Lit,
    reason: u32,
}

/// The literals that a conflict rests on, in the order in which they are forced, and the origins of the clauses
/// that force them, that of the false clause last.
#[derive(Drop)]
pub struct Way {
    pub literals: Lits,
    pub hints: Ids,
}

/// Goes through the clauses once: what one forces is known from there on. Gives the number of a false one.
fn sweep(
    clauses: &Clauses,
    allowed: &LiteralSet,
    known: &mut LiteralSet,
    forced: &mut Items<Forced>,
) -> Result<Option<u32>, NoMemory> {
    for k in 0..clauses.len() {
        match stands(clause_at(clauses, k), known, allowed) {
            Standing::False => return Ok(Some(k)),
            Standing::Forces(literal) => {
                known.set(literal, true);
                forced.push(Forced { literal, reason: k })?;
            }
            Standing::Rest => {}
        }
    }
    Ok(None)
}

/// Goes through the clauses until one is false. A round takes as many off the budget as there are clauses.
fn conflict(
    clauses: &Clauses,
    allowed: &LiteralSet,
    known: &mut LiteralSet,
    forced: &mut Items<Forced>,
    budget: &mut u32,
) -> Result<Option<u32>, NoMemory> {
    for _ in 0..clauses.len() {
        if *budget == 0 {
            return Ok(None);
        }
        *budget = budget.saturating_sub(clauses.len());
        let before = forced.len();
        let found = sweep(clauses, allowed, known, forced)?;
        if found.is_some() || forced.len() == before {
            return Ok(found);
        }
    }
    Ok(None)
}

/// Takes an entry into a trace, where it is needed.
fn trace_entry(
    clauses: &Clauses,
    entry: Forced,
    needed: &mut LiteralSet,
    literals: &mut Vec<Lit>,
    hints: &mut Vec<u64>,
) -> Result<(), NoMemory> {
    if needed.has(entry.literal) {
        needed.put_opposites(clause_at(clauses, entry.reason));
        hints.push(origin_at(clauses, entry.reason))?;
        literals.push(entry.literal)?;
    }
    Ok(())
}

/// The origins of the clauses on which a false one rests, each the reason of a forced literal, the last first;
/// and these literals.
fn trace(
    alloc: Global,
    clauses: &Clauses,
    forced: &[Forced],
    falsified: u32,
    needed: &mut LiteralSet,
    literals: &mut Vec<Lit>,
) -> Result<Vec<u64>, NoMemory> {
    let mut hints = Vec::new(alloc);
    hints.push(origin_at(clauses, falsified))?;
    needed.put_opposites(clause_at(clauses, falsified));
    for turn in 0..forced.len() {
        if let Some(entry) = from_end(forced, turn) {
            trace_entry(clauses, entry, needed, literals, &mut hints)?;
        }
    }
    Ok(hints)
}

/// A way to a conflict by clauses that force only what is allowed, from what is supposed on; none where there
/// is no conflict, or the budget is spent.
pub fn way_within(
    alloc: Global,
    clauses: &Clauses,
    variables: u32,
    supposed: &[Lit],
    allowed: &LiteralSet,
    budget: &mut u32,
) -> Result<Option<Way>, NoMemory> {
    let mut known = LiteralSet::new(alloc, variables)?;
    known.set_all(supposed, true);
    let mut forced = Items::new(alloc);
    let Some(k) = conflict(clauses, allowed, &mut known, &mut forced, budget)? else {
        return Ok(None);
    };
    let mut needed = LiteralSet::new(alloc, variables)?;
    let mut literals = Vec::new(alloc);
    let mut hints = trace(
        alloc,
        clauses,
        forced.as_slice(),
        k,
        &mut needed,
        &mut literals,
    )?;
    hints.reverse();
    literals.reverse();
    Ok(Some(Way {
        literals: Items::from_vec(literals),
        hints: Items::from_vec(hints),
    }))
}
