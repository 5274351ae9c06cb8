//! Refutations by failed literals of which one line after the other is left out.

ghost use Rattle.std.specs.Prelude.{◌⊎◌, ◌≡◌, Some};

use crate::failed_literals::by_literals;
use crate::formula::Cnf;
use crate::rebuilding::supposed_of;
use cnf::{Clauses, Derivation, Lits, Step};
use line_hints::{add_clause, clause_at};
use lists::{Items, NoMemory};
use std::alloc::Global;

/// How many hints the lines have.
fn hints_of(lines: &Derivation) -> usize {
    let mut count: usize = 0;
    for line in lines.as_slice() {
        if let Step::Add { hints, .. } = &line.step {
            count = count.saturating_add(hints.len());
        }
    }
    count
}

/// The one with fewer hints, and the first of two with as many.
pub fn shorter(best: Option<Derivation>, made: Derivation) -> Option<Derivation>
    ensures { (result ≡ best) ⊎ (result ≡ Some made) }
{
    match best {
        None => Some(made),
        Some(old) => {
            if hints_of(&made) < hints_of(&old) {
                Some(made)
            } else {
                Some(old)
            }
        }
    }
}

/// Marks the clauses of some hints.
fn mark_hints(hints: &[u64], cited: &mut Vec<bool>) {
    for hint in hints {
        if *hint > 0 && *hint - 1 < cited.len() as u64 {
            cited[(*hint - 1) as usize] = true;
        }
    }
}

/// Marks the clauses that the lines cite, each at the place of its number.
pub fn mark_cited(lines: &Derivation, cited: &mut Vec<bool>) {
    for line in lines.as_slice() {
        if let Step::Add { hints, .. } = &line.step {
            mark_hints(hints.as_slice(), cited);
        }
    }
}

/// The clauses that are marked, each with its number as its origin.
pub fn marked_clauses(
    alloc: Global,
    clauses: &Clauses,
    marked: &[bool],
) -> Result<Clauses, NoMemory> {
    let mut part = Clauses::new(alloc);
    for k in 0..clauses.len() {
        if (k as usize) < marked.len() && marked[k as usize] {
            add_clause(&mut part, clause_at(clauses, k), u64::from(k))?;
        }
    }
    Ok(part)
}

/// What the lines suppose, but for the one at a place.
fn supposed_but(alloc: Global, lines: &Derivation, place: usize) -> Result<Lits, NoMemory> {
    let mut supposed = Items::new(alloc);
    let mut k: usize = 0;
    for line in lines.as_slice() {
        if k != place {
            if let Some(lit) = supposed_of(line) {
                supposed.push(lit)?;
            }
        }
        k = k.saturating_add(1);
    }
    Ok(supposed)
}

/// The lines, or shorter ones by the same literals without that of one line. A try takes as many off the budget
/// as there are clauses and variables, beside its entries.
fn without(
    alloc: Global,
    formula: &Cnf,
    lines: Derivation,
    place: usize,
    budget: &mut u32,
) -> Result<Option<Derivation>, NoMemory> {
    *budget = budget
        .saturating_sub(formula.clauses.len())
        .saturating_sub(formula.variables);
    if *budget == 0 || place.saturating_add(1) >= lines.len() {
        return Ok(Some(lines));
    }
    let rest = supposed_but(alloc, &lines, place)?;
    match by_literals(alloc, formula, rest.as_slice(), 1, budget)? {
        None => Ok(Some(lines)),
        Some(made) => Ok(shorter(Some(lines), made)),
    }
}

/// A refutation of the clauses by the literals that the given lines suppose, or by fewer of them: each is left
/// out in turn, from the last to the first, and stays so where that has fewer hints. `budget` is how many entries
/// propagation may make.
pub fn with_fewer_lines(
    alloc: Global,
    formula: &Cnf,
    given: &Derivation,
    mut budget: u32,
) -> Result<Option<Derivation>, NoMemory> {
    let all = supposed_but(alloc, given, usize::MAX)?;
    let mut best = by_literals(alloc, formula, all.as_slice(), 1, &mut budget)?;
    let count = given.as_slice().len();
    for turn in 0..count {
        let Some(lines) = best else {
            return Ok(None);
        };
        best = without(
            alloc,
            formula,
            lines,
            count.saturating_sub(turn).saturating_sub(1),
            &mut budget,
        )?;
    }
    Ok(best)
}
