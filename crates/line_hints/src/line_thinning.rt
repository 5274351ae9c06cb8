//! The hints of a line by a shorter way to its conflict.

use crate::lines::{clause_of, clause_of_line, hints_of_line};
use crate::literal_sets::{LiteralSet, Standing, add_clause, clause_at, origin_at, service};
use crate::thinning::thin;
use crate::ways::Way;
use cnf::{Clauses, Ids, Line, Lit, Lits};
use lists::{Items, NoMemory};
use std::alloc::Global;

/// The id, among all clauses and lines, of the one under an id among a part of the clauses and the same lines.
/// The origin of a clause of the part is its number.
fn whole_id(clauses: &Clauses, part: &Clauses, id: u64) -> u64 {
    let count = u64::from(part.len());
    if id == 0 {
        return 0;
    }
    if id <= count {
        return origin_at(part, (id - 1) as u32).saturating_add(1);
    }
    (id - count).saturating_add(u64::from(clauses.len()))
}

/// The first literal of a clause that is neither known to be true nor to be false.
fn first_open(clause: &[Lit], known: &LiteralSet) -> Option<Lit> {
    for lit in clause {
        if !known.has(*lit) && !known.has(lit.opposite()) {
            return Some(*lit);
        }
    }
    None
}

/// The way that a line's hints go, from what is supposed and known on.
fn way_of(
    alloc: Global,
    clauses: &Clauses,
    part: &Clauses,
    earlier: &[Line],
    hints: &[u64],
    known: &mut LiteralSet,
) -> Result<Way, NoMemory> {
    let mut literals = Items::new(alloc);
    for hint in hints {
        if let Some(lit) = first_open(clause_of(part, earlier, *hint), known) {
            known.set(lit, true);
            literals.push(lit)?;
        }
    }
    let hints = whole_ids(alloc, clauses, part, hints)?;
    Ok(Way { literals, hints })
}

/// Adds a clause under an id, where it can be false or force something but what is supposed.
fn add_candidate(
    candidates: &mut Clauses,
    clause: &[Lit],
    id: u64,
    known: &LiteralSet,
    supposed: &LiteralSet,
) -> Result<(), NoMemory> {
    let wanted = match service(clause, known) {
        Standing::False => true,
        Standing::Forces(lit) => !supposed.has(lit),
        Standing::Rest => false,
    };
    if wanted {
        add_clause(candidates, clause, id)?;
    }
    Ok(())
}

/// The clauses of earlier lines, and those of a part of the clauses, that can serve for a way within what is
/// known. The origin of each is its id.
fn candidates(
    alloc: Global,
    clauses: &Clauses,
    part: &Clauses,
    earlier: &[Line],
    known: &LiteralSet,
    supposed: &LiteralSet,
) -> Result<Clauses, NoMemory> {
    let mut candidates = Clauses::new(alloc);
    let mut id = u64::from(clauses.len());
    for line in earlier {
        id = id.saturating_add(1);
        add_candidate(&mut candidates, clause_of_line(line), id, known, supposed)?;
    }
    for k in 0..part.len() {
        let id = origin_at(part, k).saturating_add(1);
        add_candidate(&mut candidates, clause_at(part, k), id, known, supposed)?;
    }
    Ok(candidates)
}

/// What a line supposes: the opposites of the literals of its clause.
fn suppositions(alloc: Global, line: &Line) -> Result<Lits, NoMemory> {
    let mut supposed = Items::new(alloc);
    for lit in clause_of_line(line) {
        supposed.push(lit.opposite())?;
    }
    Ok(supposed)
}

/// The hints of a line as ids among all clauses and lines.
fn whole_ids(
    alloc: Global,
    clauses: &Clauses,
    part: &Clauses,
    hints: &[u64],
) -> Result<Ids, NoMemory> {
    let mut ids = Items::with_room(alloc, hints.len())?;
    for hint in hints {
        ids.push(whole_id(clauses, part, *hint))?;
    }
    Ok(ids)
}

/// The hints of a line by a shorter way to its conflict, as ids among all clauses and lines. It takes as many
/// off the budget as the part has clauses and as there are variables, beside what the ways take.
pub fn thin_hints(
    alloc: Global,
    clauses: &Clauses,
    part: &Clauses,
    variables: u32,
    earlier: &[Line],
    line: &Line,
    budget: &mut u32,
) -> Result<Ids, NoMemory> {
    *budget = budget.saturating_sub(part.len()).saturating_sub(variables);
    if *budget == 0 {
        return whole_ids(alloc, clauses, part, hints_of_line(line));
    }
    let supposed = suppositions(alloc, line)?;
    let mut given = LiteralSet::new(alloc, variables)?;
    given.set_all(supposed.as_slice(), true);
    let mut known = LiteralSet::new(alloc, variables)?;
    known.set_all(supposed.as_slice(), true);
    let way = way_of(
        alloc,
        clauses,
        part,
        earlier,
        hints_of_line(line),
        &mut known,
    )?;
    let served = candidates(alloc, clauses, part, earlier, &known, &given)?;
    thin(alloc, &served, variables, supposed, way, budget)
}
