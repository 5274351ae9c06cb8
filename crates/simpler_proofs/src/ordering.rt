//! A refutation with the hints of its lines in another order.

ghost use Rattle.std.specs.Prelude.{◌≡◌, IfOk, IsTrue, IsPermutation};
ghost use Rattle.simpler_proofs.specs.Made.{HasHintsOf, AreReordered, IsProof};

use crate::made::{FewLines, MOST_LINES, Numbered, finish};
use crate::rebuilding::add_line;
use cnf::{Clauses, Derivation, Line, Step};
use line_hints::{Sources, clause_of_line, hints_in_turn};
use lists::{Items, NoMemory};
use renumbering::are_same;
use std::alloc::Global;

/// The ids in rising order.
fn sorted(alloc: Global, ids: &[u64]) -> Result<Vec<u64>, NoMemory>
    ensures { IfOk result (λ sorted. IsPermutation ids.now sorted.items) }
{
    let mut rising = Vec::new(alloc);
    rising.extend_from_slice(ids)?;
    rising.sort_unstable();
    Ok(rising)
}

/// Whether two lists have the same ids in the same order.
fn are_equal(left: &[u64], right: &[u64]) -> bool
    ensures { IsTrue result → left.now ≡ right.now }
{
    if left.len() != right.len() {
        return false;
    }
    for i in 0..left.len() {
        if left[i] != right[i] {
            return false;
        }
    }
    true
}

/// Whether two lists have the same ids in some order.
fn have_same_ids(alloc: Global, left: &[u64], right: &[u64]) -> Result<bool, NoMemory>
    ensures { IfOk result (λ same. IsTrue same → IsPermutation left.now right.now) }
{
    let first = sorted(alloc, left)?;
    let second = sorted(alloc, right)?;
    Ok(are_equal(first.as_slice(), second.as_slice()))
}

/// Whether a step adds the clause of another under its id, by the other's hints in some order.
fn has_hints_of(alloc: Global, given: &Step, step: &Step) -> Result<bool, NoMemory>
    ensures { IfOk result (λ same. IsTrue same → HasHintsOf given.now step.now) }
{
    match given {
        Step::Drop { .. } => Ok(false),
        Step::Add { id, clause, hints } => match step {
            Step::Drop { .. } => Ok(false),
            Step::Add {
                id: number,
                clause: other,
                hints: order,
            } => {
                if *id != *number || !are_same(clause.as_slice(), other.as_slice()) {
                    return Ok(false);
                }
                let same = have_same_ids(alloc, hints.as_slice(), order.as_slice())?;
                Ok(same)
            }
        },
    }
}

/// Whether lines are other ones with their hints in some order.
fn are_reordered(alloc: Global, given: &Derivation, lines: &Derivation) -> Result<bool, NoMemory>
    ensures { IfOk result (λ same. IsTrue same → AreReordered given.now lines.now) }
{
    if given.len() != lines.len() {
        return Ok(false);
    }
    for k in 0..given.len() {
        if !has_hints_of(alloc, &given.get(k).step, &lines.get(k).step)? {
            return Ok(false);
        }
    }
    Ok(true)
}

/// The lines with their hints in turn.
fn in_turn(
    alloc: Global,
    clauses: &Clauses,
    variables: u32,
    given: &FewLines,
) -> Result<Numbered, NoMemory> {
    let lines = given.lines;
    let mut sources = Sources::new(alloc, variables)?;
    let mut made = Numbered {
        lines: Items::new(alloc),
    };
    for k in 0..lines.len() {
        let hints = hints_in_turn(alloc, clauses, &lines[..k], &lines[k], &mut sources)?;
        let mut clause = Items::new(alloc);
        clause.append(clause_of_line(&lines[k]))?;
        add_line(clauses, clause, hints, &mut made)?;
    }
    Ok(made)
}

/// A refutation with the hints of each line in an order in which those of one axiom stand together, where what
/// follows from what allows it, and those that don't rest on what the line supposes come first. `variables` is
/// at least the greatest variable of a clause or a line, else the hints may stay in their order. So they do in
/// a refutation of more than 999,998 lines.
#[tactic(auto, using(crate::proofs::Reordering::same_order))]
pub fn ordered(
    alloc: Global,
    clauses: &Clauses,
    variables: u32,
    given: Derivation,
) -> Result<Derivation, NoMemory>
    requires proof { IsProof clauses.now.clauses given }
    ensures proof { IfOk result (IsProof clauses.now.clauses) }
    ensures reordered { IfOk result (AreReordered given) }
{
    if given.len() > MOST_LINES {
        return Ok(given);
    }
    let few = FewLines {
        lines: given.as_slice(),
    };
    let numbered = in_turn(alloc, clauses, variables, &few)?;
    match finish(alloc, clauses, &numbered)? {
        None => Ok(given),
        Some(made) => {
            if are_reordered(alloc, &given, &made)? {
                Ok(made)
            } else {
                Ok(given)
            }
        }
    }
}
