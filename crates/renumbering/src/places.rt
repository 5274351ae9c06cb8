//! Clauses found in another list.

ghost use Rattle.std.specs.Prelude.{◌≡◌, ◌≢◌, ◌≤◌, ◌<◌, ℕ, length, slice_get, slice_index_or, false, Some, IfOk, MatchOption, IsTrue, IsFalse};
ghost use Rattle.cnf.specs.Sat.{same_lit};
ghost use Rattle.renumbering.specs.Renumbered.{ArePlacesUpTo, IsClausePlace};

use cnf::{Clauses, Lit};
use lists::NoMemory;
use std::alloc::Global;

fn is_same(left: Lit, right: Lit) -> bool
    ensures { result ≡ same_lit left right }
{
    left.variable() == right.variable() && left.positive() == right.positive()
}

/// Whether two clauses have the same literals in the same order.
pub fn are_same(left: &[Lit], right: &[Lit]) -> bool
    ensures same { IsTrue result → left.now ≡ right.now }
    ensures differ { IsFalse result → left.now ≢ right.now }
{
    if left.len() != right.len() {
        return false;
    }
    for i in 0..left.len() {
        if !is_same(left[i], right[i]) {
            return false;
        }
    }
    true
}

/// The first place of a clause in a list, from one place up to another.
fn find_between(list: &Clauses, clause: &[Lit], from: u32, to: u32) -> Option<u32>
    requires within { to ≤ length list.now.clauses }
    ensures { MatchOption result
        ((k : ℕ) → from ≤ k → k < to → slice_get list.now.clauses k ≢ Some clause.now)
        (λ k. slice_get list.now.clauses k ≡ Some clause.now) }
{
    for k in from..to {
        if are_same(list.get(k), clause) {
            return Some(k);
        }
    }
    None
}

/// A place of a clause that stands in a list: the first one from a place on, or, where there is none, the
/// first of all.
fn find(list: &Clauses, clause: &[Lit], from: u32) -> u32
    requires within { from ≤ length list.now.clauses }
    requires stands { (k : ℕ) × (slice_get list.now.clauses k ≡ Some clause.now) }
    ensures { slice_get list.now.clauses result ≡ Some clause.now }
{
    match find_between(list, clause, from, list.len()) {
        Some(k) => k,
        None => find_between(list, clause, 0, from).unwrap(),
    }
}

/// The places in another list of the clauses whose flags are up. Those of the others say nothing. Where the
/// clauses stand in one order in both lists, each is found after the one before it.
pub fn places_of(
    alloc: Global,
    old: &Clauses,
    new: &Clauses,
    flags: &[bool],
) -> Result<Vec<u32>, NoMemory>
    requires count { length flags.now ≡ length old.now.clauses }
    requires stand { (j : ℕ) → j < length old.now.clauses → IsTrue (slice_index_or flags.now j false) →
        (place : ℕ) × IsClausePlace old.now.clauses new.now.clauses j place }
    ensures { IfOk result (λ places.
        ArePlacesUpTo old.now.clauses new.now.clauses flags.now (length old.now.clauses) places.items) }
{
    // Its contract says that a list has at most 4,000,000 clauses.
    let _few = new.len();
    let mut places = Vec::new(alloc);
    let mut next = 0;
    for j in 0..old.len() {
        if flags[j as usize] {
            let place = find(new, old.get(j), next);
            places.push(place)?;
            next = place + 1;
        } else {
            places.push(0)?;
        }
    }
    Ok(places)
}
