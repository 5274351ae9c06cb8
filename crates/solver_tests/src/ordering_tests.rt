//! Refutations of two lines, and the order in which the hints of the first come out.

ghost use Rattle.std.specs.Prelude.{◌≤◌, length, IfOk, IsTrue};
ghost use Rattle.std.specs.List.{list_all};
ghost use Rattle.lrat_check.specs.Ranges.{has_next};

use crate::lists_by_numbers::{list, literal};
use cnf::{Clauses, Derivation, Ids, Line, Lits, Step};
use lists::Items;
use lrat_check::{check, trim};
use simpler_proofs::ordered;
use std::alloc::Global;
use std::test::Fail;

/// The axiom of each clause; the clauses by numbers, of which 0 ends a clause, 1 alone as the last; the hints of
/// a line that adds -1; and the ids of these hints in their new order, as the digits of a number.
type Row = (&'static [u32], &'static [i32], &'static [u64], u64);

static ROWS: [Row; 5] = [
    // Clause 1 goes before that of the second axiom, though it needs clause 2.
    (
        &[1, 1, 2, 2, 3],
        &[-2, 3, 0, -1, 2, 0, -1, 4, 0, -3, -4, 0, 1, 0],
        &[2, 3, 1, 4],
        2134,
    ),
    // 3 and then 4 follow without 1.
    (
        &[1, 2, 1, 2, 2, 3],
        &[-1, 2, 0, 3, 0, -3, 4, 0, -2, -4, 5, 0, -5, -3, 0, 1, 0],
        &[1, 2, 3, 4, 5],
        23145,
    ),
    // Clause 3 needs one of the second axiom, and so waits until the third is done.
    (
        &[1, 2, 1, 3, 3, 4],
        &[-1, 2, 0, -1, 3, 0, -3, 4, 0, -1, 5, 0, -2, -4, -5, 0, 1, 0],
        &[2, 4, 1, 3, 5],
        12435,
    ),
    // Of one axiom the ids rise.
    (
        &[1, 1, 1, 1, 1, 1],
        &[-1, 2, 0, -1, 3, 0, -3, 4, 0, -1, 5, 0, -2, -4, -5, 0, 1, 0],
        &[4, 2, 3, 1, 5],
        12345,
    ),
    // The clause of the last hint is false, and stays the last.
    (
        &[1, 2, 2, 3],
        &[-2, -3, 0, -1, 3, 0, -1, 2, 0, 1, 0],
        &[3, 2, 1],
        231,
    ),
];

/// The clauses of some numbers, each of the axiom at its place.
fn clauses_of(alloc: Global, axioms: &[u32], numbers: &[i32]) -> Result<Clauses, Fail> {
    let plain = list(alloc, numbers)?;
    let mut clauses = Clauses::new(alloc);
    for (k, axiom) in axioms.iter().enumerate() {
        if k < plain.len() as usize {
            clauses.push(plain.get(k as u32), u64::from(*axiom) << 32)?;
        }
    }
    Ok(clauses)
}

/// A line that adds -1 by some hints, and one that adds the empty clause by it and the last of so many clauses.
fn lines(alloc: Global, count: u32, hints: &[u64]) -> Result<Derivation, Fail>
    ensures few { IfOk result (λ lines. length lines ≤ 2) }
    ensures numbers { IfOk result (λ lines. IsTrue (list_all has_next lines)) }
{
    let mut clause = Lits::new(alloc);
    clause.push(literal(-1, 1))?;
    let mut first = Ids::new(alloc);
    first.append(hints)?;
    let mut last = Ids::new(alloc);
    last.push(u64::from(count) + 1)?;
    last.push(u64::from(count))?;
    let mut lines = Items::new(alloc);
    lines.push(Line {
        at: 1,
        step: Step::Add {
            id: u64::from(count) + 1,
            clause,
            hints: first,
        },
    })?;
    lines.push(Line {
        at: 2,
        step: Step::Add {
            id: u64::from(count) + 2,
            clause: Lits::new(alloc),
            hints: last,
        },
    })?;
    Ok(lines)
}

/// The ids of the hints of the first line, as digits.
fn digits(lines: &Derivation) -> u64 {
    let mut digits: u64 = 0;
    if lines.is_empty() {
        return digits;
    }
    if let Step::Add { hints, .. } = &lines.get(0).step {
        for hint in hints.as_slice() {
            digits = digits.saturating_mul(10).saturating_add(*hint);
        }
    }
    digits
}

/// The ids of the first line's hints in their new order; 0 where the lines are not accepted.
fn order_of(alloc: Global, axioms: &[u32], numbers: &[i32], hints: &[u64]) -> Result<u64, Fail> {
    let clauses = clauses_of(alloc, axioms, numbers)?;
    let lines = lines(alloc, clauses.len(), hints)?;
    match check(alloc, &clauses, &lines) {
        Ok(()) => {
            let given = trim(alloc, &clauses, &lines)?;
            let made = ordered(alloc, &clauses, 12, given)?;
            Ok(digits(&made))
        }
        Err(_) => Ok(0),
    }
}

#[test]
fn hints_of_one_axiom_stand_together(rt: HostRuntime) -> Result<(), Fail> {
    let alloc = rt.alloc();
    for (axioms, numbers, hints, wanted) in &ROWS {
        assert!(rt; order_of(alloc, axioms, numbers, hints)? == *wanted);
    }
    Ok(())
}
