//! Four clauses over two variables that no assignment satisfies, and proofs of it, right and wrong.

ghost use Rattle.std.specs.Prelude.{◌≡◌, IsTrue, IfOk, OnOk};
ghost use Rattle.std.specs.List.{list_all};
ghost use Rattle.lrat_check.specs.Ranges.{has_next};

use crate::lists_by_numbers::{is_clause, list, literal, square};
use cnf::{Clauses, Derivation, Ids, Line, LineFault, Lits, Step};
use lists::NoMemory;
use lrat_check::{CheckFault, check, trim};
use std::alloc::Global;
use std::test::Fail;

/// A line: its number, its id, its clause and its hints; or, under id 0, the ids of clauses that it takes
/// away, in the place of the hints.
type Row = (u16, u64, &'static [i32], &'static [u64]);

/// Proofs over the square, and the line and the fault at which each is refused, if it is.
static PROOFS: [(&[Row], Option<(u32, LineFault)>); 15] = [
    (&[(1, 5, &[2], &[1, 2]), (2, 6, &[], &[5, 3, 4])], None),
    // A true hint is skipped.
    (&[(1, 5, &[2], &[1, 2]), (2, 6, &[], &[5, 1, 3, 4])], None),
    // A removed clause is no hint.
    (
        &[
            (1, 5, &[2], &[1, 2]),
            (2, 0, &[], &[1, 9, 0]),
            (3, 6, &[], &[5, 1, 4]),
        ],
        Some((3, LineFault::Hint(1))),
    ),
    // Nor is a removed line.
    (
        &[
            (1, 7, &[2], &[1, 2]),
            (2, 9, &[1, -1], &[]),
            (4, 12, &[1], &[7, 3]),
            (5, 0, &[], &[7]),
            (6, 13, &[], &[12, 2, 7, 4]),
        ],
        Some((6, LineFault::Hint(7))),
    ),
    // Each line has its answer.
    (&[(1, 5, &[], &[1, 2])], Some((1, LineFault::NotUnit(1)))),
    (&[(1, 5, &[2], &[1])], Some((1, LineFault::NoConflict))),
    (&[(1, 5, &[2], &[1, 2])], Some((2, LineFault::NotEmpty))),
    (&[(1, 5, &[1, -1], &[])], Some((2, LineFault::NotEmpty))),
    // The id is asked before all else.
    (&[(1, 4, &[2], &[1, 2])], Some((1, LineFault::Id))),
    (&[(1, 4, &[2], &[9])], Some((1, LineFault::Id))),
    (&[(1, 4, &[1, -1], &[])], Some((1, LineFault::Id))),
    // An id returns neither where a clause of the input was taken away under it, nor where a line was.
    (
        &[
            (1, 5, &[2], &[1, 2]),
            (2, 0, &[], &[4, 5]),
            (3, 4, &[2], &[1, 2]),
        ],
        Some((3, LineFault::Id)),
    ),
    (
        &[
            (1, 5, &[2], &[1, 2]),
            (2, 0, &[], &[4, 5]),
            (3, 5, &[2], &[1, 2]),
        ],
        Some((3, LineFault::Id)),
    ),
    (
        &[
            (1, 5, &[2], &[1, 2]),
            (2, 0, &[], &[4, 5]),
            (3, 6, &[2], &[1, 2]),
        ],
        Some((4, LineFault::NotEmpty)),
    ),
    (&[], Some((1, LineFault::NotEmpty))),
];

/// Other clauses, and proofs of one line over them.
static LINES: [(&[i32], Row, Option<(u32, LineFault)>); 3] = [
    // An empty clause is false, and ends the hints.
    (&[1, 0, 0], (1, 3, &[], &[2, 9]), None),
    // A literal counts once, and its opposite is another.
    (&[1, 1, 0, -1, 0], (1, 3, &[], &[1, 2]), None),
    (
        &[1, -1, 0],
        (1, 2, &[], &[1]),
        Some((1, LineFault::NotUnit(1))),
    ),
];

/// A proof with lines and hints that it does not need.
static ROUNDABOUT: [Row; 6] = [
    (1, 7, &[2], &[1, 2]),
    (2, 9, &[1, -1], &[99]),
    (4, 12, &[1], &[7, 3]),
    (5, 0, &[], &[12]),
    (6, 13, &[], &[7, 1, 3, 4, 88]),
    (7, 2, &[], &[]),
];

// Each table is handed out as a slice, so that the proof of a test need not read it.
fn proofs() -> &'static [(&'static [Row], Option<(u32, LineFault)>)] {
    &PROOFS
}

fn one_line_proofs() -> &'static [(&'static [i32], Row, Option<(u32, LineFault)>)] {
    &LINES
}

fn roundabout() -> &'static [Row] {
    &ROUNDABOUT
}

/// A line.
fn line(alloc: Global, row: Row) -> Result<Line, NoMemory>
    ensures { IfOk result (λ line. IsTrue (has_next line)) }
{
    let (at, id, numbers, by) = row;
    let at = at as u32;
    let mut hints = Ids::new(alloc);
    hints.append(by)?;
    if id == 0 {
        let step = Step::Drop { ids: hints };
        return Ok(Line { at, step });
    }
    let mut clause = Lits::new(alloc);
    for number in numbers {
        clause.push(literal(*number, 9))?;
    }
    let step = Step::Add { id, clause, hints };
    Ok(Line { at, step })
}

/// Lines.
fn lines(alloc: Global, rows: &[Row]) -> Result<Derivation, NoMemory>
    ensures { IfOk result (λ lines. IsTrue (list_all has_next lines)) }
{
    let mut lines = Derivation::new(alloc);
    for row in rows {
        let line = line(alloc, *row)?;
        lines.push(line)?;
    }
    Ok(lines)
}

/// The first faulty line and its fault, of these lines over clauses of these numbers.
fn first_fault(
    alloc: Global,
    numbers: &[i32],
    rows: &[Row],
) -> Result<Option<(u32, LineFault)>, Fail> {
    let clauses = list(alloc, numbers)?;
    let lines = lines(alloc, rows)?;
    match check(alloc, &clauses, &lines) {
        Ok(()) => Ok(None),
        Err(CheckFault::Line { at, fault }) => Ok(Some((at, fault))),
        Err(CheckFault::NoMemory) => Err(Fail::from(NoMemory)),
    }
}

#[test]
fn first_faulty_lines_are_found(rt: HostRuntime) -> Result<(), Fail> {
    for (rows, wanted) in proofs() {
        assert!(rt; first_fault(rt.alloc(), square(), rows)? == *wanted);
    }
    for (numbers, row, wanted) in one_line_proofs() {
        assert!(rt; first_fault(rt.alloc(), numbers, [*row].as_slice())? == *wanted);
    }
    Ok(())
}

/// Whether a line adds this clause under this id, by these hints.
fn adds(line: &Line, number: u64, literals: &[i32], by: &[u64]) -> bool {
    match &line.step {
        Step::Add { id, clause, hints } => {
            *id == number && is_clause(clause.as_slice(), literals) && hints.as_slice() == by
        }
        Step::Drop { .. } => false,
    }
}

/// Whether the lines are the right ones of the square.
fn are_right(lines: &Derivation) -> bool {
    let [first, last] = lines.as_slice() else {
        return false;
    };
    adds(first, 5, &[2], &[1, 2]) && adds(last, 6, &[], &[5, 3, 4])
}

/// The trimmed lines of some rows over the square.
fn trimmed(alloc: Global, clauses: &Clauses, rows: &[Row]) -> Result<Derivation, Fail>
    ensures { IfOk result (λ lines. IsTrue (list_all has_next lines)) }
{
    let lines = lines(alloc, rows)?;
    if lines.len() > 9 || check(alloc, clauses, &lines).is_err() {
        return Err(Fail::from("check"));
    }
    Ok(trim(alloc, clauses, &lines)?)
}

#[test]
fn a_trimmed_proof_has_what_is_needed(rt: HostRuntime) -> Result<(), Fail> {
    let clauses = list(rt.alloc(), square())?;
    let lines = trimmed(rt.alloc(), &clauses, roundabout())?;
    let accepted = check(rt.alloc(), &clauses, &lines).is_ok();
    assert!(rt; accepted && are_right(&lines));
    Ok(())
}
