//! Clause lists whose simpler proofs are known.

ghost use Rattle.std.specs.Prelude.{All, IfOk, IsTrue};
ghost use Rattle.cnf.specs.Fresh.{AreOver, is_over};
ghost use Rattle.propagate.specs.Values.{StaysWithin};

use crate::lists_by_numbers::{list, literal, pigeons, square};
use cnf::{Clauses, Derivation, Ids, Line, Lits, Step};
use lists::Items;
use propagate::stay_within;
use simpler_proofs::{by_failed_literals, simplify, vivify};
use std::alloc::Global;
use std::test::Fail;

/// The clause of some numbers.
fn clause_of(alloc: Global, numbers: &[i32]) -> Result<Lits, Fail>
    ensures { IfOk result (λ clause. IsTrue (is_over 12 clause)) }
{
    let mut clause = Items::new(alloc);
    for number in numbers {
        clause.push(literal(*number, 12))?;
    }
    Ok(clause)
}

/// Lines that add the clauses of some numbers, without hints.
fn lines_of(alloc: Global, rows: &[&[i32]]) -> Result<Derivation, Fail>
    ensures { IfOk result (AreOver 12) }
{
    let mut lines = Items::new(alloc);
    for row in rows {
        let clause = clause_of(alloc, row)?;
        let step = Step::Add {
            id: 1,
            clause,
            hints: Ids::new(alloc),
        };
        lines.push(Line { at: 1, step })?;
    }
    Ok(lines)
}

/// How many literals each line adds, as digits of a number behind a 1; 0 where there is no proof.
fn shape(made: &Option<Derivation>) -> usize {
    let Some(lines) = made else {
        return 0;
    };
    let mut digits: usize = 1;
    for line in lines.as_slice() {
        if let Step::Add { clause, .. } = &line.step {
            digits = digits.saturating_mul(10).saturating_add(clause.len());
        }
    }
    digits
}

/// The clauses of some numbers, where they are over 12 variables.
fn narrow(alloc: Global, numbers: &[i32]) -> Result<Clauses, Fail>
    ensures { IfOk result (λ list. All (StaysWithin 12) list.clauses) }
{
    let clauses = list(alloc, numbers)?;
    if stay_within(&clauses, 12) {
        return Ok(clauses);
    }
    Ok(Clauses::new(alloc))
}

/// The proof by failed literals of the clauses of some numbers.
fn failed(alloc: Global, numbers: &[i32], first: u32, mut budget: u32) -> Result<usize, Fail> {
    let clauses = narrow(alloc, numbers)?;
    let made = by_failed_literals(alloc, &clauses, 12, first, &mut budget)?;
    Ok(shape(&made))
}

/// The eight clauses over three variables: no literal of them fails.
static CUBE: [i32; 32] = [
    1, 2, 3, 0, 1, 2, -3, 0, 1, -2, 3, 0, 1, -2, -3, 0, -1, 2, 3, 0, -1, 2, -3, 0, -1, -2, 3, 0,
    -1, -2, -3, 0,
];

/// The sixteen clauses over four variables: no two literals of them are refuted together.
static HYPERCUBE: [i32; 80] = [
    1, 2, 3, 4, 0, 1, 2, 3, -4, 0, 1, 2, -3, 4, 0, 1, 2, -3, -4, 0, 1, -2, 3, 4, 0, 1, -2, 3, -4,
    0, 1, -2, -3, 4, 0, 1, -2, -3, -4, 0, -1, 2, 3, 4, 0, -1, 2, 3, -4, 0, -1, 2, -3, 4, 0, -1, 2,
    -3, -4, 0, -1, -2, 3, 4, 0, -1, -2, 3, -4, 0, -1, -2, -3, 4, 0, -1, -2, -3, -4, 0,
];

/// The clauses of the cube, and the four over two further variables, whose literals fail.
static CUBE_AND_SQUARE: [i32; 44] = [
    1, 2, 3, 0, 1, 2, -3, 0, 1, -2, 3, 0, 1, -2, -3, 0, -1, 2, 3, 0, -1, 2, -3, 0, -1, -2, 3, 0,
    -1, -2, -3, 0, 5, 6, 0, -5, 6, 0, 5, -6, 0, -5, -6, 0,
];

/// Over the variables 1 to 4 and 7 to 9, implications that refute either sign of 1 by long ways, and over 5
/// and 6 four clauses that refute either sign at once.
static LONG_AND_SHORT: [i32; 36] = [
    -1, 2, 0, -2, 3, 0, -3, 4, 0, -4, -1, 0, 1, 7, 0, -7, 8, 0, -8, 9, 0, -9, 1, 0, 5, 6, 0, -5, 6,
    0, 5, -6, 0, -5, -6, 0,
];

/// -2 follows by -1 and two clauses, and by three without -1; and -4 by -3 and two, or by three without -3. With
/// -2 and -4 two clauses refute. Each of eight orders over 12 variables tries 1 before 2, or 3 before 4.
static ONE_LINE_TOO_MANY: [i32; 54] = [
    -1, 5, 0, -1, -5, 0, -2, 1, 6, 0, -2, 1, -6, 0, -2, 7, 0, -7, 8, 0, -8, -2, 0, -3, 5, 0, -3,
    -5, 0, -4, 3, 6, 0, -4, 3, -6, 0, -4, 9, 0, -9, 10, 0, -10, -4, 0, 2, 4, 11, 0, 2, 4, -11, 0,
];

/// 9 forces 1, 2 and 10, then 1 and 2 force 3, and 10 forces 11; 3 and 11 force 12, which fails. But 11 forces 3
/// too. Each of eight orders over 12 variables tries 9 before 10 to 12. With -9 four clauses are left, in which
/// 5 fails.
static ONE_STEP_TOO_MANY: [i32; 45] = [
    -9, 1, 0, -9, 2, 0, -9, 10, 0, -1, -2, 3, 0, -10, 11, 0, -11, 3, 0, -3, -11, 12, 0, -12, 4, 0,
    -12, -4, 0, 9, 5, 6, 0, 9, 5, -6, 0, 9, -5, 6, 0, 9, -5, -6, 0,
];

// Each list is handed out as a slice, so that the proof of a test need not read it.
fn cube() -> &'static [i32] {
    &CUBE
}

fn hypercube() -> &'static [i32] {
    &HYPERCUBE
}

fn cube_and_square() -> &'static [i32] {
    &CUBE_AND_SQUARE
}

fn long_and_short() -> &'static [i32] {
    &LONG_AND_SHORT
}

fn one_line_too_many() -> &'static [i32] {
    &ONE_LINE_TOO_MANY
}

fn one_step_too_many() -> &'static [i32] {
    &ONE_STEP_TOO_MANY
}

#[test]
fn failed_literals_refute_one_at_a_time(rt: HostRuntime) -> Result<(), Fail> {
    let alloc = rt.alloc();
    let found = [
        failed(alloc, square(), 0, 100)?,
        failed(alloc, square(), 11, 100)?,
        failed(alloc, square(), 13, 100)?,
        failed(alloc, &[1, 0, -1, 2, 0, -2, 0], 0, 100)?,
        failed(alloc, &[1, 0, 0], 0, 100)?,
    ];
    assert!(rt; found == [110, 110, 110, 10, 10]);
    Ok(())
}

#[test]
fn where_no_literal_fails_there_is_none(rt: HostRuntime) -> Result<(), Fail> {
    let alloc = rt.alloc();
    let found = [
        failed(alloc, cube(), 0, 1000)?,
        failed(alloc, pigeons(), 0, 10000)?,
        failed(alloc, &[1, 2, 0, -1, 2, 0], 0, 100)?,
        failed(alloc, &[], 0, 100)?,
        failed(alloc, square(), 0, 0)?,
    ];
    assert!(rt; found == [0, 0, 0, 0, 0]);
    Ok(())
}

/// What vivification leaves of some clauses over the cube.
fn vivified(alloc: Global, rows: &[&[i32]], budget: u32) -> Result<usize, Fail> {
    let clauses = narrow(alloc, cube())?;
    let given = lines_of(alloc, rows)?;
    let made = vivify(alloc, &clauses, 12, &given, budget)?;
    Ok(shape(&made))
}

// The literal 4 plays no part. Once 1 is learned, -1 is false at level 0.
#[test]
fn literals_that_play_no_part_are_left_out(rt: HostRuntime) -> Result<(), Fail> {
    let alloc = rt.alloc();
    let rows: [&[i32]; 3] = [&[4, 1, 2], &[4, 1], &[-1, 2, 4]];
    let found = [
        vivified(alloc, &rows, 1000)?,
        vivified(alloc, &rows, 0)?,
        vivified(alloc, &[&[4, 1, 2]], 1000)?,
    ];
    assert!(rt; found == [12110, 0, 0]);
    Ok(())
}

/// The simpler proof of some clauses, where the given one has these.
fn simplified(alloc: Global, numbers: &[i32], rows: &[&[i32]]) -> Result<usize, Fail> {
    let clauses = narrow(alloc, numbers)?;
    let given = lines_of(alloc, rows)?;
    let made = simplify(alloc, &clauses, 12, &given)?;
    Ok(shape(&made))
}

// The lines of the cube would do for the second list too, but failed literals refute it; and what two together
// refute needs no lines.
#[test]
fn what_failed_literals_leave_is_refuted_under_two(rt: HostRuntime) -> Result<(), Fail> {
    let alloc = rt.alloc();
    let rows: [&[i32]; 3] = [&[1, 2, 4], &[1, 4], &[2, 4, -1]];
    let found = [
        simplified(alloc, cube(), &rows)?,
        simplified(alloc, cube_and_square(), &rows)?,
        simplified(alloc, cube(), &[])?,
        simplified(alloc, pigeons(), &[])?,
    ];
    assert!(rt; found == [12110, 110, 12110, 1211110]);
    Ok(())
}

// Over four variables no two literals together are refuted. 12 plays no part.
#[test]
fn what_two_literals_leave_is_vivified(rt: HostRuntime) -> Result<(), Fail> {
    let alloc = rt.alloc();
    let rows: [&[i32]; 7] = [
        &[1, 2, 3, 12],
        &[1, 2, 12],
        &[1, -2, 3, 12],
        &[1, 12],
        &[2, 3, 12],
        &[2, 12],
        &[3, 12],
    ];
    let found = [
        simplified(alloc, hypercube(), &rows)?,
        simplified(alloc, hypercube(), &[])?,
    ];
    assert!(rt; found == [132212110, 0]);
    Ok(())
}

/// How many hints the lines have.
fn hints_in(lines: &Derivation) -> usize {
    let mut count: usize = 0;
    for line in lines.as_slice() {
        if let Step::Add { hints, .. } = &line.step {
            count = count.saturating_add(hints.len());
        }
    }
    count
}

/// How many hints the proof by failed literals has that begins at a variable; and that of the simpler
/// proof.
fn hints_from(alloc: Global, numbers: &[i32], first: u32) -> Result<usize, Fail> {
    let clauses = narrow(alloc, numbers)?;
    let mut budget = 1000;
    let made = by_failed_literals(alloc, &clauses, 12, first, &mut budget)?.ok_or("a proof")?;
    Ok(hints_in(&made))
}

fn hints_of_simpler(alloc: Global, numbers: &[i32]) -> Result<usize, Fail> {
    let clauses = narrow(alloc, numbers)?;
    let given = lines_of(alloc, &[])?;
    let made = simplify(alloc, &clauses, 12, &given)?.ok_or("a proof")?;
    Ok(hints_in(&made))
}

/// The fewest hints of a proof by failed literals, of the orders that `simplify` tries.
fn fewest_in_turn(alloc: Global, numbers: &[i32]) -> Result<usize, Fail> {
    let mut fewest = usize::MAX;
    for first in 0..8 {
        fewest = fewest.min(hints_from(alloc, numbers, first)?);
    }
    Ok(fewest)
}

// The order that begins at the first variable has more hints, and so has the last one.
#[test]
fn the_proof_with_the_fewest_hints_is_taken(rt: HostRuntime) -> Result<(), Fail> {
    let alloc = rt.alloc();
    let fewest = fewest_in_turn(alloc, long_and_short())?;
    let simpler = hints_of_simpler(alloc, long_and_short())?;
    assert!(rt; simpler == fewest);
    let ends = [
        hints_from(alloc, long_and_short(), 0)?,
        hints_from(alloc, long_and_short(), 7)?,
    ];
    assert!(rt; fewest < ends[0] && fewest < ends[1]);
    Ok(())
}

// The order that begins at 2 has the fewest hints, 3 for -2, 2 for -3, 3 for -4 and 4 at the end. The line of -3
// is left out, and -4 then takes 3.
#[test]
fn a_line_that_others_make_needless_is_left_out(rt: HostRuntime) -> Result<(), Fail> {
    let alloc = rt.alloc();
    let fewest = fewest_in_turn(alloc, one_line_too_many())?;
    let simpler = hints_of_simpler(alloc, one_line_too_many())?;
    assert!(rt; fewest == 12);
    assert!(rt; simpler == 10);
    assert!(rt; simplified(alloc, one_line_too_many(), &[])? == 1110);
    Ok(())
}

// Each order has 8 hints for -9, 3 for -5 and 4 at the end. Without 1 and 2 there are 6 for -9.
#[test]
fn a_literal_that_a_line_need_not_force_is_left_out(rt: HostRuntime) -> Result<(), Fail> {
    let alloc = rt.alloc();
    let fewest = fewest_in_turn(alloc, one_step_too_many())?;
    let simpler = hints_of_simpler(alloc, one_step_too_many())?;
    assert!(rt; fewest == 15);
    assert!(rt; simpler == 13);
    Ok(())
}
