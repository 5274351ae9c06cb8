//! Clauses by the numbers of their literals.

ghost use Rattle.std.specs.Prelude.{◌≤◌};

use cnf::{Clauses, Lit};
use lists::Items;
use std::alloc::Global;
use std::test::Fail;

/// The literal of a number, which is negative where the literal is; of 0, and of a number beyond `most`,
/// that of 1.
pub fn literal(number: i32, most: u32) -> Lit
    requires some { 1 ≤ most }
    requires few { most ≤ 1000 }
    ensures least { 1 ≤ result.variable }
    ensures most { result.variable ≤ most }
{
    let variable = number.unsigned_abs();
    if variable == 0 || variable > most {
        return Lit::new(1, number > 0);
    }
    Lit::new(variable, number > 0)
}

/// The greatest variable of a list.
const MOST: u32 = 999;

/// The clauses of some numbers, of which 0 ends a clause.
pub fn list(alloc: Global, numbers: &[i32]) -> Result<Clauses, Fail> {
    let mut clauses = Clauses::new(alloc);
    let mut clause = Items::new(alloc);
    for number in numbers {
        if *number == 0 {
            clauses.push(clause.as_slice(), 0)?;
            clause = Items::new(alloc);
        } else {
            clause.push(literal(*number, MOST))?;
        }
    }
    Ok(clauses)
}

/// Whether a clause has the literals of these numbers, in their order.
pub fn is_clause(clause: &[Lit], numbers: &[i32]) -> bool {
    if clause.len() != numbers.len() {
        return false;
    }
    for (lit, number) in clause.iter().zip(numbers) {
        if *lit != literal(*number, MOST) {
            return false;
        }
    }
    true
}

/// The four clauses over two variables, which no assignment satisfies.
static SQUARE: [i32; 12] = [1, 2, 0, -1, 2, 0, 1, -2, 0, -1, -2, 0];

/// Four pigeons in three holes: each has a hole, and no two have the same.
static PIGEONS: [i32; 70] = [
    1, 2, 3, 0, 4, 5, 6, 0, 7, 8, 9, 0, 10, 11, 12, 0, -1, -4, 0, -1, -7, 0, -1, -10, 0, -4, -7, 0,
    -4, -10, 0, -7, -10, 0, -2, -5, 0, -2, -8, 0, -2, -11, 0, -5, -8, 0, -5, -11, 0, -8, -11, 0,
    -3, -6, 0, -3, -9, 0, -3, -12, 0, -6, -9, 0, -6, -12, 0, -9, -12, 0,
];

// Each list is handed out as a slice, so that the proof of a test need not read it.
pub fn square() -> &'static [i32] {
    &SQUARE
}

pub fn pigeons() -> &'static [i32] {
    &PIGEONS
}
