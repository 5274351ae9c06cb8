//! Clauses that leave out one assignment.

ghost use Rattle.std.specs.Prelude.{◌≡◌, ◌<◌, ◌^◌, length, IfOk};
ghost use Rattle.cnf.specs.Assignment.{value_of};
ghost use Rattle.rule_lists.specs.Finding.{denial};

use cnf::{Bits, Lit};
use lists::NoMemory;
use std::alloc::Global;

/// The clause that is false under these truth values of so many variables, and under no others.
pub(crate) fn denial_of(alloc: Global, bits: &Bits, count: u32) -> Result<Vec<Lit>, NoMemory>
    requires few { count < 2 ^ 31 }
    requires all { length bits.now ≡ count }
    ensures { IfOk result (λ clause. clause.items ≡ denial (value_of bits.now) count) }
{
    let mut clause = Vec::new(alloc);
    for i in 0..count {
        let value = bits.get(i + 1);
        clause.push(Lit::new(i + 1, !value))?;
    }
    Ok(clause)
}
