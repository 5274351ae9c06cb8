//! The clauses that hints name.

ghost use Rattle.std.specs.Prelude.{◌==◌, IfOk, length};
ghost use Rattle.std.specs.List.{list_any};
ghost use Rattle.cnf.specs.Trimmed.{is_cited_by};
ghost use Rattle.renumbering.specs.Renumbered.{AreFlags, IsFlagging};

use cnf::{Line, Step};
use lists::NoMemory;
use std::alloc::Global;

/// Puts the flag of a hint's clause up, where it is one of the input.
fn flag_hint(hint: u64, flags: &mut Vec<bool>)
    ensures { IsFlagging flags.old.items flags.new.items (λ id. hint == id) }
{
    if hint > 0 && hint - 1 < flags.len() as u64 {
        flags[(hint - 1) as usize] = true;
    }
}

/// Puts the flags of the clauses of some hints up.
fn flag_hints(hints: &[u64], flags: &mut Vec<bool>)
    ensures { IsFlagging flags.old.items flags.new.items (λ id. list_any (λ h. h == id) hints.now) }
{
    for hint in hints {
        flag_hint(*hint, flags);
    }
}

/// Puts the flags of the clauses up that the hints of a step name.
fn flag_step(step: &Step, flags: &mut Vec<bool>)
    ensures { IsFlagging flags.old.items flags.new.items (λ id. is_cited_by id step.now) }
{
    match step {
        Step::Add { hints, .. } => flag_hints(hints.as_slice(), flags),
        Step::Drop { .. } => {}
    }
}

/// A flag for each clause of the input, which is up where a hint names it.
pub fn flags_of(alloc: Global, count: u32, lines: &[Line]) -> Result<Vec<bool>, NoMemory>
    ensures { IfOk result (λ flags. AreFlags count lines.now flags.items) }
{
    let mut flags = vec![in alloc; false; count as usize]?;
    for line in lines {
        flag_step(&line.step, &mut flags);
    }
    Ok(flags)
}
