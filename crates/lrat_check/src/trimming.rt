//! The trimmed derivation.

ghost use Rattle.std.specs.Prelude.{◌≡◌, ◌<◌, ◌≤◌, ◌+◌, ◌-◌, ◌^◌, ℕ, Bool, length, slice_index_or, IfOk, IsTrue};
ghost use Rattle.std.specs.List.{list_all};
ghost use Rattle.cnf.specs.Sat.{Clause};
ghost use Rattle.cnf.specs.Derived.{IsAccepted};
ghost use Rattle.cnf.specs.Trimmed.{is_cited_in, is_trimmed};
ghost use Rattle.lrat_check.specs.Trim.{trimmed};
ghost use Rattle.cnf.specs.declared.derivations.Line.{Line};
ghost use Rattle.cnf.specs.Fresh.{added_by};
ghost use Rattle.lrat_check.specs.Ranges.{has_next};

use crate::collect::collect;
use crate::keep::keep_lines;
use crate::laws::trimmed_has_form;
use crate::marks::Marks;
use crate::needs::no_needs;
use crate::places::start;
use crate::ranges::{of_clauses, of_lines};
use crate::renumber::renumber;
use cnf::laws::trimmed_is_accepted;
use cnf::{Clauses, Derivation};
use lists::NoMemory;
use std::alloc::Global;

/// The lines of an accepted derivation that its empty clause needs, each with the hints that it needs,
/// numbered after the clauses; or `NoMemory`. It is accepted and has no more lines. Whatever each added
/// clause of the given one passes, each clause of the result passes, so that it has no variable that the
/// given one lacks; and it cites no other clause of the input.
pub fn trim(
    alloc: Global,
    clauses: &Clauses,
    derivation: &Derivation,
) -> Result<Derivation, NoMemory>
    requires accepted { IsAccepted clauses.now.clauses derivation.now }
    requires few { length derivation.now < 2 ^ 32 - 1 }
    ensures form { IfOk result (λ made. IsTrue (is_trimmed clauses.now.clauses made)) }
    ensures accepted { IfOk result (λ made. IsAccepted clauses.now.clauses made) }
    ensures no_new { IfOk result (λ made. (test : Clause → Bool) →
        IsTrue (list_all (λ l. test (added_by l.step)) derivation.now) →
        IsTrue (list_all (λ l. test (added_by l.step)) made)) }
    ensures no_new_hint { IfOk result (λ made. (id : ℕ) → id ≤ length clauses.now.clauses →
        IsTrue (is_cited_in made id) → IsTrue (is_cited_in derivation.now id)) }
    ensures no_more { IfOk result (λ made. length made ≤ length derivation.now) }
    ensures numbered { IfOk result (λ made. (k : ℕ) (line : Line) → k < length made →
        (slice_index_or made k line).at ≡ k + 1) }
    ensures next { IfOk result (λ made. IsTrue (list_all has_next made)) }
    ensures value { IfOk result (λ made. made ≡ trimmed clauses.now.clauses derivation.now) }
{
    trimmed_has_form();
    trimmed_is_accepted();
    trim_lines(alloc, clauses, derivation)
}

fn trim_lines(
    alloc: Global,
    clauses: &Clauses,
    derivation: &Derivation,
) -> Result<Derivation, NoMemory>
    requires accepted { IsAccepted clauses.now.clauses derivation.now }
    requires few { length derivation.now < 2 ^ 32 - 1 }
    ensures { IfOk result (λ made. made ≡ trimmed clauses.now.clauses derivation.now) }
{
    let variables = of_lines(of_clauses(clauses), derivation);
    let mut marks = Marks::new(alloc, variables)?;
    let mut needs = no_needs(alloc, variables)?;
    let mut places = start(alloc, clauses.len())?;
    let hints = collect(
        alloc,
        clauses,
        derivation,
        &mut places,
        &mut marks,
        &mut needs,
    )?;
    let mut keep = vec![in alloc; false; places.ids.len()]?;
    keep_lines(
        places.ids.as_slice(),
        clauses.len(),
        hints.as_slice(),
        &mut keep,
    );
    renumber(
        alloc,
        derivation,
        &places,
        clauses.len(),
        hints.as_slice(),
        keep.as_slice(),
    )
}
