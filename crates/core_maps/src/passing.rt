//! The axioms that a rule satisfies, each clause of which is true under its bits.

ghost use Rattle.std.specs.Prelude.{◌≡◌, ◌<◌, ℕ, not, ◌&&◌, length, Some, IfOk, IsTrue};
ghost use Rattle.std.specs.List.{list_all};
ghost use Rattle.cnf.specs.Assignment.{value_of};
ghost use Rattle.cnf.specs.Fresh.{is_over};
ghost use Rattle.cnf.specs.Sat.{is_clause_true, is_satisfied};
ghost use Rattle.meaning.specs.StudyClauses.{study_clauses, clauses_for};
ghost use Rattle.meaning.specs.Variables.{variable_count};
ghost use Rattle.clause_form.specs.Cited.{is_of_axiom};
ghost use Rattle.clause_form.specs.Sources.{clauses_in};
ghost use Rattle.search_logs.specs.Spent.{all_places};
ghost use Rattle.axiom_sets.specs.Sets.{is_set};
ghost use Rattle.core_reduce.specs.Kept.{keeps};
ghost use Rattle.core_maps.specs.Asking.{is_whole_true, IsWider};

use clause_form::Ground;
use cnf::{Bits, Lit};
use core_reduce::places_kept;
use lists::NoMemory;
use meaning::Origin;
use search_logs::all_places;
use std::alloc::Global;
use vocab::{Places, Study};

/// Whether a clause is true under the bits.
fn is_true(bits: &Bits, clause: &[Lit]) -> bool
    requires { IsTrue (is_over (length bits.now) clause.now) }
    ensures { result ≡ is_clause_true (value_of bits.now) clause.now }
{
    for lit in clause {
        if bits.get(lit.variable()) == lit.positive() {
            return true;
        }
    }
    false
}

/// Says of the axiom of an origin that it is gone.
fn leave_out(gone: &mut Vec<bool>, origin: Origin)
    ensures count { length gone.new.items ≡ length gone.old.items }
    ensures flags { (a : ℕ) → a < length gone.old.items → keeps gone.new.items a ≡
        (keeps gone.old.items a && not (is_of_axiom a (Some origin))) }
{
    if let Origin::Instance { axiom: a, .. } = origin {
        if (a as usize) < gone.len() {
            gone[a as usize] = true;
        }
    }
}

/// The flags of as many axioms, of which those are gone that have a clause which is false under the bits.
fn failing(alloc: Global, ground: &Ground, bits: &Bits, count: usize) -> Result<Vec<bool>, NoMemory>
    requires { IsTrue (list_all (is_over (length bits.now)) (clauses_in ground.now)) }
    ensures count { IfOk result (λ gone. length gone.items ≡ count) }
    ensures kept { IfOk result
        (λ gone. (a : ℕ) → a < count →
        keeps gone.items a ≡ is_whole_true (value_of bits.now) ground.now a) }
{
    let list = ground.clauses();
    let mut gone = vec![in alloc; false; count]?;
    for k in 0..list.len() {
        if !is_true(bits, list.get(k)) {
            leave_out(&mut gone, ground.origin(k));
        }
    }
    Ok(gone)
}

/// All axioms that the rule satisfies whose bits satisfy the clauses of a set, in one pass over the clauses.
pub(crate) fn all_passed(
    alloc: Global,
    study: &Study,
    ground: &Ground,
    set: &Places,
    bits: &Bits,
) -> Result<Places, NoMemory>
    requires clauses { ground.now ≡ study_clauses study.now.size study.now.axioms (all_places study.now) }
    requires set { IsTrue (is_set (length study.now.axioms) set.now) }
    requires length { length bits.now ≡ variable_count study.now.size }
    requires satisfied { IsTrue
        (is_satisfied (value_of bits.now) (clauses_for study.now.size study.now.axioms set.now)) }
    ensures { IfOk result (IsWider study.now set.now) }
{
    let _set = set;
    let gone = failing(alloc, ground, bits, study.axioms().len())?;
    let all = all_places(alloc, study)?;
    let passed = places_kept(alloc, all.as_slice(), gone.as_slice())?;
    Ok(passed)
}
