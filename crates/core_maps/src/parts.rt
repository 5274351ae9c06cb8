//! Parts of a study: a set of its axioms with the clauses of these.

ghost use Rattle.std.specs.Prelude.{◌≡◌, ◌<◌, ℕ, length, nat_lt, IfOk, IsTrue};
ghost use Rattle.std.specs.List.{list_all};
ghost use Rattle.meaning.specs.StudyClauses.{study_clauses};
ghost use Rattle.search_logs.specs.Spent.{has_place, all_places};
ghost use Rattle.axiom_sets.specs.Sets.{is_set};
ghost use Rattle.core_reduce.specs.Kept.{keeps};
ghost use Rattle.core_reduce.specs.Reducing.{others};

use clause_form::Ground;
use core_reduce::restrict;
use lists::{Items, NoMemory};
use std::alloc::Global;
use vocab::{Places, Study};

/// The flags of as many axioms, of which all but those of a set are gone.
fn all_but(alloc: Global, count: usize, set: &[u32]) -> Result<Vec<bool>, NoMemory>
    requires { IsTrue (list_all (λ k. nat_lt k count) set.now) }
    ensures count { IfOk result (λ gone. length gone.items ≡ count) }
    ensures kept { IfOk result
        (λ gone. (a : ℕ) → a < count → keeps gone.items a ≡ has_place set.now a) }
{
    let mut gone = vec![in alloc; true; count]?;
    for place in set {
        gone[*place as usize] = false;
    }
    Ok(gone)
}

/// The clauses of the axioms of a set.
pub(crate) fn clauses_of(
    alloc: Global,
    study: &Study,
    ground: &Ground,
    set: &Places,
) -> Result<Ground, NoMemory>
    requires clauses { ground.now ≡ study_clauses study.now.size study.now.axioms (all_places study.now) }
    requires set { IsTrue (is_set (length study.now.axioms) set.now) }
    ensures { IfOk result (λ clauses. clauses ≡ study_clauses study.now.size study.now.axioms set.now) }
{
    let gone = all_but(alloc, study.axioms().len(), set.as_slice())?;
    let clauses = restrict(alloc, ground, gone.as_slice())?;
    Ok(clauses)
}

/// The set without one of its axioms.
pub(crate) fn set_without(alloc: Global, set: &[u32], k: u32) -> Result<Places, NoMemory>
    ensures { IfOk result (λ rest. rest ≡ others k set.now) }
{
    let mut rest = Items::new(alloc);
    for place in set {
        if *place != k {
            rest.push(*place)?;
        }
    }
    Ok(rest)
}
