//! Tests on sets of axioms, each by the places of its axioms, and lists of those that pass.

ghost use Rattle.std.specs.Prelude.{◌≡◌, not, filter, IfOk};
ghost use Rattle.search_logs.specs.Spent.{has_place};
ghost use Rattle.axiom_sets.specs.Sets.{is_within, has_whole};

use lists::{Items, NoMemory};
use std::alloc::Global;
use vocab::Places;

/// Whether the axiom at a place is one of the set.
pub(crate) fn has_place(set: &[u32], place: u32) -> bool
    ensures { result ≡ has_place set.now place }
{
    for other in set {
        if *other == place {
            return true;
        }
    }
    false
}

/// Whether each axiom of a set is one of another.
pub(crate) fn is_within(set: &[u32], other: &[u32]) -> bool
    ensures { result ≡ is_within set.now other.now }
{
    for place in set {
        if !has_place(other, *place) {
            return false;
        }
    }
    true
}

/// Whether a set lies within one of a list.
pub(crate) fn has_whole(sets: &[Places], set: &[u32]) -> bool
    ensures { result ≡ has_whole sets.now set.now }
{
    for other in sets {
        if is_within(set, other.as_slice()) {
            return true;
        }
    }
    false
}

/// The set, once more.
fn copied(alloc: Global, set: &Places) -> Result<Places, NoMemory>
    ensures { IfOk result (λ copy. copy ≡ set.now) }
{
    let mut copy = Items::with_room(alloc, set.len())?;
    copy.append(set.as_slice())?;
    Ok(copy)
}

/// The sets of a list within which this one does not lie.
pub(crate) fn without_larger(
    alloc: Global,
    sets: &[Places],
    set: &[u32],
) -> Result<Vec<Places>, NoMemory>
    ensures { IfOk result (λ kept. kept.items ≡ filter (λ s. not (is_within set.now s)) sets.now) }
{
    let mut kept = Vec::new(alloc);
    for other in sets {
        if !is_within(set, other.as_slice()) {
            let copy = copied(alloc, other)?;
            kept.push(copy)?;
        }
    }
    Ok(kept)
}

/// The sets of a list that do not lie within this one.
pub(crate) fn without_smaller(
    alloc: Global,
    sets: &[Places],
    set: &[u32],
) -> Result<Vec<Places>, NoMemory>
    ensures { IfOk result (λ kept. kept.items ≡ filter (λ s. not (is_within s set.now)) sets.now) }
{
    let mut kept = Vec::new(alloc);
    for other in sets {
        if !is_within(other.as_slice(), set) {
            let copy = copied(alloc, other)?;
            kept.push(copy)?;
        }
    }
    Ok(kept)
}
