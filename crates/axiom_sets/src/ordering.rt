//! Sets by the number of their axioms, and then by their places.

ghost use Rattle.std.specs.Prelude.{◌≡◌, ◌≤◌, not, ◌&&◌, length, take, slice_get, IfSome, IsTrue, IsFalse, OnOk};
ghost use Rattle.std.specs.List.{list_all};
ghost use Rattle.axiom_sets.specs.Maps.{IsInserted};
ghost use Rattle.axiom_sets.specs.Sets.{is_within, is_left_of, is_before, is_rising};

use lists::NoMemory;
use vocab::Places;

/// Whether places come before others in lexicographic order.
fn is_left_of(left: &[u32], right: &[u32]) -> bool
    ensures { result ≡ is_left_of left.now right.now }
{
    left < right
}

/// Whether a set comes before another.
fn is_before(left: &[u32], right: &[u32]) -> bool
    ensures { result ≡ is_before left.now right.now }
{
    left.len() < right.len() || (left.len() == right.len() && is_left_of(left, right))
}

/// The first place whose set does not come before this one; the number of sets where all do.
fn place_for(sets: &[Places], set: &[u32]) -> usize
    ensures within { result ≤ length sets.now }
    ensures before { IsTrue (list_all (λ s. is_before s set.now) (take result sets.now)) }
    ensures here { IfSome (slice_get sets.now result) (λ s. IsFalse (is_before s set.now)) }
{
    for place in 0..sets.len() {
        if !is_before(sets[place].as_slice(), set) {
            return place;
        }
    }
    sets.len()
}

/// Puts a set among rising ones, of which it is none.
pub(crate) fn put(sets: &mut Vec<Places>, set: Places) -> Result<(), NoMemory>
    requires rising { IsTrue (is_rising sets.old.items) }
    requires fresh { IsTrue (list_all (λ s. not (is_within s set && is_within set s)) sets.old.items) }
    ensures put { OnOk result (IsInserted sets.old.items sets.new.items set) }
    ensures rising { OnOk result (IsTrue (is_rising sets.new.items)) }
{
    let place = place_for(sets.as_slice(), set.as_slice());
    sets.insert(place, set)?;
    Ok(())
}
