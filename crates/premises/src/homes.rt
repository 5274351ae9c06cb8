//! Where the lemmas of a story stand.

ghost use Rattle.std.specs.Prelude.{◌≡◌, ℕ, length, replicate, None, IfOk};
ghost use Rattle.tellings.specs.Tellings.{greatest_depth, home_of, is_shallow, stands_in, AreHomes};
ghost use Rattle.premises.specs.Uses.{takes, AreHomesFrom};

use crate::uses::{Use, uses_of};
use lists::{Items, NoMemory};
use meaning::Lemma;
use std::alloc::Global;
use tellings::{Telling, greatest_depth};

/// The lemma within which the one at a place stands; none for one that stands by itself, and where there is
/// no lemma.
fn home_of(homes: &[Option<usize>], place: usize) -> Option<usize>
    ensures { result ≡ home_of homes.now place }
{
    match homes.get(place) {
        Some(home) => *home,
        None => None,
    }
}

/// Whether the lemma at a place stands within fewer than so many others, one within another.
fn is_shallow(homes: &[Option<usize>], limit: u32, place: usize) -> bool
    ensures { result ≡ is_shallow homes.now limit place }
{
    if limit == 0 {
        return false;
    }
    match home_of(homes, place) {
        None => true,
        Some(home) => is_shallow(homes, limit - 1, home),
    }
}

/// The lemma within which one stands that is used so: a later one that does not itself stand as deep as
/// lemmas may.
fn home_for(homes: &[Option<usize>], used: Use, place: usize) -> Option<usize>
    ensures { (m : ℕ) → stands_in m result ≡ takes homes.now used place m }
{
    let Use::Once(user) = used else {
        return None;
    };
    if place < user && is_shallow(homes, greatest_depth(), user) {
        Some(user)
    } else {
        None
    }
}

/// No home, so often.
fn no_homes(alloc: Global, count: usize) -> Result<Vec<Option<usize>>, NoMemory>
    ensures { IfOk result (λ homes. homes.items ≡ replicate count None) }
{
    Ok(vec![in alloc; None; count]?)
}

/// Where each lemma stands of a story whose lemmas are used so. From the last one on, so that each home stands
/// where it is to stand.
fn found(alloc: Global, uses: &[Use]) -> Result<Vec<Option<usize>>, NoMemory>
    ensures { IfOk result (λ homes. AreHomesFrom uses.now homes.items 0) }
{
    let mut homes = no_homes(alloc, uses.len())?;
    for place in (0..uses.len()).rev() {
        let home = home_for(homes.as_slice(), uses[place], place);
        homes[place] = home;
    }
    Ok(homes)
}

/// Where the lemmas of a story stand that is told so: each within the later one that alone names it, once, if
/// that one does not itself stand as deep as lemmas may.
pub(crate) fn homes_of(
    alloc: Global,
    story: &[Lemma],
    tellings: &[Telling],
) -> Result<Items<Option<usize>>, NoMemory>
    requires { length tellings.now ≡ length story.now }
    ensures { IfOk result (AreHomes story.now tellings.now) }
{
    let uses = uses_of(alloc, story, tellings)?;
    let homes = found(alloc, uses.as_slice())?;
    Ok(Items::from_vec(homes))
}
