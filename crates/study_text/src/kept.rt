//! Kept clauses, counted.

ghost use Rattle.std.specs.Prelude.{◌≡◌, ◌≤◌, length};
ghost use Rattle.study_text.specs.Shares.{is_from, kept_of, kept_literal_count};

use clause_form::Ground;
use meaning::Origin;

/// Whether a clause comes from the axiom at a place.
fn is_from(place: u32, origin: Origin) -> bool
    ensures { result ≡ is_from place origin }
{
    match origin {
        Origin::Frame(_) => false,
        Origin::Instance { axiom, number: _ } => axiom == place,
    }
}

/// How many clauses are kept.
pub(crate) fn count_all(ground: &Ground) -> u32
    ensures value { result ≡ length ground.now }
    ensures few { result ≤ 4000000 }
{
    ground.clauses().len()
}

/// How many of them come from the axiom at a place.
pub(crate) fn kept_of(ground: &Ground, place: u32) -> u32
    ensures { result ≡ kept_of place ground.now }
{
    let mut kept = 0;
    for k in 0..count_all(ground) {
        kept += u32::from(is_from(place, ground.origin(k)));
    }
    kept
}

/// How many literals they have.
pub(crate) fn kept_literal_count(ground: &Ground) -> u32
    ensures value { result ≡ kept_literal_count ground.now }
    ensures few { result ≤ 60000000 }
{
    let clauses = ground.clauses();
    let mut literals = 0;
    for k in 0..clauses.len() {
        literals += clauses.get(k).len() as u32;
    }
    literals
}
