//! The clauses of the frames of profiles.

ghost use Rattle.std.specs.Prelude.{◌≡◌, ◌+◌, ◌*◌, ◌<◌, ◌≤◌, [], ◌∷◌, true, false, length, Err, OnOk};
ghost use Rattle.meaning.specs.Variables.{pairs, triples, pair_place};
ghost use Rattle.outcomes.specs.Frames.{with_clauses, IsFullForAll};
ghost use Rattle.outcomes.specs.Places.{pair_lit, pair_at, triple_at};
ghost use Rattle.outcomes.specs.Rows.{some_wins, one_loses, no_round, choice_rows, ranking_rows};

use crate::at_profile::AtProfile;
use crate::places;
use crate::winners::{push_some_wins, winner_lit};
use cnf::{Clauses, Lit, PushFault};

/// The variable of a pair at a profile, with a sign.
pub(crate) fn pair_lit(at: AtProfile, positive: bool, x: u8, y: u8) -> Lit
    requires rises { x < y }
    requires below { y < at.alternatives.number }
    ensures { result ≡ pair_lit at.alternatives.number at.profile positive x y }
{
    let first = at.profile * places::pair_count(at.alternatives) + 1;
    Lit::new(first + places::place_of(at.alternatives, x, y), positive)
}

/// Appends the clause that one of a pair does not win.
fn push_one_loses(at: AtProfile, place: u32, out: &mut Clauses) -> Result<(), PushFault>
    requires { place < length (pairs at.alternatives.number) }
    ensures ok { OnOk result (out.new ≡ with_clauses out.old
        (one_loses at.alternatives.number at.profile
        (pair_at at.alternatives.number place) ∷ []) at.profile) }
    ensures full { result ≡ Err PushFault.Full → IsFullForAll out.old
        (one_loses at.alternatives.number at.profile (pair_at at.alternatives.number place) ∷ []) }
{
    let (x, y) = places::pair_at(at.alternatives, place);
    let loses = [winner_lit(at, false, x), winner_lit(at, false, y)];
    out.push(&loses, u64::from(at.profile))
}

/// Appends the frame of choices.
pub(crate) fn push_choice(at: AtProfile, out: &mut Clauses) -> Result<(), PushFault>
    ensures ok { OnOk result (out.new ≡ with_clauses out.old
        (choice_rows at.alternatives.number at.profile) at.profile) }
    ensures full { result ≡ Err PushFault.Full →
        IsFullForAll out.old (choice_rows at.alternatives.number at.profile) }
    ensures fits { OnOk result (¬ IsFullForAll out.old (choice_rows at.alternatives.number at.profile)) }
{
    push_some_wins(at, out)?;
    for place in 0..places::pair_count(at.alternatives) {
        push_one_loses(at, place, out)?;
    }
    let _within = out.len();
    Ok(())
}

/// Appends the two clauses that the alternatives of a triple do not stand in a circle.
fn push_no_round(at: AtProfile, place: u32, out: &mut Clauses) -> Result<(), PushFault>
    requires { place < length (triples at.alternatives.number) }
    ensures ok { OnOk result (out.new ≡ with_clauses out.old
        (no_round at.alternatives.number at.profile (triple_at at.alternatives.number place)) at.profile) }
    ensures full { result ≡ Err PushFault.Full → IsFullForAll out.old
        (no_round at.alternatives.number at.profile (triple_at at.alternatives.number place)) }
{
    let (x, y, z) = places::triple_at(at.alternatives, place);
    let not_up = [
        pair_lit(at, false, x, y),
        pair_lit(at, true, x, z),
        pair_lit(at, false, y, z),
    ];
    out.push(&not_up, u64::from(at.profile))?;
    let not_down = [
        pair_lit(at, true, x, y),
        pair_lit(at, false, x, z),
        pair_lit(at, true, y, z),
    ];
    out.push(&not_down, u64::from(at.profile))
}

/// Appends the frame of rankings.
pub(crate) fn push_ranking(at: AtProfile, out: &mut Clauses) -> Result<(), PushFault>
    ensures ok { OnOk result (out.new ≡ with_clauses out.old
        (ranking_rows at.alternatives.number at.profile) at.profile) }
    ensures full { result ≡ Err PushFault.Full →
        IsFullForAll out.old (ranking_rows at.alternatives.number at.profile) }
    ensures fits { OnOk result (¬ IsFullForAll out.old (ranking_rows at.alternatives.number at.profile)) }
{
    for place in 0..places::triple_count(at.alternatives) {
        push_no_round(at, place, out)?;
    }
    let _within = out.len();
    Ok(())
}
