//! Trails over clauses that are worked out by hand.

ghost use Rattle.std.specs.Prelude.{◌≡◌, ◌<◌, IfOk, length};
ghost use Rattle.propagate.specs.TrailState.{IsTrail};

use crate::lists_by_numbers::{is_clause, list, literal};
use cnf::Lit;
use propagate::{Outcome, Trail, laws, stay_within};
use std::alloc::Global;
use std::test::Fail;

/// The trail over so many clauses, of which this is the greatest variable. In a box, so that a test drops it by
/// one call.
fn trail_over(
    alloc: Global,
    numbers: &[i32],
    count: u32,
    variables: u32,
) -> Result<Box<Trail>, Fail>
    ensures form { IfOk result (λ t. IsTrail t.value) }
    ensures clauses { IfOk result (λ t. length t.value.clauses ≡ count) }
    ensures variables { IfOk result (λ t. t.value.variables ≡ variables) }
    ensures level { IfOk result (λ t. t.value.level ≡ 0) }
{
    let clauses = list(alloc, numbers)?;
    if clauses.len() != count
        || stay_within(&clauses, variables.saturating_sub(1))
        || !stay_within(&clauses, variables)
    {
        return Err(Fail::from("clauses"));
    }
    let trail = Trail::new(alloc, &clauses, variables)?;
    Ok(Box::new(alloc, trail)?)
}

// A clause of one literal forces it.
#[test]
fn a_forced_literal_has_its_reason(rt: HostRuntime) -> Result<(), Fail> {
    laws::trails_have_levels();
    let mut trail = trail_over(rt.alloc(), &[-3, 0, -3, 1, 0], 2, 3)?;
    let closed = trail.propagate() == Outcome::Closed;
    let values = trail.value(3) == Some(false) && trail.value(1).is_none();
    let reasons = trail.reason(3) == Some(0) && trail.level_of(3) == Some(0);
    assert!(rt; closed && trail.len() == 1 && values && reasons);
    Ok(())
}

/// Whether a clause is watched at the literals of these variables.
fn is_watched(trail: &Trail, k: u32, one: u32, other: u32) -> bool
    requires { k < length trail.now.clauses }
{
    let Some((first, second)) = trail.watches(k) else {
        return false;
    };
    first.positive() && first.variable() == one && second.positive() && second.variable() == other
}

#[test]
fn a_clause_is_watched_at_literals_that_do_not_fail(rt: HostRuntime) -> Result<(), Fail> {
    let mut trail = trail_over(rt.alloc(), &[1, 0, 2, 3, 4, 0], 2, 4)?;
    let first = trail.watches(0).is_none() && is_watched(&trail, 1, 2, 3);
    if trail.propagate() != Outcome::Closed || trail.value(2).is_some() {
        return Err(Fail::from("2 has a value"));
    }
    trail.decide(Lit::new(2, false));
    let closed = trail.propagate() == Outcome::Closed;
    let moved = is_watched(&trail, 1, 4, 3);
    trail.back_to(0);
    let stays = is_watched(&trail, 1, 4, 3) && trail.value(2).is_none();
    assert!(rt; first && closed && moved && stays);
    Ok(())
}

// What is learned gets the next number, and forces as the clauses of the list do: the first learned clause makes
// 1 false, so 2 is true by the clause of the list, and 3 by the second learned clause.
#[test]
fn a_learned_clause_has_the_next_number(rt: HostRuntime) -> Result<(), Fail> {
    let mut trail = trail_over(rt.alloc(), &[1, 2, 0, 1, 3, 2, 0], 2, 3)?;
    let first = trail.learn([literal(-1, 3)].as_slice())?;
    let second = trail.learn([literal(-2, 3), literal(3, 3)].as_slice())?;
    let kept = is_clause(trail.clause(2), &[-1]) && is_clause(trail.clause(3), &[-2, 3]);
    let closed = trail.propagate() == Outcome::Closed;
    let reasons = [trail.reason(1), trail.reason(2), trail.reason(3)];
    let three = trail.value(3) == Some(true) && reasons == [Some(2), Some(0), Some(3)];
    assert!(rt; first == 2 && second == 3 && kept && closed && three);
    Ok(())
}

// 1 and 2 are false at level 0, 2 by the later entry: so the learned clause is watched at 3, which it forces,
// and at 2.
#[test]
fn a_learned_clause_is_watched_at_the_last_false_literal(rt: HostRuntime) -> Result<(), Fail> {
    let mut trail = trail_over(rt.alloc(), &[-1, 0, 1, -2, 0, -2, 3, 0], 3, 3)?;
    let closed = trail.propagate() == Outcome::Closed && trail.len() == 2;
    trail.learn([literal(2, 3), literal(1, 3), literal(3, 3)].as_slice())?;
    let watched = is_watched(&trail, 3, 3, 2);
    let forced = trail.propagate() == Outcome::Closed && trail.reason(3) == Some(3);
    assert!(rt; closed && watched && forced);
    Ok(())
}
