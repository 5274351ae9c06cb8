//! Literals at both ends of their range, truth values, and lists of clauses up to their limits.

ghost use Rattle.std.specs.Prelude.{◌<◌, ◌≤◌, ◌^◌};

use cnf::{Bits, Clauses, Lit, PushFault, Store, laws};
use lists::NoMemory;

static VARIABLES: [u32; 5] = [1, 2, 3, 2_147_483_646, 2_147_483_647];

// The table is handed out as a slice, so that the proof of a test need not read it.
fn variables() -> &'static [u32] {
    &VARIABLES
}

/// Whether a literal has its variable and its sign, and its opposite the other sign.
fn is_kept(variable: u32, positive: bool) -> bool
    requires low { 1 ≤ variable }
    requires high { variable < 2 ^ 31 }
{
    let lit = Lit::new(variable, positive);
    let opposite = lit.opposite();
    lit.variable() == variable
        && lit.positive() == positive
        && opposite == Lit::new(variable, !positive)
        && opposite.opposite() == lit
}

#[test]
fn literals_keep_their_variable_and_sign(rt: HostRuntime) {
    for variable in variables() {
        assert!(rt; 1 <= *variable && *variable < 2_147_483_648);
        assert!(rt; is_kept(*variable, true) && is_kept(*variable, false));
    }
}

#[test]
fn bits_are_set_one_by_one(rt: HostRuntime) {
    let mut bits = Bits::new(rt.alloc(), 3).expect(&rt, "memory");
    assert!(rt; bits.len() == 3);
    bits.set(2, true);
    bits.set(3, true);
    bits.set(3, false);
    assert!(rt; [bits.get(1), bits.get(2), bits.get(3)] == [false, true, false]);
}

#[test]
fn stores_keep_clauses_apart(rt: HostRuntime) {
    let front = [Lit::new(1, true), Lit::new(2, false)];
    let last = [Lit::new(3, true)];
    let mut store = Store::new(rt.alloc());
    let pushed = [store.push(&front), store.push(&[]), store.push(&last)];
    assert!(rt; pushed == [Ok(()); 3]);
    assert!(rt; store.literal_count() == 3 && store.len() == 3);
    assert!(rt; store.get(0) == front.as_slice());
    assert!(rt; store.get(1).is_empty());
    assert!(rt; store.get(2) == last.as_slice());
}

/// Adds so many clauses, each with its number as its origin.
fn fill(clauses: &mut Clauses, lits: &[Lit], count: u64) -> Result<(), PushFault> {
    for origin in 0..count {
        clauses.push(lits, origin)?;
    }
    Ok(())
}

#[test]
fn lists_take_four_million_clauses(rt: HostRuntime) {
    let lits = [Lit::new(5, true)];
    let mut clauses = Clauses::new(rt.alloc());
    assert!(rt; fill(&mut clauses, &lits, 4_000_000) == Ok(()));
    assert!(rt; clauses.push(&[], 0) == Err(PushFault::Full));
    assert!(rt; clauses.len() == 4_000_000);
    assert!(rt; [clauses.origin(0), clauses.origin(3_999_999)] == [0, 3_999_999]);
    assert!(rt; clauses.get(3_999_999) == lits.as_slice());
}

#[test]
fn lists_take_sixty_million_literals(rt: HostRuntime) -> Result<(), NoMemory> {
    let lits = vec![in rt.alloc(); Lit::new(5, true); 1_000_000]?;
    let mut clauses = Clauses::new(rt.alloc());
    assert!(rt; fill(&mut clauses, &lits, 60) == Ok(()));
    assert!(rt; clauses.push(&[Lit::new(5, true)], 60) == Err(PushFault::Full));
    assert!(rt; clauses.push(&[], 60) == Ok(()));
    assert!(rt; clauses.len() == 61);
    assert!(rt; clauses.origin(60) == 60);
    Ok(())
}

#[test]
fn laws_are_calls_that_return() {
    laws::effects_say_clause();
    laws::accepted_is_unsatisfiable();
    laws::trimmed_is_accepted();
    laws::fresh_contains_none();
    laws::spent_lists_are_short();
}
