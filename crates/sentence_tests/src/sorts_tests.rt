//! Equalities, each resolved for two voters and two alternatives.

use crate::fixtures::name_of;
use profiles::Space;
use sorts::{SortFault, resolve};
use std::alloc::Global;
use std::test::Fail;
use vocab::{Atom, Formula, Kind, Name, Named, NamedTerm, Size, Sort, Term};

/// What a sentence resolves to, or its fault. In a box, so that an exit drops it by one call.
type Answer = Box<Result<Formula, SortFault>>;

/// What `all x: alt. all x: profile. NAME = x` resolves to.
fn equality(alloc: Global, name: &[u8]) -> Result<Answer, Fail> {
    let size = Size::check(Kind::Choice, 2, 2)?;
    let (left, right) = (name_of(name)?, name_of(b"x")?);
    let (inside, outside) = (name_of(b"x")?, name_of(b"x")?);
    let part = Box::new(
        alloc,
        Named::Equal(NamedTerm::Var(left), NamedTerm::Var(right)),
    )?;
    let inner = Box::new(alloc, Named::All(inside, Sort::Profile, part))?;
    let sentence = Box::new(alloc, Named::All(outside, Sort::Alt, inner))?;
    Ok(Box::new(alloc, resolve(alloc, &sentence, &Space::new(size)))?)
}

/// Whether both sides are the inner variable.
fn is_of_inner(answer: &Result<Formula, SortFault>) -> bool {
    let Ok(formula) = answer else {
        return false;
    };
    let Formula::Leaf(Atom::Equal(Term::Var(left), Term::Var(right))) = formula.body() else {
        return false;
    };
    [*left, *right] == [1, 1]
}

#[test]
fn an_inner_variable_hides_an_outer_one(rt: HostRuntime) -> Result<(), Fail> {
    let answer = equality(rt.alloc(), b"x")?;
    assert!(rt; is_of_inner(&answer));
    Ok(())
}

/// Whether this name is unbound.
fn is_unbound(answer: &Result<Formula, SortFault>, name: Name) -> bool {
    match answer {
        Err(SortFault::Unbound(found)) => *found == name,
        _ => false,
    }
}

#[test]
fn an_unbound_variable_is_named(rt: HostRuntime) -> Result<(), Fail> {
    let name = name_of(b"y")?;
    let answer = equality(rt.alloc(), b"y")?;
    assert!(rt; is_unbound(&answer, name));
    Ok(())
}

/// What `LETTERS = LETTERS` resolves to where the ballots of some places may be cast.
fn ballot(alloc: Global, letters: &[u8], ballots: u128) -> Result<Answer, Fail> {
    let size = Size::with_domain(Kind::Choice, 2, 2, ballots, false)?;
    let letters = name_of(letters)?;
    let sentence = Box::new(
        alloc,
        Named::Equal(NamedTerm::Ballot(letters), NamedTerm::Ballot(letters)),
    )?;
    Ok(Box::new(alloc, resolve(alloc, &sentence, &Space::new(size)))?)
}

/// The number that both sides are.
fn number_in(answer: &Result<Formula, SortFault>) -> Option<u32> {
    let Ok(formula) = answer else {
        return None;
    };
    let Formula::Leaf(Atom::Equal(Term::Const(left), Term::Const(right))) = formula else {
        return None;
    };
    if *left == *right { Some(*left) } else { None }
}

/// The number of the ballot of these letters where the ballots of some places may be cast.
fn number_of(alloc: Global, letters: &[u8], ballots: u128) -> Result<Option<u32>, Fail> {
    let answer = ballot(alloc, letters, ballots)?;
    Ok(number_in(&answer))
}

/// Whether these letters are no constant where the ballots of some places may be cast.
fn is_no_constant(alloc: Global, letters: &[u8], ballots: u128) -> Result<bool, Fail> {
    let answer = ballot(alloc, letters, ballots)?;
    Ok(matches!(&*answer, Err(SortFault::Constant(_))))
}

// A ballot constant is its number among the ballots that may be cast: ba is ballot 1 of ab and ba, and ballot
// 0 where it stands alone.
#[test]
fn ballots_are_those_that_may_be_cast(rt: HostRuntime) -> Result<(), Fail> {
    let alloc = rt.alloc();
    let found = [number_of(alloc, b"ba", 3)?, number_of(alloc, b"ba", 2)?];
    let none = is_no_constant(alloc, b"ab", 2)?;
    assert!(rt; found == [Some(1), Some(0)] && none);
    Ok(())
}
