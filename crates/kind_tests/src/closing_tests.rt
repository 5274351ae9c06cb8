//! Closed bodies that are worked out by hand.

use closing::close;
use lists::NoMemory;
use std::alloc::Global;
use std::test::Fail;
use vocab::{Atom, Axiom, Env, Formula, Name, Sort, Term};

/// Some alternative is the value of the second quantifier. In a box, as is each part, so that an exit drops it by
/// one call.
fn some_is_same(alloc: Global) -> Result<Box<Formula>, NoMemory> {
    let same = Atom::Equal(Term::Var(1), Term::Var(2));
    let leaf = Box::new(alloc, Formula::Leaf(same))?;
    Ok(Box::new(alloc, Formula::Exists(Sort::Alt, leaf))?)
}

/// The value of the second quantifier wins at that of the first, with voter 0's ballot replaced by ballot 1.
fn wins_elsewhere(alloc: Global) -> Result<Box<Formula>, NoMemory> {
    let p = Box::new(alloc, Term::Var(0))?;
    let i = Box::new(alloc, Term::Const(0))?;
    let b = Box::new(alloc, Term::Const(1))?;
    let wins = Atom::Wins(Term::Var(1), Term::With(p, i, b));
    Ok(Box::new(alloc, Formula::Leaf(wins))?)
}

/// For all profiles p and alternatives x: some alternative y is x, or x wins at p with voter 0's ballot
/// replaced by ballot 1.
fn sentence(alloc: Global) -> Result<Formula, NoMemory> {
    let some = some_is_same(alloc)?;
    let wins = wins_elsewhere(alloc)?;
    let either = Box::new(alloc, Formula::Either(some, wins))?;
    let alts = Box::new(alloc, Formula::All(Sort::Alt, either))?;
    Ok(Formula::All(Sort::Profile, alts))
}

fn named(alloc: Global) -> Result<Box<Axiom>, Fail> {
    let name = Name::new(b"odd").ok_or("name")?;
    Ok(Box::new(alloc, Axiom::new(name, sentence(alloc)?))?)
}

/// Some alternative is this one, which is written as a constant beside the variable 0.
fn is_some(formula: &Formula, x: u32) -> bool {
    let Formula::Exists(Sort::Alt, inner) = formula else {
        return false;
    };
    let Formula::Leaf(Atom::Equal(Term::Const(left), Term::Var(level))) = &**inner else {
        return false;
    };
    *left == x && *level == 0
}

/// This alternative wins at this profile with a ballot replaced.
fn is_winner(formula: &Formula, x: u32, p: u32) -> bool {
    let Formula::Leaf(Atom::Wins(Term::Const(winner), Term::With(profile, _, _))) = formula else {
        return false;
    };
    *winner == x && matches!(&**profile, Term::Const(q) if *q == p)
}

#[test]
fn values_stand_in_place_of_outer_variables(rt: HostRuntime) -> Result<(), Fail> {
    let alloc = rt.alloc();
    let odd = named(alloc)?;
    let body = Box::new(alloc, close(alloc, &odd, &Env::none().with(3).with(1))?)?;
    let Formula::Either(left, right) = &*body else {
        return Err(Fail::from("either"));
    };
    assert!(rt; is_some(left, 1) && is_winner(right, 1, 3));
    Ok(())
}
