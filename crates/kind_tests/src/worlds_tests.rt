//! Rules of one alternative.

ghost use Rattle.std.specs.Prelude.{◌≡◌, IfOk};
ghost use Rattle.vocab.specs.Tree.{tree_of, Casts, Const, Leaf, WinsAt};

use lists::{Items, NoMemory};
use meaning::Three;
use outcomes::ChoiceKind;
use profiles::Space;
use std::alloc::Global;
use std::test::Fail;
use vocab::{Atom, Env, Formula, Kind, Literal, Size, Term};
use worlds::{Board, excludes, partial, truth};

/// The only alternative wins at profile 0. In a box, as is the next, so that a test drops it by one call.
fn wins(alloc: Global) -> Result<Box<Formula>, NoMemory>
    ensures { IfOk result (λ f. tree_of f.value ≡ Leaf (WinsAt (Const 0) (Const 0))) }
{
    Ok(Box::new(
        alloc,
        Formula::Leaf(Atom::Wins(Term::Const(0), Term::Const(0))),
    )?)
}

/// The voter casts the ballot a at profile 1.
fn casts(alloc: Global, voter: u32) -> Result<Box<Formula>, NoMemory>
    ensures { IfOk result (λ f. tree_of f.value ≡ Leaf (Casts (Const voter) (Const 0) (Const 1))) }
{
    let atom = Atom::Casts(Term::Const(voter), Term::Const(0), Term::Const(1));
    Ok(Box::new(alloc, Formula::Leaf(atom))?)
}

#[test]
fn the_only_alternative_wins(rt: HostRuntime) -> Result<(), Fail> {
    let size = Size::check(Kind::Choice, 1, 1)?;
    let kind = ChoiceKind::new(Space::new(size));
    let mut table = Items::new(rt.alloc());
    table.push(0)?;
    let wins = wins(rt.alloc())?;
    assert!(rt; truth(&kind, &table, &wins, &Env::none()));
    Ok(())
}

#[test]
fn what_is_on_the_board_is_known(rt: HostRuntime) -> Result<(), Fail> {
    let size = Size::check(Kind::Choice, 1, 1)?;
    let kind = ChoiceKind::new(Space::new(size));
    let mut board = Board::new(rt.alloc(), &kind)?;
    let wins = wins(rt.alloc())?;
    assert!(rt; partial(&kind, &board, &wins, &Env::none()) == Three::Unknown);
    board.add(&Literal::Loses(0, 0));
    assert!(rt; partial(&kind, &board, &wins, &Env::none()) == Three::False);
    assert!(rt; excludes(&kind, &board, 0));
    board.remove(&Literal::Loses(0, 0));
    assert!(rt; !excludes(&kind, &board, 0));
    Ok(())
}

// Of two voters with the one ballot a, who may be absent, the second is absent at profile 1, a|-.
#[test]
fn an_absent_voter_casts_nothing(rt: HostRuntime) -> Result<(), Fail> {
    let size = Size::with_domain(Kind::Choice, 2, 1, 1, true)?;
    let kind = ChoiceKind::new(Space::new(size));
    let mut table = Items::new(rt.alloc());
    table.append(&[0, 0, 0])?;
    let first = casts(rt.alloc(), 0)?;
    assert!(rt; truth(&kind, &table, &first, &Env::none()));
    let second = casts(rt.alloc(), 1)?;
    assert!(rt; !truth(&kind, &table, &second, &Env::none()));
    Ok(())
}
