//! Sets of two and three alternatives, written out by hand: their frame, variables and texts, and the first
//! gains of rules that give them.

ghost use Rattle.std.specs.Prelude.{◌≡◌, IfOk, IsTrue};
ghost use Rattle.vocab.specs.Size.{outcome_count};
ghost use Rattle.meaning.specs.Truth.{is_rule};

use crate::kind_checks::{decodes, has_frame, has_text, share, stands_for};
use choice_sets::{Manipulation, SetsKind, gain, laws};
use cnf::Lit;
use lists::Items;
use outcomes::OutcomeKind;
use profiles::Space;
use profiles::laws::spaces_have_sizes;
use std::alloc::Global;
use std::process::Abort;
use std::test::Fail;
use vocab::{Kind, Literal, Size, Table};

/// The sets of three alternatives in their order.
static TEXTS: [&[u8]; 7] = [b"a", b"b", b"ab", b"c", b"ac", b"bc", b"abc"];

/// Texts of no set of three alternatives.
static NO_TEXTS: [&[u8]; 7] = [b"", b"d", b"ba", b"aa", b"abcd", b"A", b"-"];

/// Voters, alternatives, a variable and its literal.
static VARIABLES: [(i64, i64, u32, Literal); 4] = [
    (2, 1, 1, Literal::Wins(0, 0)),
    (2, 2, 8, Literal::Wins(1, 3)),
    (1, 3, 16, Literal::Wins(0, 5)),
    (1, 5, 600, Literal::Wins(4, 119)),
];

/// A set of three alternatives, an alternative, and whether it is an element.
static ELEMENTS: [(u32, u8, bool); 6] = [
    (0, 0, true),
    (0, 2, false),
    (4, 0, true),
    (4, 1, false),
    (4, 2, true),
    (6, 1, true),
];

/// Voters, alternatives, the ballots that may be cast, whether voters may be absent, the sets that a rule
/// gives, and the profile, the voter and the ballot of the first gain.
///
/// Of two voters and two alternatives the profiles are ab|ab, ab|ba, ba|ab and ba|ba, or with absence
/// ab|ab, ab|ba, ab|-, ba|ab, ba|ba, ba|-, -|ab and -|ba. Of one voter and three they are abc, acb, bac,
/// bca, cab and cba. The sets of two are a, b and ab.
static GAINS: [(i64, i64, u128, bool, &[u8], Option<(u32, u32, u32)>); 8] = [
    // Each rule of one outcome is proof against gains.
    (2, 2, 3, false, &[0, 0, 0, 0], None),
    // At ab|ab both voters gain by ba, and at later profiles others do.
    (2, 2, 3, false, &[1, 0, 0, 0], Some((0, 0, 1))),
    // There the second voter alone does.
    (2, 2, 3, false, &[1, 0, 1, 1], Some((0, 1, 1))),
    // At abc the ballots bac and bca both help, and acb does not.
    (1, 3, 63, false, &[3, 3, 1, 0, 3, 3], Some((0, 0, 2))),
    // To both over b: a is above b, and b is b.
    (1, 2, 3, false, &[1, 2], Some((0, 0, 1))),
    // To both over a: b is not above a; and to a over both at ba: a is not above b.
    (1, 2, 3, false, &[0, 2], None),
    // At bac to b over both a and b; at abc and acb nothing is better than a.
    (1, 3, 63, false, &[0, 0, 2, 1, 3, 3], Some((2, 0, 3))),
    // Only where voter 2 is absent another outcome comes of the ballot, and who is absent gains nothing.
    (2, 2, 3, true, &[1, 1, 0, 1, 1, 0, 1, 1], None),
];

// Each table is handed out as a slice, so that the proof of a test need not read it.
fn texts() -> &'static [&'static [u8]] {
    &TEXTS
}

fn no_texts() -> &'static [&'static [u8]] {
    &NO_TEXTS
}

fn variables() -> &'static [(i64, i64, u32, Literal)] {
    &VARIABLES
}

fn elements() -> &'static [(u32, u8, bool)] {
    &ELEMENTS
}

fn gains() -> &'static [(i64, i64, u128, bool, &'static [u8], Option<(u32, u32, u32)>)] {
    &GAINS
}

/// The sets at the profiles of a size.
fn sets_over(rt: &impl Abort, size: Size) -> SetsKind {
    let space = Space::new(size);
    assert!(rt; space.size().kind() == Kind::Sets);
    SetsKind::new(space)
}

fn sets(rt: &impl Abort, voters: i64, alternatives: i64) -> SetsKind {
    let size = Size::check(Kind::Sets, voters, alternatives).expect(rt, "a size");
    sets_over(rt, size)
}

#[test]
fn frame_says_that_some_alternative_wins(rt: HostRuntime) {
    let kind = sets(&rt, 1, 3);
    share(&kind);
    let first = has_frame(rt.alloc(), &kind, 0, [1, 2, 3, 0].as_slice());
    let last = has_frame(rt.alloc(), &kind, 5, [16, 17, 18, 0].as_slice());
    assert!(rt; kind.bits() == 3 && first && last);
}

#[test]
fn variables_stand_for_winners(rt: HostRuntime) {
    for (voters, alternatives, variable, literal) in variables() {
        assert!(rt; stands_for(&sets(&rt, *voters, *alternatives), *variable, *literal));
    }
}

/// Whether an alternative is, or is not, an element of an outcome: whether at the first profile the literal that
/// it wins holds, and the one that it loses does not.
fn has_element<K: OutcomeKind>(kind: &K, outcome: u32, x: u8, is: bool) -> bool {
    let variable = u32::from(x) + 1;
    if variable > kind.space().count() * kind.bits() || outcome >= kind.outcomes() {
        return false;
    }
    let (wins, loses) = (Lit::new(variable, true), Lit::new(variable, false));
    kind.literal(wins) == Literal::Wins(x, 0)
        && kind.literal(loses) == Literal::Loses(x, 0)
        && kind.encode(outcome, wins) == is
        && kind.encode(outcome, loses) != is
}

#[test]
fn sets_have_their_elements(rt: HostRuntime) {
    let kind = sets(&rt, 1, 3);
    for (outcome, x, is) in elements() {
        assert!(rt; has_element(&kind, *outcome, *x, *is));
    }
    assert!(rt; decodes(&rt, rt.alloc(), &kind, 0) && decodes(&rt, rt.alloc(), &kind, 5));
    let most = sets(&rt, 1, 5);
    assert!(rt; most.outcomes() == 31 && decodes(&rt, rt.alloc(), &most, 119));
}

#[test]
fn sets_have_texts(rt: HostRuntime) {
    let kind = sets(&rt, 1, 3);
    let mut outcome: u32 = 0;
    for text in texts() {
        assert!(rt; has_text(&kind, outcome, text));
        outcome = outcome.saturating_add(1);
    }
    assert!(rt; kind.outcomes() == outcome);
    for text in no_texts() {
        assert!(rt; kind.read(text).is_none());
    }
}

/// The rule that gives these outcomes, each below `most`, at the profiles of a space.
fn rule_of(alloc: Global, space: &Space, most: u32, codes: &[u8]) -> Result<Table, Fail>
    requires { most ≡ outcome_count space.now.kind space.now.alternatives }
    ensures { IfOk result (λ table. IsTrue (is_rule space.now table)) }
{
    spaces_have_sizes(space);
    let count = space.count() as usize;
    let mut table = Items::new(alloc);
    while table.len() < count {
        let code = codes.get(table.len()).copied().ok_or("an outcome")?;
        if u32::from(code) >= most {
            return Err(Fail::from("no outcome"));
        }
        table.push(code)?;
    }
    Ok(table)
}

/// The first gain of the rule that gives these sets.
fn first_gain(alloc: Global, kind: &SetsKind, sets: &[u8]) -> Result<Option<Manipulation>, Fail> {
    let table = rule_of(alloc, kind.space(), kind.outcomes(), sets)?;
    Ok(gain(kind, &table))
}

/// Whether this is the profile, the voter and the ballot of the gain, if there is one.
fn is_gain(found: Option<Manipulation>, wanted: Option<(u32, u32, u32)>) -> bool {
    match found {
        Some(found) => wanted == Some((found.profile, found.voter, found.ballot)),
        None => wanted.is_none(),
    }
}

#[test]
fn first_gain_is_the_least(rt: HostRuntime) -> Result<(), Fail> {
    laws::gains_are_found();
    laws::strategyproof_is_no_gain();
    for (voters, alternatives, ballots, absent, sets, wanted) in gains() {
        let size = Size::with_domain(Kind::Sets, *voters, *alternatives, *ballots, *absent);
        let kind = sets_over(&rt, size.expect(&rt, "a size"));
        let found = first_gain(rt.alloc(), &kind, sets)?;
        assert!(rt; is_gain(found, *wanted));
    }
    Ok(())
}
