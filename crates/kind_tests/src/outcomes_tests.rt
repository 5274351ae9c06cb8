//! Variables, frames and texts of one to five alternatives, written out by hand.

use crate::kind_checks::{decodes, has_frame, has_text, share, stands_for};
use outcomes::{ChoiceKind, OutcomeKind, RankingKind, Setting};
use profiles::Space;
use std::process::Abort;
use std::test::Fail;
use vocab::{Axioms, Kind, Literal, Size, Study};

/// Voters, alternatives, a profile, and the clauses of its frame.
static CHOICE_FRAMES: [(i64, i64, u32, &[i64]); 5] = [
    (2, 1, 0, &[1, 0]),
    (2, 2, 3, &[7, 8, 0, -7, -8, 0]),
    (
        1,
        3,
        5,
        &[16, 17, 18, 0, -16, -17, 0, -16, -18, 0, -17, -18, 0],
    ),
    (
        1,
        4,
        1,
        &[
            5, 6, 7, 8, 0, -5, -6, 0, -5, -7, 0, -5, -8, 0, -6, -7, 0, -6, -8, 0, -7, -8, 0,
        ],
    ),
    (
        1,
        5,
        0,
        &[
            1, 2, 3, 4, 5, 0, -1, -2, 0, -1, -3, 0, -1, -4, 0, -1, -5, 0, -2, -3, 0, -2, -4, 0, -2,
            -5, 0, -3, -4, 0, -3, -5, 0, -4, -5, 0,
        ],
    ),
];

static RANKING_FRAMES: [(i64, i64, u32, &[i64]); 5] = [
    (2, 1, 0, &[]),
    (2, 2, 3, &[]),
    (1, 3, 1, &[-4, 5, -6, 0, 4, -5, 6, 0]),
    (
        1,
        4,
        0,
        &[
            -1, 2, -4, 0, 1, -2, 4, 0, -1, 3, -5, 0, 1, -3, 5, 0, -2, 3, -6, 0, 2, -3, 6, 0, -4, 5,
            -6, 0, 4, -5, 6, 0,
        ],
    ),
    (
        1,
        5,
        0,
        &[
            -1, 2, -5, 0, 1, -2, 5, 0, -1, 3, -6, 0, 1, -3, 6, 0, -1, 4, -7, 0, 1, -4, 7, 0, -2, 3,
            -8, 0, 2, -3, 8, 0, -2, 4, -9, 0, 2, -4, 9, 0, -3, 4, -10, 0, 3, -4, 10, 0, -5, 6, -8,
            0, 5, -6, 8, 0, -5, 7, -9, 0, 5, -7, 9, 0, -6, 7, -10, 0, 6, -7, 10, 0, -8, 9, -10, 0,
            8, -9, 10, 0,
        ],
    ),
];

/// Voters, alternatives, a variable and its literal.
static CHOICE_VARIABLES: [(i64, i64, u32, Literal); 5] = [
    (2, 1, 1, Literal::Wins(0, 0)),
    (2, 2, 8, Literal::Wins(1, 3)),
    (1, 3, 16, Literal::Wins(0, 5)),
    (1, 4, 96, Literal::Wins(3, 23)),
    (2, 5, 72000, Literal::Wins(4, 14399)),
];

static RANKING_VARIABLES: [(i64, i64, u32, Literal); 6] = [
    (2, 2, 4, Literal::Above(0, 1, 3)),
    (1, 3, 6, Literal::Above(1, 2, 1)),
    (1, 4, 9, Literal::Above(0, 3, 1)),
    (1, 4, 144, Literal::Above(2, 3, 23)),
    (1, 5, 15, Literal::Above(1, 2, 1)),
    (2, 5, 144000, Literal::Above(3, 4, 14399)),
];

/// Alternatives, the last outcome, how many variables a profile has, and the text of that outcome.
static CHOICE_TEXTS: [(i64, u32, u32, &[u8]); 5] = [
    (1, 0, 1, b"a"),
    (2, 1, 2, b"b"),
    (3, 2, 3, b"c"),
    (4, 3, 4, b"d"),
    (5, 4, 5, b"e"),
];

static RANKING_TEXTS: [(i64, u32, u32, &[u8]); 5] = [
    (1, 0, 0, b"a"),
    (2, 1, 1, b"ba"),
    (3, 5, 3, b"cba"),
    (4, 23, 6, b"dcba"),
    (5, 119, 10, b"edcba"),
];

/// Texts of no choice of five alternatives, and of no ranking of three.
static NO_CHOICES: [&[u8]; 6] = [b"", b"f", b"A", b"ab", b"`", b"1"];

static NO_RANKINGS: [&[u8]; 5] = [b"", b"ab", b"abd", b"aab", b"abcd"];

// Each table is handed out as a slice, so that the proof of a test need not read it.
fn choice_frames() -> &'static [(i64, i64, u32, &'static [i64])] {
    &CHOICE_FRAMES
}

fn ranking_frames() -> &'static [(i64, i64, u32, &'static [i64])] {
    &RANKING_FRAMES
}

fn choice_variables() -> &'static [(i64, i64, u32, Literal)] {
    &CHOICE_VARIABLES
}

fn ranking_variables() -> &'static [(i64, i64, u32, Literal)] {
    &RANKING_VARIABLES
}

fn choice_texts() -> &'static [(i64, u32, u32, &'static [u8])] {
    &CHOICE_TEXTS
}

fn ranking_texts() -> &'static [(i64, u32, u32, &'static [u8])] {
    &RANKING_TEXTS
}

fn no_choices() -> &'static [&'static [u8]] {
    &NO_CHOICES
}

fn no_rankings() -> &'static [&'static [u8]] {
    &NO_RANKINGS
}

fn choices(rt: &impl Abort, voters: i64, alternatives: i64) -> ChoiceKind {
    let space = Space::new(Size::check(Kind::Choice, voters, alternatives).expect(rt, "a size"));
    assert!(rt; space.size().kind() == Kind::Choice);
    ChoiceKind::new(space)
}

fn rankings(rt: &impl Abort, voters: i64, alternatives: i64) -> RankingKind {
    let space = Space::new(Size::check(Kind::Ranking, voters, alternatives).expect(rt, "a size"));
    assert!(rt; space.size().kind() == Kind::Ranking);
    RankingKind::new(space)
}

#[test]
fn frames_have_their_clauses(rt: HostRuntime) {
    for (voters, alternatives, p, want) in choice_frames() {
        let kind = choices(&rt, *voters, *alternatives);
        assert!(rt; has_frame(rt.alloc(), &kind, *p, want));
    }
    for (voters, alternatives, p, want) in ranking_frames() {
        let kind = rankings(&rt, *voters, *alternatives);
        assert!(rt; has_frame(rt.alloc(), &kind, *p, want));
    }
}

#[test]
fn variables_stand_for_literals(rt: HostRuntime) {
    for (voters, alternatives, variable, literal) in choice_variables() {
        let kind = choices(&rt, *voters, *alternatives);
        share(&kind);
        assert!(rt; stands_for(&kind, *variable, *literal));
    }
    for (voters, alternatives, variable, literal) in ranking_variables() {
        let kind = rankings(&rt, *voters, *alternatives);
        share(&kind);
        assert!(rt; stands_for(&kind, *variable, *literal));
    }
}

/// Whether these are the last outcome, with its text, and the number of variables of a profile.
fn ends_with<K: OutcomeKind>(kind: &K, outcome: u32, bits: u32, text: &[u8]) -> bool {
    kind.outcomes() == outcome.saturating_add(1)
        && kind.bits() == bits
        && has_text(kind, outcome, text)
}

#[test]
fn outcomes_have_texts(rt: HostRuntime) {
    for (alternatives, outcome, bits, text) in choice_texts() {
        assert!(rt; ends_with(&choices(&rt, 1, *alternatives), *outcome, *bits, text));
    }
    for (alternatives, outcome, bits, text) in ranking_texts() {
        assert!(rt; ends_with(&rankings(&rt, 1, *alternatives), *outcome, *bits, text));
    }
    for text in no_choices() {
        assert!(rt; choices(&rt, 1, 5).read(text).is_none());
    }
    for text in no_rankings() {
        assert!(rt; rankings(&rt, 1, 3).read(text).is_none());
    }
}

// Where ba alone may be cast, a rule can still give ab, and outcomes keep their places among all rankings.
#[test]
fn a_rule_gives_what_nobody_may_cast(rt: HostRuntime) {
    let size = Size::with_domain(Kind::Ranking, 2, 2, 2, true).expect(&rt, "a size");
    let space = Space::new(size);
    assert!(rt; space.size().kind() == Kind::Ranking);
    let kind = RankingKind::new(space);
    assert!(rt; kind.outcomes() == 2 && has_text(&kind, 0, b"ab") && has_text(&kind, 1, b"ba"));
}

#[test]
fn outcomes_are_decoded(rt: HostRuntime) {
    let mut all = true;
    for alternatives in 1..=5 {
        all = all && decodes(&rt, rt.alloc(), &choices(&rt, 2, alternatives), 0);
        all = all && decodes(&rt, rt.alloc(), &rankings(&rt, 1, alternatives), 0);
    }
    let last_choice = decodes(&rt, rt.alloc(), &choices(&rt, 2, 5), 14399);
    let last_ranking = decodes(&rt, rt.alloc(), &rankings(&rt, 2, 5), 14399);
    assert!(rt; all && last_choice && last_ranking);
}

// A study beside its kind is what workers share.
#[test]
fn settings_are_shared(rt: HostRuntime) -> Result<(), Fail> {
    let size = Size::check(Kind::Choice, 1, 1)?;
    let kind = ChoiceKind::new(Space::new(size));
    let study = Study::new(size, 1, Axioms::new(rt.alloc()));
    let setting = Setting {
        kind: &kind,
        study: &study,
    };
    share(&setting);
    assert!(rt; setting.kind.outcomes() == 1 && setting.study.conflicts() == 1);
    Ok(())
}
