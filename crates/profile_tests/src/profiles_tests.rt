//! Ballots and profiles by number: texts, votes and changes, where all ballots may be cast, where fewer may, and
//! where voters may be absent.

use profiles::{
    Alternatives, NotAProfile, Ranking, Space, is_above, place_of, ranking_count, ranking_text,
};
use std::process::Abort;
use vocab::{Kind, Size};

/// Voters, alternatives, and the number and the text of a profile.
static PROFILES: [(i64, i64, u32, &[u8]); 16] = [
    (2, 2, 0, b"ab|ab"),
    (2, 2, 1, b"ab|ba"),
    (2, 2, 2, b"ba|ab"),
    (2, 2, 3, b"ba|ba"),
    (1, 3, 0, b"abc"),
    (1, 3, 1, b"acb"),
    (1, 3, 2, b"bac"),
    (1, 3, 3, b"bca"),
    (1, 3, 4, b"cab"),
    (1, 3, 5, b"cba"),
    (2, 3, 27, b"cab|bca"),
    (8, 2, 255, b"ba|ba|ba|ba|ba|ba|ba|ba"),
    (3, 1, 0, b"a|a|a"),
    (3, 4, 13823, b"dcba|dcba|dcba"),
    (2, 5, 120, b"abced|abcde"),
    (2, 5, 14399, b"edcba|edcba"),
];

/// Alternatives, and the number and the text of a ballot.
static BALLOTS: [(i64, u32, &[u8]); 8] = [
    (1, 0, b"a"),
    (2, 1, b"ba"),
    (3, 3, b"bca"),
    (3, 4, b"cab"),
    (4, 23, b"dcba"),
    (4, 6, b"bacd"),
    (5, 24, b"bacde"),
    (5, 118, b"edcab"),
];

/// Texts of no profile of two voters and two alternatives.
static REFUSED: [&[u8]; 14] = [
    b"", b"ab", b"ab|", b"|ab", b"ab|ab|", b"ab|ac", b"aa|ab", b"AB|ab", b"ab||ab", b"ab|abc",
    b"ab/ab", b"|ab|ab", b"ab| ab", b"ab|ab ",
];

/// Texts of no ballot of three alternatives.
static NO_BALLOTS: [&[u8]; 8] = [b"", b"ab", b"abcd", b"aba", b"abd", b"ABC", b"aaa", b"cab|"];

/// Voters, alternatives, and how many profiles there are.
static COUNTS: [(i64, i64, u32); 8] = [
    (1, 1, 1),
    (8, 1, 1),
    (2, 2, 4),
    (8, 2, 256),
    (2, 3, 36),
    (5, 3, 7776),
    (3, 4, 13824),
    (2, 5, 14400),
];

/// Voters and alternatives of which each profile is tried.
static SPACES: [(i64, i64); 5] = [(1, 1), (1, 5), (8, 2), (2, 5), (5, 3)];

/// Voters, alternatives, the ballots (4 of 6 rankings, 2 of 6, 26 of 120, and all of one alternative), and whether
/// voters may be absent, of which each profile and each ballot is tried.
static DOMAINS: [(i64, i64, u128, bool); 5] = [
    (3, 3, 45, false),
    (3, 3, 45, true),
    (2, 3, 18, true),
    (2, 5, 0x3ff_ffff, true),
    (8, 1, 1, true),
];

/// Alternatives x and y, and whether voter 1, voter 2 and the majority have x above y at cab|bca.
static VOTES: [(u32, u32, [bool; 3]); 7] = [
    (0, 1, [true, false, false]),
    (1, 0, [false, true, false]),
    (0, 2, [false, false, false]),
    (2, 0, [true, true, true]),
    (1, 2, [false, true, false]),
    (2, 1, [true, false, false]),
    (1, 1, [false, false, false]),
];

/// Alternatives x and y, and whether voters 1, 2 and 3 and the majority have x above y at bca|-|cba.
static VOTES_OF_TWO: [(u32, u32, [bool; 4]); 6] = [
    (0, 1, [false, false, false, false]),
    (1, 0, [true, false, true, true]),
    (1, 2, [true, false, false, false]),
    (2, 1, [false, false, true, false]),
    (2, 0, [true, false, true, true]),
    (0, 0, [false, false, false, false]),
];

/// Two of three alternatives, or one twice.
static EXCHANGES: [(u32, u32); 4] = [(0, 1), (0, 2), (1, 2), (1, 1)];

/// Two alternatives each, of which a majority has the first above the second, in the paradox of Condorcet.
static CYCLE: [(u32, u32); 3] = [(0, 1), (1, 2), (2, 0)];

/// Alternatives, and how many rankings they have.
static RANKINGS: [(u8, u32); 5] = [(1, 1), (2, 2), (3, 6), (4, 24), (5, 120)];

/// The ballots (1: ab, 3: ab and ba), whether voters may be absent, and the text of no profile of two voters.
static NO_PROFILES: [(u128, bool, &[u8]); 14] = [
    (3, true, b"-|-"),
    (1, true, b"-|-"),
    (3, true, b"--"),
    (3, true, b"-"),
    (3, true, b"ab|"),
    (3, true, b"-|"),
    (3, true, b"|-"),
    (3, true, b"-|ab|-"),
    (3, true, b"-ab|ab"),
    (3, true, b"ab|-ab"),
    (1, true, b"ba|-"),
    (1, false, b"ab|ba"),
    (3, false, b"ab|-"),
    (1, false, b"-|ab"),
];

// Each table is handed out as a slice, so that the proof of a test need not read it.
fn profiles() -> &'static [(i64, i64, u32, &'static [u8])] {
    &PROFILES
}

fn ballots_of() -> &'static [(i64, u32, &'static [u8])] {
    &BALLOTS
}

fn refused() -> &'static [&'static [u8]] {
    &REFUSED
}

fn no_ballots() -> &'static [&'static [u8]] {
    &NO_BALLOTS
}

fn counts_of() -> &'static [(i64, i64, u32)] {
    &COUNTS
}

fn spaces() -> &'static [(i64, i64)] {
    &SPACES
}

fn domains() -> &'static [(i64, i64, u128, bool)] {
    &DOMAINS
}

fn votes_of() -> &'static [(u32, u32, [bool; 3])] {
    &VOTES
}

fn votes_of_two() -> &'static [(u32, u32, [bool; 4])] {
    &VOTES_OF_TWO
}

fn exchanges() -> &'static [(u32, u32)] {
    &EXCHANGES
}

fn cycle() -> &'static [(u32, u32)] {
    &CYCLE
}

fn rankings() -> &'static [(u8, u32)] {
    &RANKINGS
}

fn no_profiles() -> &'static [(u128, bool, &'static [u8])] {
    &NO_PROFILES
}

fn space(rt: &impl Abort, voters: i64, alternatives: i64) -> Space {
    Space::new(Size::check(Kind::Choice, voters, alternatives).expect(rt, "a size"))
}

/// Whether this is the text of a profile, and no other profile has it.
fn is_text(space: &Space, p: u32, text: &[u8]) -> bool {
    p < space.count() && space.profile_text(p).bytes() == text && space.read_profile(text) == Ok(p)
}

/// Whether each profile of a space is the one that its text is read as.
fn are_read_back(space: &Space) -> bool {
    for p in 0..space.count() {
        if space.read_profile(space.profile_text(p).bytes()) != Ok(p) {
            return false;
        }
    }
    true
}

#[test]
fn texts_and_numbers(rt: HostRuntime) {
    for (voters, alternatives, p, text) in profiles() {
        assert!(rt; is_text(&space(&rt, *voters, *alternatives), *p, text));
    }
}

#[test]
fn ballots(rt: HostRuntime) {
    for (alternatives, b, text) in ballots_of() {
        let space = space(&rt, 2, *alternatives);
        assert!(rt; *b < space.size().sort_len(vocab::Sort::Ballot));
        assert!(rt; space.ballot_text(*b).bytes() == *text && space.read_ballot(text) == Some(*b));
    }
}

#[test]
fn refusals(rt: HostRuntime) {
    let space = space(&rt, 2, 2);
    for text in refused() {
        assert!(rt; space.read_profile(text) == Err(NotAProfile));
    }
}

#[test]
fn every_number_is_that_of_its_text(rt: HostRuntime) {
    for (voters, alternatives) in spaces() {
        assert!(rt; are_read_back(&space(&rt, *voters, *alternatives)));
    }
}

#[test]
fn counts(rt: HostRuntime) {
    for (voters, alternatives, count) in counts_of() {
        assert!(rt; space(&rt, *voters, *alternatives).count() == *count);
    }
}

#[test]
fn not_ballots(rt: HostRuntime) {
    let space = space(&rt, 2, 3);
    for text in no_ballots() {
        assert!(rt; space.read_ballot(text) == None);
    }
}

// At profile 27 voter 1 has c above a above b, and voter 2 has b above c above a.
#[test]
fn votes(rt: HostRuntime) {
    let space = space(&rt, 2, 3);
    assert!(rt; space.count() == 36);
    assert!(rt; space.size().voters() == 2);
    assert!(rt; space.size().alternatives() == 3);
    assert!(rt; space.ballots() == 6);
    for (x, y, above) in votes_of() {
        assert!(rt; *x < 3 && *y < 3);
        let found = [
            space.prefers(0, *x, *y, 27),
            space.prefers(1, *x, *y, 27),
            space.majority(*x, *y, 27),
        ];
        assert!(rt; found == *above && space.better(4, *x, *y) == above[0]);
    }
    assert!(rt; [space.casts(0, 4, 27), space.casts(1, 4, 27)] == [true, false]);
    assert!(rt; space.ballot_of(27, 1) == 3);
}

#[test]
fn changes(rt: HostRuntime) {
    let space = space(&rt, 2, 3);
    assert!(rt; space.count() == 36);
    assert!(rt; space.size().voters() == 2);
    assert!(rt; space.size().alternatives() == 3);
    assert!(rt; space.size().has_all_ballots());
    let found = [
        space.with(27, 1, 0),
        space.swap_voters(27, 0, 1),
        space.swap_voters(27, 1, 1),
        space.swap_alts(27, 0, 1),
        space.swap_alts(27, 2, 2),
    ];
    // cab|abc, bca|cab, cab|bca, cba|acb and cab|bca
    assert!(rt; found == [24, 22, 27, 31, 27]);
    let others = [
        space.swap(0, 1, 0),
        space.swap(0, 1, 1),
        space.swap(0, 1, 2),
    ];
    assert!(rt; others == [1, 0, 2]);
}

#[test]
fn two_exchanges_of_two_alternatives_are_none(rt: HostRuntime) {
    let space = space(&rt, 2, 3);
    assert!(rt; space.size().alternatives() == 3);
    assert!(rt; space.size().has_all_ballots());
    for p in 0..space.count() {
        for (x, y) in exchanges() {
            assert!(rt; *x < 3 && *y < 3);
            let once = space.swap_alts(p, *x, *y);
            assert!(rt; space.swap_alts(once, *x, *y) == p);
        }
    }
}

// The paradox of Condorcet: of abc, bca and cab a majority has a above b, one b above c, and one c above a.
#[test]
fn paradox_of_condorcet(rt: HostRuntime) {
    let space = space(&rt, 3, 3);
    assert!(rt; space.size().alternatives() == 3);
    let p = space.read_profile(b"abc|bca|cab").expect(&rt, "a profile");
    for (x, y) in cycle() {
        assert!(rt; *x < 3 && *y < 3);
        let found = [space.majority(*x, *y, p), space.majority(*y, *x, p)];
        assert!(rt; found == [true, false]);
    }
}

#[test]
fn laws(rt: HostRuntime) {
    let space = space(&rt, 5, 3);
    profiles::laws::spaces_have_sizes(&space);
    profiles::laws::texts_are_distinct(&space);
}

/// The space of a size at which the rankings of some places may be cast.
fn domain(rt: &impl Abort, voters: i64, alternatives: i64, ballots: u128, absent: bool) -> Space {
    let size = Size::with_domain(Kind::Choice, voters, alternatives, ballots, absent);
    Space::new(size.expect(rt, "a size"))
}

// Of the six rankings of a, b and c, those at places 0, 2, 3 and 5 may be cast: abc, bac, bca and cba.
#[test]
fn fewer_ballots(rt: HostRuntime) {
    let space = domain(&rt, 3, 3, 45, false);
    assert!(rt; space.count() == 64);
    assert!(rt; space.ballots() == 4);
    assert!(rt; space.ballot_text(2).bytes() == b"bca".as_slice());
    assert!(rt; [space.read_ballot(b"bca"), space.read_ballot(b"acb")] == [Some(2), None]);
    assert!(rt; is_text(&space, 27, b"bac|bca|cba"));
    assert!(rt; space.read_profile(b"bac|acb|cba") == Err(NotAProfile));
}

// At bac|bca|cba all have b above a, and the second and third have c above a.
#[test]
fn votes_of_fewer_ballots(rt: HostRuntime) {
    let space = domain(&rt, 3, 3, 45, false);
    assert!(rt; space.count() == 64);
    assert!(rt; space.size().voters() == 3);
    assert!(rt; space.size().alternatives() == 3);
    let above = [
        space.prefers(0, 0, 2, 27),
        space.prefers(1, 2, 0, 27),
        space.majority(2, 0, 27),
    ];
    assert!(rt; above == [true; 3]);
}

// Two voters with both ballots: ab|ab, ab|ba, ab|-, ba|ab, ba|ba, ba|-, -|ab and -|ba.
#[test]
fn absence_is_a_cast(rt: HostRuntime) {
    let space = domain(&rt, 2, 2, 3, true);
    assert!(rt; space.count() == 8);
    assert!(rt; are_read_back(&space) && is_text(&space, 2, b"ab|-"));
    assert!(rt; space.read_profile(b"-|-") == Err(NotAProfile));
}

#[test]
fn changes_with_an_absent_voter(rt: HostRuntime) {
    let space = domain(&rt, 2, 2, 3, true);
    assert!(rt; space.count() == 8);
    assert!(rt; space.size().voters() == 2);
    assert!(rt; space.size().alternatives() == 2);
    assert!(rt; space.size().has_all_ballots());
    assert!(rt; space.ballots() == 2);
    let found = [
        space.ballot_of(2, 1),
        space.swap_voters(2, 0, 1),
        space.with(2, 1, 1),
        space.swap_alts(2, 0, 1),
    ];
    // absent, -|ab, ab|ba and ba|-
    assert!(rt; found == [2, 6, 1, 5]);
}

// At ab|- the voter who is there decides.
#[test]
fn votes_with_an_absent_voter(rt: HostRuntime) {
    let space = domain(&rt, 2, 2, 3, true);
    assert!(rt; space.count() == 8);
    assert!(rt; space.size().voters() == 2);
    assert!(rt; space.size().alternatives() == 2);
    assert!(rt; space.ballots() == 2);
    let found = [
        space.prefers(1, 0, 1, 2),
        space.prefers(1, 1, 0, 2),
        space.majority(0, 1, 2),
        space.casts(1, 1, 2),
    ];
    assert!(rt; found == [false, false, true, false]);
}

// Where ba alone may be cast, it is ballot 0, though it has place 1 among all rankings.
#[test]
fn one_ballot(rt: HostRuntime) {
    let space = domain(&rt, 2, 2, 2, false);
    assert!(rt; space.count() == 1);
    assert!(rt; space.ballots() == 1);
    assert!(rt; space.size().alternatives() == 2);
    assert!(rt; space.ballot_text(0).bytes() == b"ba".as_slice());
    assert!(rt; [space.read_ballot(b"ba"), space.read_ballot(b"ab")] == [Some(0), None]);
    assert!(rt; is_text(&space, 0, b"ba|ba"));
    let above = [
        space.better(0, 1, 0),
        space.better(0, 0, 1),
        space.majority(1, 0, 0),
    ];
    assert!(rt; above == [true, false, true]);
}

// Two voters, one ballot and absence: ab|ab, ab|- and -|ab.
#[test]
fn one_ballot_and_absence(rt: HostRuntime) {
    let space = domain(&rt, 2, 2, 1, true);
    assert!(rt; space.count() == 3);
    let texts: [&[u8]; 3] = [b"ab|ab", b"ab|-", b"-|ab"];
    each_text_has_its_number(&rt, &space, &texts);
}

#[test]
fn both_ballots_and_absence(rt: HostRuntime) {
    let space = domain(&rt, 2, 2, 3, true);
    assert!(rt; space.count() == 8);
    let texts: [&[u8]; 8] = [
        b"ab|ab", b"ab|ba", b"ab|-", b"ba|ab", b"ba|ba", b"ba|-", b"-|ab", b"-|ba",
    ];
    each_text_has_its_number(&rt, &space, &texts);
}

/// The texts are those of the profiles 0, 1, 2 and so on.
fn each_text_has_its_number(rt: &impl Abort, space: &Space, texts: &[&[u8]]) {
    let mut p = 0;
    for text in texts {
        assert!(rt; p < space.count() && is_text(space, p, text));
        p += 1;
    }
}

#[test]
fn refusals_of_a_domain(rt: HostRuntime) {
    for (ballots, absent, text) in no_profiles() {
        let space = domain(&rt, 2, 2, *ballots, *absent);
        assert!(rt; space.read_profile(text) == Err(NotAProfile));
    }
}

#[test]
fn every_number_of_a_domain_is_that_of_its_text(rt: HostRuntime) {
    for (voters, alternatives, ballots, absent) in domains() {
        let space = domain(&rt, *voters, *alternatives, *ballots, *absent);
        assert!(rt; are_read_back(&space));
        for b in 0..space.ballots() {
            assert!(rt; space.read_ballot(space.ballot_text(b).bytes()) == Some(b));
        }
    }
}

/// Three voters who cast abc, bac, bca or cba, or are absent.
fn four_ballots_and_absence(rt: &impl Abort) -> Space {
    domain(rt, 3, 3, 45, true)
}

// At profile 73 voter 1 casts bca, voter 2 is absent, and voter 3 casts cba: 73 = 2 * 25 + 4 * 5 + 3.
#[test]
fn votes_around_an_absent_voter(rt: HostRuntime) {
    let space = four_ballots_and_absence(&rt);
    assert!(rt; space.count() == 124);
    assert!(rt; space.size().voters() == 3);
    assert!(rt; space.size().alternatives() == 3);
    assert!(rt; space.profile_text(73).bytes() == b"bca|-|cba".as_slice());
    for (x, y, above) in votes_of_two() {
        assert!(rt; *x < 3 && *y < 3);
        let found = [
            space.prefers(0, *x, *y, 73),
            space.prefers(1, *x, *y, 73),
            space.prefers(2, *x, *y, 73),
            space.majority(*x, *y, 73),
        ];
        assert!(rt; found == *above);
    }
}

#[test]
fn casts_around_an_absent_voter(rt: HostRuntime) {
    let space = four_ballots_and_absence(&rt);
    assert!(rt; space.count() == 124);
    assert!(rt; space.size().voters() == 3);
    assert!(rt; space.ballots() == 4);
    assert!(rt; space.casts(0, 2, 73) && space.casts(2, 3, 73));
    for b in 0..4 {
        assert!(rt; !space.casts(1, b, 73));
    }
    let found = [
        space.ballot_of(73, 1),
        space.with(73, 1, 0),
        space.with(73, 2, 1),
        space.swap_voters(73, 0, 1),
        space.swap_voters(73, 2, 0),
    ];
    // absent, bca|abc|cba, bca|-|bac, -|bca|cba and cba|-|bca
    assert!(rt; found == [4, 53, 71, 113, 97]);
}

// At abc|-|- the one voter who is there is a majority, and two absent voters exchange nothing.
#[test]
fn one_voter_of_three_is_there(rt: HostRuntime) {
    let space = four_ballots_and_absence(&rt);
    assert!(rt; space.count() == 124);
    assert!(rt; space.size().voters() == 3);
    assert!(rt; space.size().alternatives() == 3);
    assert!(rt; space.profile_text(24).bytes() == b"abc|-|-".as_slice());
    assert!(rt; [space.majority(0, 2, 24), space.majority(2, 0, 24)] == [true, false]);
    // abc|-|- and -|-|abc
    assert!(rt; [space.swap_voters(24, 1, 2), space.swap_voters(24, 0, 2)] == [24, 120]);
}

// Whatever a size's ballots are: among all rankings acb has place 1 and cab place 4.
#[test]
fn rankings_by_place(rt: HostRuntime) {
    for (number, count) in rankings() {
        assert!(rt; 1 <= *number && *number <= 5);
        assert!(rt; ranking_count(Alternatives { number: *number }) == *count);
    }
    let three = Alternatives { number: 3 };
    let four = Alternatives { number: 4 };
    let places = [
        place_of(three, b"acb"),
        place_of(three, b"cab"),
        place_of(three, b"caa"),
        place_of(four, b"cab"),
    ];
    assert!(rt; places == [Some(1), Some(4), None, None]);
    let cab = Ranking {
        alternatives: three,
        place: 4,
    };
    let bacd = Ranking {
        alternatives: four,
        place: 6,
    };
    assert!(rt; ranking_text(cab).bytes() == b"cab".as_slice());
    assert!(rt; ranking_text(bacd).bytes() == b"bacd".as_slice());
    let above = [
        is_above(cab, 2, 0),
        is_above(cab, 1, 0),
        is_above(cab, 0, 0),
    ];
    assert!(rt; above == [true, false, false]);
}
