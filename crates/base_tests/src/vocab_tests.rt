//! The edges of names and sizes, and each call once.

ghost use Rattle.std.specs.Prelude.{◌≡◌, IfOk};
ghost use Rattle.vocab.specs.declared.kinds.Sort.TheVariants.{Profile, Voter};
ghost use Rattle.vocab.specs.Tree.{tree_of, All, Exists, Leaf, Var, WinsAt};

use lists::NoMemory;
use std::alloc::Global;
use std::test::Fail;
use vocab::{
    Atom, Axiom, Axioms, Env, Formula, Kind, Literal, Name, Named, NamedTerm, Size, SizeFault,
    Sort, Study, Term, Terms,
};

static NAMES: [&[u8]; 3] = [b"a", b"z9_", b"a23456789_123456789_123456789_12"];

static NO_NAMES: [&[u8]; 10] = [
    b"",
    b"A",
    b"aB",
    b"9a",
    b"_a",
    b"a b",
    b"a-b",
    b"`",
    b"{",
    b"a23456789_123456789_123456789_123",
];

/// Voters and alternatives.
static SIZES: [(i64, i64); 7] = [(1, 1), (8, 1), (1, 5), (2, 5), (3, 4), (5, 3), (8, 2)];

/// Voters, alternatives, and why they are no size.
static NO_SIZES: [(i64, i64, SizeFault); 6] = [
    (0, 1, SizeFault::Voters(0)),
    (9, 6, SizeFault::Voters(9)),
    (1, 0, SizeFault::Alternatives(0)),
    (1, 6, SizeFault::Alternatives(6)),
    (6, 3, SizeFault::Profiles(46_656)),
    (3, 5, SizeFault::Profiles(1_728_000)),
];

/// All rankings of five alternatives.
const ALL_OF_FIVE: u128 = (1 << 120) - 1;

/// Voters, alternatives, the ballots, whether voters may be absent, and how many ballots and profiles there are.
/// Digit j of the ballots stands for the j-th ranking: 1 is ab of two alternatives, 3 is ab and ba, and 45 is
/// abc, bac, bca and cba of three. With absence there are (B + 1)^n - 1 profiles, since some voter is there.
static DOMAINS: [(i64, i64, u128, bool, u32, u32); 11] = [
    (1, 2, 1, false, 1, 1),
    (3, 2, 2, false, 1, 1),
    (1, 2, 1, true, 1, 1),
    (3, 2, 1, true, 1, 7),
    (2, 2, 3, false, 2, 4),
    (2, 2, 3, true, 2, 8),
    (8, 1, 1, true, 1, 255),
    (3, 3, 45, false, 4, 64),
    (3, 3, 45, true, 4, 124),
    (3, 5, 0x3ff_ffff, true, 26, 19_682),
    (2, 5, ALL_OF_FIVE, true, 120, 14_640),
];

/// Alternatives, the ballots, whether voters may be absent, whether the ballots are all, and whether the domain
/// is full.
static FULL: [(i64, u128, bool, bool, bool); 8] = [
    (1, 1, false, true, true),
    (1, 1, true, true, false),
    (2, 1, false, false, false),
    (2, 3, false, true, true),
    (2, 3, true, true, false),
    (3, 45, false, false, false),
    (3, 45, true, false, false),
    (3, 63, false, true, true),
];

/// Voters, alternatives, and all ballots.
static PLAIN: [(i64, i64, u128); 4] = [(8, 1, 1), (8, 2, 3), (5, 3, 63), (2, 5, ALL_OF_FIVE)];

/// Voters, alternatives, the ballots, whether voters may be absent, and why these are no size. The upper rows have
/// a later fault too; the lower ones are on the edge of their own.
static NO_DOMAINS: [(i64, i64, u128, bool, SizeFault); 13] = [
    (0, 0, 0, false, SizeFault::Voters(0)),
    (9, 6, u128::MAX, true, SizeFault::Voters(9)),
    (8, 0, 0, true, SizeFault::Alternatives(0)),
    (8, 6, u128::MAX, true, SizeFault::Alternatives(6)),
    (8, 5, u128::MAX, true, SizeFault::Domain),
    (8, 5, 0, true, SizeFault::Domain),
    (1, 2, 0, false, SizeFault::Domain),
    (1, 2, 4, false, SizeFault::Domain),
    (1, 2, 7, false, SizeFault::Domain),
    (2, 5, 1 << 120, false, SizeFault::Domain),
    (3, 5, 0x7ff_ffff, true, SizeFault::Profiles(21_951)),
    (4, 4, 0x7ff, true, SizeFault::Profiles(20_735)),
    (
        8,
        5,
        ALL_OF_FIVE,
        true,
        SizeFault::Profiles(45_949_729_863_572_160),
    ),
];

// Each table is handed out as a slice, so that the proof of a test need not read it.
fn names() -> &'static [&'static [u8]] {
    &NAMES
}

fn no_names() -> &'static [&'static [u8]] {
    &NO_NAMES
}

fn sizes() -> &'static [(i64, i64)] {
    &SIZES
}

fn no_sizes() -> &'static [(i64, i64, SizeFault)] {
    &NO_SIZES
}

fn domains() -> &'static [(i64, i64, u128, bool, u32, u32)] {
    &DOMAINS
}

fn full() -> &'static [(i64, u128, bool, bool, bool)] {
    &FULL
}

fn plain() -> &'static [(i64, i64, u128)] {
    &PLAIN
}

fn no_domains() -> &'static [(i64, i64, u128, bool, SizeFault)] {
    &NO_DOMAINS
}

#[test]
fn names_have_1_to_32_bytes_of_their_shape(rt: HostRuntime) {
    for text in names() {
        assert!(rt; Name::new(text).is_some());
    }
    for text in no_names() {
        assert!(rt; Name::new(text).is_none());
    }
}

#[test]
fn names_give_their_bytes(rt: HostRuntime) -> Result<(), Fail> {
    let name = Name::new(b"no_veto").ok_or("a name")?;
    assert!(rt; name.bytes() == b"no_veto".as_slice());
    Ok(())
}

/// The size of these numbers, or its fault, which the prover need not compute.
fn size_of(kind: Kind, voters: i64, alternatives: i64) -> Result<Size, SizeFault> {
    Size::check(kind, voters, alternatives)
}

#[test]
fn sizes_have_their_limits(rt: HostRuntime) {
    for (voters, alternatives) in sizes() {
        assert!(rt; size_of(Kind::Choice, *voters, *alternatives).is_ok());
    }
    for (voters, alternatives, fault) in no_sizes() {
        assert!(rt; size_of(Kind::Ranking, *voters, *alternatives) == Err(*fault));
    }
}

/// How many values the sorts have, in the order of voters, alternatives, ballots and profiles.
fn lengths(size: Size) -> [u32; 4] {
    [
        size.sort_len(Sort::Voter),
        size.sort_len(Sort::Alt),
        size.sort_len(Sort::Ballot),
        size.sort_len(Sort::Profile),
    ]
}

#[test]
fn sorts_have_their_lengths(rt: HostRuntime) -> Result<(), Fail> {
    let size = size_of(Kind::Ranking, 2, 3).ok().ok_or("a size")?;
    assert!(rt; size.kind() == Kind::Ranking);
    assert!(rt; [size.voters(), size.alternatives()] == [2, 3]);
    assert!(rt; lengths(size) == [2, 3, 6, 36]);
    Ok(())
}

/// The size of these numbers at which these ballots may be cast, or its fault, which the prover need not compute.
fn domain(voters: i64, alternatives: i64, ballots: u128, absent: bool) -> Result<Size, SizeFault> {
    Size::with_domain(Kind::Choice, voters, alternatives, ballots, absent)
}

#[test]
fn domains_have_their_lengths(rt: HostRuntime) -> Result<(), Fail> {
    for (voters, alternatives, ballots, absent, count, profiles) in domains() {
        let size = domain(*voters, *alternatives, *ballots, *absent)
            .ok()
            .ok_or("a size")?;
        let found = [size.sort_len(Sort::Ballot), size.sort_len(Sort::Profile)];
        assert!(rt; found == [*count, *profiles]);
        assert!(rt; size.ballots() == *ballots && size.absent() == *absent);
    }
    Ok(())
}

#[test]
fn domains_are_full_or_not(rt: HostRuntime) -> Result<(), Fail> {
    for (alternatives, ballots, absent, all, full) in full() {
        let size = domain(2, *alternatives, *ballots, *absent)
            .ok()
            .ok_or("a size")?;
        assert!(rt; [size.has_all_ballots(), size.full()] == [*all, *full]);
    }
    Ok(())
}

#[test]
fn all_ballots_are_the_default(rt: HostRuntime) {
    for (voters, alternatives, ballots) in plain() {
        let of_all = domain(*voters, *alternatives, *ballots, false);
        assert!(rt; of_all == size_of(Kind::Choice, *voters, *alternatives));
    }
}

#[test]
fn domains_have_faults_in_order(rt: HostRuntime) {
    for (voters, alternatives, ballots, absent, fault) in no_domains() {
        assert!(rt; domain(*voters, *alternatives, *ballots, *absent) == Err(*fault));
    }
}

#[test]
fn literals_have_opposites(rt: HostRuntime) {
    let found = [
        Literal::Wins(1, 7).opposite(),
        Literal::Loses(0, 7).opposite(),
        Literal::Above(2, 0, 7).opposite(),
    ];
    assert!(rt;
        found
            == [
                Literal::Loses(1, 7),
                Literal::Wins(0, 7),
                Literal::Above(0, 2, 7),
            ]
    );
}

#[test]
fn environments_grow_at_the_end(rt: HostRuntime) {
    let env = Env::none().with(30).with(10);
    assert!(rt; env.len() == 2 && [env.get(0), env.get(1)] == [30, 10]);
}

/// The value of the second quantifier wins at that of the first. In a box, as what follows, so that a test drops it
/// by one call.
fn winner(alloc: Global) -> Result<Box<Formula>, NoMemory>
    ensures { IfOk result (λ f. tree_of f.value ≡ Leaf (WinsAt (Var 1) (Var 0))) }
{
    let atom = Atom::Wins(Term::Var(1), Term::Var(0));
    Ok(Box::new(alloc, Formula::Leaf(atom))?)
}

/// That, for some voter.
fn some_winner(alloc: Global) -> Result<Box<Formula>, NoMemory>
    ensures { IfOk result (λ f. tree_of f.value ≡ Exists Voter (Leaf (WinsAt (Var 1) (Var 0)))) }
{
    let winner = winner(alloc)?;
    Ok(Box::new(alloc, Formula::Exists(Sort::Voter, winner))?)
}

/// That, for all profiles.
fn two_quantifiers(alloc: Global) -> Result<Box<Formula>, NoMemory>
    ensures { IfOk result
        (λ f. tree_of f.value ≡ All Profile (Exists Voter (Leaf (WinsAt (Var 1) (Var 0))))) }
{
    let inner = some_winner(alloc)?;
    Ok(Box::new(alloc, Formula::All(Sort::Profile, inner))?)
}

#[test]
fn leading_universals_are_counted(rt: HostRuntime) -> Result<(), Fail> {
    let sentence = two_quantifiers(rt.alloc())?;
    let one = sentence.prefix() == 1;
    assert!(rt; one && matches!(sentence.body(), Formula::Exists(Sort::Voter, _)));
    Ok(())
}

/// The axiom of this name that the first alternative wins at profile 3.
pub fn axiom_of(alloc: Global, name: Name) -> Result<Box<Axiom>, NoMemory> {
    let atom = Atom::Wins(Term::Const(0), Term::Const(3));
    Ok(Box::new(alloc, Axiom::new(name, Formula::Leaf(atom)))?)
}

/// Whether that axiom has its name and its sentence.
fn has_parts(axiom: &Axiom, name: Name) -> bool {
    axiom.name() == name && matches!(axiom.sentence(), Formula::Leaf(Atom::Wins(_, _)))
}

/// The study of this size without axioms, of which a search may learn one clause.
pub fn study_of(alloc: Global, size: Size) -> Result<Box<Study>, NoMemory> {
    Ok(Box::new(alloc, Study::new(size, 1, Axioms::new(alloc)))?)
}

#[test]
fn studies_keep_their_parts(rt: HostRuntime) -> Result<(), Fail> {
    let name = Name::new(b"a_wins").ok_or("a name")?;
    let axiom = axiom_of(rt.alloc(), name)?;
    assert!(rt; has_parts(&axiom, name));
    let size = size_of(Kind::Choice, 2, 2).ok().ok_or("a size")?;
    let study = study_of(rt.alloc(), size)?;
    assert!(rt; study.size() == size && study.conflicts() == 1 && study.axioms().is_empty());
    Ok(())
}

/// The alternative a and voter 1, as arguments.
fn arguments(alloc: Global) -> Result<Terms, NoMemory> {
    let mut terms = Terms::new(alloc);
    terms.push(NamedTerm::Alt(0))?;
    terms.push(NamedTerm::Voter(1))?;
    Ok(terms)
}

#[test]
fn calls_keep_their_arguments(rt: HostRuntime) -> Result<(), Fail> {
    let wins = Name::new(b"wins").ok_or("a name")?;
    let terms = arguments(rt.alloc())?;
    assert!(rt; terms.len() == 2 && matches!(terms.get(1), NamedTerm::Voter(1)));
    let _sentence = Box::new(rt.alloc(), Named::Pred(wins, terms))?;
    Ok(())
}
