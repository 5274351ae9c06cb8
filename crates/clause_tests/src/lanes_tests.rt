//! What is told of instances, held against their measures: those that are known to be true have no clauses.
//! How many there are is worked out by hand, and all of them are told.
//!
//! Independence of two voters: 9 pairs of alternatives at 36 times 36 profiles. The three of one alternative
//! say nothing; of any other pair three quarters of the profiles differ, since each of two voters agrees on it
//! in half of them. With the rankings abc, bac, bca and cba alone, a voter agrees in 10 of 16 on a and b and on
//! b and c, and in 8 of 16 on a and c. Of 48 profiles of two voters of whom one may be absent, 9 have both
//! voters above, 12 the first alone, 12 the second and 15 none: 594 of 2304 pairs are alike. Of two voters one
//! has `b` above `a` in three quarters of the profiles, and so with `c`.
//!
//! The left side of independence is known to be true of one alternative at any profiles, and of a pair where these
//! are alike: 3888 and 1944 of all rankings, 768 and 528 of four, 6912 and 3564 where voters may be absent. That of
//! `resolute` depends on the rule.

ghost use Rattle.std.specs.Prelude.{◌≡◌, ◌≤◌, ◌<◌, length, IfOk, IsTrue};
ghost use Rattle.vocab.specs.Limits.{instance_count};
ghost use Rattle.vocab.specs.Study.{is_sentence};

use choice_sets::SetsKind;
use clause_form::measure;
use lanes::{is_told, plan_of, told, told_sides, values_of};
use lists::NoMemory;
use meaning::Counts;
use outcomes::{ChoiceKind, OutcomeKind, RankingKind};
use profiles::Space;
use std::alloc::Global;
use std::test::Fail;
use study::read_study;
use vocab::{Axiom, Kind, Study};
use worlds::instance_count;

/// Studies of one axiom, how many of its instances are known to be true, and of how many the left side is.
static CASES: [(&str, u64, u64); 5] = [
    (
        "kind = \"ranking\"\nvoters = 2\nalternatives = 3\naxioms = [\"independence\"]\n",
        9720,
        5832,
    ),
    (
        "kind = \"ranking\"\nvoters = 2\nalternatives = 3\nballots = [\"abc\", \"bac\", \"bca\", \"cba\"]\naxioms = [\"independence\"]\n",
        1776,
        1296,
    ),
    (
        "kind = \"ranking\"\nvoters = 2\nalternatives = 3\nabsent = true\naxioms = [\"independence\"]\n",
        17_172,
        10_476,
    ),
    (
        "kind = \"choice\"\nvoters = 3\nalternatives = 3\naxioms = [\"either\"]\n[sentences]\neither = \"all p: profile. all q: profile. all x: alt. ((prefers(#1, x, @a, q) | prefers(#2, x, @a, q)) | (wins(x, p) & wins(x, q)))\"\n",
        69_984,
        0,
    ),
    (
        "kind = \"sets\"\nvoters = 2\nalternatives = 3\naxioms = [\"resolute\"]\n",
        108,
        0,
    ),
];

// The cases are handed out by a function, so that the proof of a test need not read them.
fn cases() -> &'static [(&'static str, u64, u64)] {
    &CASES
}

/// Of some instances, how many are told, how many are known to be true, how many are told that are not, and of how
/// many it is told that the left side is.
#[derive(Clone, Copy, PartialEq, Eq)]
struct Tally {
    told: u64,
    known: u64,
    wrong: u64,
    premises: u64,
}

/// Counts one more instance.
fn counted(tally: Tally, told: bool, known: bool, premise: bool) -> Tally {
    Tally {
        told: tally.told.saturating_add(u64::from(told)),
        known: tally.known.saturating_add(u64::from(known)),
        wrong: tally.wrong.saturating_add(u64::from(told && !known)),
        premises: tally.premises.saturating_add(u64::from(premise)),
    }
}

/// Whether an instance is known to be true, by its measure.
fn is_known<K: OutcomeKind>(kind: &K, named: &Axiom, number: u64) -> bool
    requires sentence { IsTrue (is_sentence (K.size kind.now) named.now) }
    requires few { instance_count (K.size kind.now) named.now.sentence ≤ 40000000 }
    requires within { number < instance_count (K.size kind.now) named.now.sentence }
{
    let values = values_of(kind, named, number);
    let none = Counts {
        clauses: 0,
        literals: 0,
    };
    measure(kind, named.sentence().body(), &values) == none
}

/// The tally of all instances of an axiom, told 40 at a time.
fn tally_of<K: OutcomeKind>(alloc: Global, kind: &K, named: &Axiom) -> Result<Tally, NoMemory>
    requires sentence { IsTrue (is_sentence (K.size kind.now) named.now) }
    requires few { instance_count (K.size kind.now) named.now.sentence ≤ 40000000 }
{
    let plan = plan_of(alloc, kind, named)?;
    let mut tally = Tally {
        told: 0,
        known: 0,
        wrong: 0,
        premises: 0,
    };
    let mut word: u64 = 0;
    let mut sides = told_sides(kind, named, &plan, 0);
    for number in 0..instance_count(kind.space(), named.sentence()) {
        let lane = number % 40;
        if lane == 0 {
            word = told(kind, named, &plan, number);
            sides = told_sides(kind, named, &plan, number);
        }
        tally = counted(
            tally,
            is_told(word, lane) && is_told(sides.all, lane),
            is_known(kind, named, number),
            is_told(sides.premise, lane),
        );
    }
    Ok(tally)
}

/// The tally of the first axiom of a study.
fn tally_over<K: OutcomeKind>(alloc: Global, kind: &K, study: &Study) -> Result<Tally, NoMemory>
    requires size { study.now.size ≡ K.size kind.now }
    requires some { 1 ≤ length study.now.axioms }
{
    let axioms = study.axioms();
    tally_of(alloc, kind, axioms.get(0))
}

/// The tally of the one axiom of the study that a text says.
fn tally_in(alloc: Global, text: &str) -> Result<Tally, Fail> {
    let study = Box::new(
        alloc,
        read_study(alloc, text.as_bytes()).ok().ok_or("study")?,
    )?;
    if study.axioms().len() != 1 {
        return Err(Fail::from("another study"));
    }
    let space = Space::new(study.size());
    match study.size().kind() {
        Kind::Choice => Ok(tally_over(alloc, &ChoiceKind::new(space), &study)?),
        Kind::Ranking => Ok(tally_over(alloc, &RankingKind::new(space), &study)?),
        Kind::Sets => Ok(tally_over(alloc, &SetsKind::new(space), &study)?),
    }
}

/// The first case of which another number is told or is known, or of which one is told that is not known; or of which
/// another number of left sides is told.
fn first_wrong(alloc: Global) -> Result<Option<usize>, Fail> {
    let rows = cases();
    for k in 0..rows.len() {
        let (text, known, premises) = rows[k];
        let want = Tally {
            told: known,
            known,
            wrong: 0,
            premises,
        };
        if tally_in(alloc, text)? != want {
            return Ok(Some(k));
        }
    }
    Ok(None)
}

#[test]
fn what_is_told_is_known_to_be_true(rt: HostRuntime) -> Result<(), Fail> {
    assert!(rt; first_wrong(rt.alloc())?.is_none());
    Ok(())
}
