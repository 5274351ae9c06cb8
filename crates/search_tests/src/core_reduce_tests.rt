//! Studies that are worked out by hand. Where one voter has one alternative `a`, there is one profile, and
//! variable 1 says that `a` wins there. Where one voter has two, variables 1 and 2 say that `a` stands
//! above `b` at the profiles ab and ba.

ghost use Rattle.std.specs.Prelude.{◌≡◌};

use crate::studies_by_text::{clauses_of, lines_of, none_wins, study_of, twice_disputed};
use core_reduce::{Decision, Finding, Reduced, decide, reduce, variables};
use lrat_check::check;
use meaning::Witness;
use outcomes::{ChoiceKind, OutcomeKind, RankingKind};
use profiles::Space;
use search_logs::all_places;
use std::alloc::Global;
use std::test::Fail;
use std::thread::Threads;
use vocab::{Kind, Study};

/// What comes of a study: a rule of these outcomes; that these axioms are refuted in so many lines; or
/// nothing, where a search over these learned so many clauses.
enum Wanted {
    Rule(&'static [u8]),
    Refuted(&'static [u32], usize),
    Spent(&'static [u32], usize),
}

/// No axiom.
const FREE: &str = "kind = \"choice\"\nvoters = 1\nalternatives = 1\nconflicts = 1\naxioms = []\n";

/// The outcomes at both profiles agree, and they do not.
const DISPUTED: &str =
    "kind = \"ranking\"\nvoters = 1\nalternatives = 2\nconflicts = 100\naxioms = [\"agree\", \"differ\"]\n[sentences]\nagree = \"all p: profile. (ranks(@a, @b, with(p, #1, <ab>)) <-> ranks(@a, @b, with(p, #1, <ba>)))\"\ndiffer = \"all p: profile. !(ranks(@a, @b, with(p, #1, <ab>)) <-> ranks(@a, @b, with(p, #1, <ba>)))\"\n";

/// The same, where a search may learn one clause.
const HASTY: &str =
    "kind = \"ranking\"\nvoters = 1\nalternatives = 2\nconflicts = 1\naxioms = [\"agree\", \"differ\"]\n[sentences]\nagree = \"all p: profile. (ranks(@a, @b, with(p, #1, <ab>)) <-> ranks(@a, @b, with(p, #1, <ba>)))\"\ndiffer = \"all p: profile. !(ranks(@a, @b, with(p, #1, <ab>)) <-> ranks(@a, @b, with(p, #1, <ba>)))\"\n";

/// A refutation by the first axiom and the third, with a tautology, a clause that is taken away, and gaps
/// in its ids.
static BY_FIRST_AND_THIRD: &str = "c\n9 1 -1 0 3 0\n12 2 0 6 1 0\nc\n5 d 6 0\n20 0 12 2 5 4 0\n";

static DECIDED: [(&str, Wanted); 3] = [
    (FREE, Wanted::Rule(&[0])),
    (DISPUTED, Wanted::Refuted(&[0, 1], 2)),
    (HASTY, Wanted::Spent(&[0, 1], 1)),
];

// Each table is handed out by a function, so that the proof of a test need not read it.
fn decided_studies() -> &'static [(&'static str, Wanted)] {
    &DECIDED
}

fn by_first_and_third() -> &'static str {
    BY_FIRST_AND_THIRD
}

/// Each witness is a rule.
fn are_rules(witnesses: &[Witness]) -> bool {
    for witness in witnesses {
        if !matches!(witness, Witness::Rule(_)) {
            return false;
        }
    }
    true
}

/// These axioms are refuted in so many lines, each has a rule for the others, and no search spent its
/// limit.
fn is_refuted(answer: &Decision, core: &[u32], lines: usize) -> bool {
    let Finding::Impossible(refutation) = &answer.finding else {
        return false;
    };
    let witnesses = refutation.witnesses.as_slice();
    refutation.core.as_slice() == core
        && refutation.proof.len() == lines
        && witnesses.len() == core.len()
        && are_rules(witnesses)
        && answer.logs.is_empty()
}

/// A rule was found, with these outcomes.
fn is_rule(answer: &Decision, codes: &[u8]) -> bool {
    let Finding::Possible(table) = &answer.finding else {
        return false;
    };
    table.as_slice() == codes && answer.logs.is_empty()
}

/// Nothing was found, and one search over these axioms learned so many clauses.
fn is_spent(answer: &Decision, chosen: &[u32], lines: usize) -> bool {
    let [log] = answer.logs.as_slice() else {
        return false;
    };
    log.chosen.as_slice() == chosen
        && log.lines.len() == lines
        && matches!(&answer.finding, Finding::Undecided)
}

fn is_wanted(answer: &Decision, wanted: &Wanted) -> bool {
    match wanted {
        Wanted::Rule(codes) => is_rule(answer, codes),
        Wanted::Refuted(core, lines) => is_refuted(answer, core, *lines),
        Wanted::Spent(chosen, lines) => is_spent(answer, chosen, *lines),
    }
}

/// What is decided of a study of a kind.
fn decided<R: Threads + Sync, K: OutcomeKind>(
    rt: &R,
    alloc: Global,
    kind: &K,
    study: &Study,
) -> Result<Box<Decision>, Fail>
    requires size { study.now.size ≡ K.size kind.now }
{
    let made = clauses_of(rt, alloc, kind, study)?;
    let answer = decide(alloc, kind, study, made)?;
    Ok(Box::new(alloc, answer)?)
}

/// What is decided of the study that a text says.
fn answer<R: Threads + Sync>(rt: &R, alloc: Global, text: &str) -> Result<Box<Decision>, Fail> {
    let study = study_of(alloc, text)?;
    let space = Space::new(study.size());
    match study.size().kind() {
        Kind::Choice => decided(rt, alloc, &ChoiceKind::new(space), &study),
        Kind::Ranking => decided(rt, alloc, &RankingKind::new(space), &study),
        Kind::Sets => Err(Fail::from("sets")),
    }
}

#[test]
fn studies_are_decided(rt: HostRuntime) -> Result<(), Fail> {
    for (text, wanted) in decided_studies() {
        let answer = answer(&rt, rt.alloc(), text)?;
        assert!(rt; is_wanted(&answer, wanted));
    }
    Ok(())
}

#[test]
fn axiom_is_refuted(rt: HostRuntime) -> Result<(), Fail> {
    let answer = answer(&rt, rt.alloc(), none_wins())?;
    assert!(rt; is_refuted(&answer, [0].as_slice(), 1));
    Ok(())
}

/// What a refutation of all axioms of a study of a kind is reduced to.
fn reduced<R: Threads + Sync, K: OutcomeKind>(
    rt: &R,
    alloc: Global,
    kind: &K,
    study: &Study,
    text: &str,
) -> Result<Box<Decision>, Fail>
    requires size { study.now.size ≡ K.size kind.now }
{
    let count = variables(kind);
    if count > 1000 {
        return Err(Fail::from("many variables"));
    }
    let made = clauses_of(rt, alloc, kind, study)?;
    let lines = lines_of(alloc, text, count)?;
    if check(alloc, made.clauses(), &lines).is_err() {
        return Err(Fail::from("no refutation"));
    }
    let all = all_places(alloc, study)?;
    let Reduced { refutation, logs } = reduce(alloc, kind, study, &all, made, &lines)?;
    let finding = Finding::Impossible(refutation);
    Ok(Box::new(alloc, Decision { finding, logs })?)
}

#[test]
fn axioms_of_a_given_proof_are_the_core(rt: HostRuntime) -> Result<(), Fail> {
    let study = study_of(rt.alloc(), twice_disputed())?;
    if study.size().kind() != Kind::Ranking {
        return Err(Fail::from("rankings"));
    }
    let kind = RankingKind::new(Space::new(study.size()));
    let answer = reduced(&rt, rt.alloc(), &kind, &study, by_first_and_third())?;
    assert!(rt; is_refuted(&answer, [0, 2].as_slice(), 2));
    Ok(())
}
