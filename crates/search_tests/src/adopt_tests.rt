//! Proofs over the clauses of anonymity and neutrality, for two voters and two alternatives: the clauses 9
//! to 12 are anonymity's, and 13 to 20 neutrality's. And a proof over two axioms for one voter and two
//! alternatives, where variables 1 and 2 say that a stands above b at ab and ba.

ghost use Rattle.std.specs.Prelude.{◌≡◌};

use crate::studies_by_text::{clauses_of, hasty, lines_of, study_of, symmetric};
use adopt::{AdoptFault, Adopted, adopt};
use cnf::LineFault;
use core_reduce::variables;
use meaning::{Reason, StoryStep, Witness};
use outcomes::{ChoiceKind, OutcomeKind, RankingKind, Setting};
use profiles::Space;
use std::alloc::Global;
use std::test::Fail;
use std::thread::Threads;
use story::Story;
use vocab::{Env, Kind, Literal, Study};

/// The empty clause by the first clause, the third and the fourth.
static HASTY_PROOF: &str = "5 0 1 3 4 0\n";

/// Proofs over the clauses of anonymity and neutrality, and the line and the fault at which each is
/// refused, if it is.
static PROOFS: [(&str, Option<(u32, LineFault)>); 4] = [
    // If a won at ab|ba, then it would at ba|ab by anonymity, and b by neutrality. So b wins at ab|ba, and
    // both at ba|ab.
    ("21 -3 0 9 17 6 0\n22 0 21 3 11 19 6 0\n", None),
    // The same by other ids, after a tautology, with a clause that is taken away and hints that it does not
    // need.
    (
        "c\n30 1 -1 0 99 0\n33 -3 0 4 9 17 6 99 0\nc\n5 d 9 0\n40 0 33 3 11 19 6 0\n1 0 0\n",
        None,
    ),
    // A line whose hints end before a false clause.
    ("21 -3 0 9 17 0\n", Some((1, LineFault::NoConflict))),
    // Two faulty lines after a right one: an id that comes again, and a clause that was taken away.
    (
        "21 -3 0 9 17 6 0\n2 d 6 0\nc\n21 4 0 21 3 0\n22 0 6 0\n",
        Some((4, LineFault::Id)),
    ),
];

// Each table is handed out by a function, so that the proof of a test need not read it.
fn proofs() -> &'static [(&'static str, Option<(u32, LineFault)>)] {
    &PROOFS
}

fn hasty_proof() -> &'static str {
    HASTY_PROOF
}

/// What comes of a proof over the clauses of a study of a kind.
fn adopted<R: Threads + Sync, K: OutcomeKind>(
    rt: &R,
    alloc: Global,
    kind: &K,
    study: &Study,
    text: &str,
) -> Result<Box<Result<Adopted, AdoptFault>>, Fail>
    requires size { study.now.size ≡ K.size kind.now }
{
    let count = variables(kind);
    if count > 1000 {
        return Err(Fail::from("many variables"));
    }
    let made = clauses_of(rt, alloc, kind, study)?;
    let lines = lines_of(alloc, text, count)?;
    let setting = Setting { kind, study };
    let answer = adopt(alloc, &setting, made, &lines);
    Ok(Box::new(alloc, answer)?)
}

/// What comes of a proof over the clauses of the study that a text says.
fn answer<R: Threads + Sync>(
    rt: &R,
    alloc: Global,
    study: &str,
    proof: &str,
) -> Result<Box<Result<Adopted, AdoptFault>>, Fail> {
    let study = study_of(alloc, study)?;
    let space = Space::new(study.size());
    match study.size().kind() {
        Kind::Choice => adopted(rt, alloc, &ChoiceKind::new(space), &study, proof),
        Kind::Ranking => adopted(rt, alloc, &RankingKind::new(space), &study, proof),
        Kind::Sets => Err(Fail::from("sets")),
    }
}

/// The first of two lemmas is that a does not win at ab|ba, told as simply as literals that fail tell it.
/// If a won there, then b would at ba|ab by neutrality, and not at ab|ba; but by anonymity at both or at
/// neither.
fn is_story_of_both(story: &Story) -> bool {
    let [lemma, _] = story.as_slice() else {
        return false;
    };
    let steps = [
        StoryStep {
            literal: Literal::Wins(1, 2),
            reason: Reason::Axiom(1, Env::none().with(1).with(0).with(1).with(0)),
        },
        StoryStep {
            literal: Literal::Loses(1, 1),
            reason: Reason::Outcome(1),
        },
    ];
    lemma.suppose.as_slice() == [Literal::Wins(0, 1)].as_slice()
        && lemma.steps.as_slice() == steps.as_slice()
        && lemma.last == Reason::Axiom(0, Env::none().with(1).with(0).with(1).with(1))
}

/// Both axioms are the core, with their story, a rule for each, and no search that spent its limit.
fn is_of_both(adopted: &Adopted) -> bool {
    let [first, second] = adopted.witnesses.as_slice() else {
        return false;
    };
    adopted.core.as_slice() == [0, 1].as_slice()
        && is_story_of_both(&adopted.story)
        && matches!(first, Witness::Rule(_))
        && matches!(second, Witness::Rule(_))
        && adopted.logs.is_empty()
}

/// Both axioms are the core: the first has an open mark, of the one search that spent its limit, and the
/// second a rule.
fn has_open_mark(adopted: &Adopted) -> bool {
    let [first, second] = adopted.witnesses.as_slice() else {
        return false;
    };
    let [log] = adopted.logs.as_slice() else {
        return false;
    };
    adopted.core.as_slice() == [0, 1].as_slice()
        && matches!(first, Witness::Open(1))
        && matches!(second, Witness::Rule(_))
        && log.chosen.as_slice() == [1].as_slice()
        && log.lines.len() == 1
}

/// Both axioms are the core, or the proof is refused at this line, for this fault.
fn is_wanted(answer: &Result<Adopted, AdoptFault>, wanted: Option<(u32, LineFault)>) -> bool {
    match answer {
        Ok(adopted) => wanted.is_none() && is_of_both(adopted),
        Err(AdoptFault::Proof { at, fault }) => wanted == Some((*at, *fault)),
        Err(AdoptFault::NoMemory) => false,
    }
}

#[test]
fn refutations_of_both_are_adopted(rt: HostRuntime) -> Result<(), Fail> {
    for (text, wanted) in proofs() {
        let answer = answer(&rt, rt.alloc(), symmetric(), text)?;
        assert!(rt; is_wanted(&answer, *wanted));
    }
    Ok(())
}

#[test]
fn spent_search_leaves_an_open_mark(rt: HostRuntime) -> Result<(), Fail> {
    let answer = answer(&rt, rt.alloc(), hasty(), hasty_proof())?;
    let mut right = false;
    if let Ok(adopted) = &*answer {
        right = has_open_mark(adopted);
    }
    assert!(rt; right);
    Ok(())
}
