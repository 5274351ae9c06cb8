//! Stories of proofs that are worked out by hand: for one voter and one alternative `a`, where variable 1
//! says that `a` wins at the one profile; and for two voters and two alternatives, where variables 1 to 4
//! say that `a` stands above `b` at the profiles ab|ab, ab|ba, ba|ab and ba|ba.

ghost use Rattle.std.specs.Prelude.{◌≡◌};

use crate::studies_by_text::{clauses_of, lines_of, none_wins, study_of};
use core_reduce::variables;
use lrat_check::{check, trim};
use meaning::{Reason, StoryStep};
use outcomes::{ChoiceKind, OutcomeKind, RankingKind, Setting};
use profiles::Space;
use retell::{retell, retell_simply};
use search_logs::all_places;
use std::alloc::Global;
use std::test::Fail;
use std::thread::Threads;
use story::Story;
use vocab::{Env, Kind, Literal, Study};

/// `a` stands above `b` at an odd number of the first three profiles, and at an even number. The eight
/// clauses have all signs of the variables 1 to 3, so that no literal fails.
static PARITIES: &str =
    "kind = \"ranking\"\nvoters = 2\nalternatives = 2\naxioms = [\"odd\", \"even\"]\n[sentences]\nodd = \"all p: profile. (ranks(@a, @b, with(with(p, #1, <ab>), #2, <ab>)) <-> (ranks(@a, @b, with(with(p, #1, <ab>), #2, <ba>)) <-> ranks(@a, @b, with(with(p, #1, <ba>), #2, <ab>))))\"\neven = \"all p: profile. !(ranks(@a, @b, with(with(p, #1, <ab>), #2, <ab>)) <-> (ranks(@a, @b, with(with(p, #1, <ab>), #2, <ba>)) <-> ranks(@a, @b, with(with(p, #1, <ba>), #2, <ab>))))\"\n";

/// A refutation of them, whose third line has a literal too many: once 1 is learned, its opposite is false.
static LONG: &str = "9 1 2 0 4 8 0\n10 1 0 9 3 7 0\n11 -1 2 0 2 6 0\n12 0 10 11 1 5 0\n";

// Each text is handed out by a function, so that the proof of a test need not read it.
fn parities() -> &'static str {
    PARITIES
}

fn long() -> &'static str {
    LONG
}

/// The story of a proof over the clauses of a study of a kind: told as the proof goes, or simply.
fn told<R: Threads + Sync, K: OutcomeKind>(
    rt: &R,
    alloc: Global,
    kind: &K,
    study: &Study,
    text: &str,
    simply: bool,
) -> Result<Story, Fail>
    requires size { study.now.size ≡ K.size kind.now }
{
    let count = variables(kind);
    if count > 1000 {
        return Err(Fail::from("many variables"));
    }
    let core = all_places(alloc, study)?;
    let made = clauses_of(rt, alloc, kind, study)?;
    let lines = lines_of(alloc, text, count)?;
    if check(alloc, made.clauses(), &lines).is_err() {
        return Err(Fail::from("no refutation"));
    }
    let proof = trim(alloc, made.clauses(), &lines)?;
    let setting = Setting { kind, study };
    if simply {
        return Ok(retell_simply(alloc, &setting, &core, &made, &proof)?);
    }
    Ok(retell(alloc, &setting, &core, &made, &proof)?)
}

/// There is one lemma: the frame says that `a` wins, and the axiom that it does not.
fn is_one_lemma(story: &Story) -> bool {
    let [lemma] = story.as_slice() else {
        return false;
    };
    let wins = StoryStep {
        literal: Literal::Wins(0, 0),
        reason: Reason::Outcome(0),
    };
    lemma.suppose.is_empty()
        && lemma.steps.as_slice() == [wins].as_slice()
        && lemma.last == Reason::Axiom(0, Env::none().with(0))
}

#[test]
fn proof_of_one_line_is_one_lemma(rt: HostRuntime) -> Result<(), Fail> {
    let study = study_of(rt.alloc(), none_wins())?;
    if study.size().kind() != Kind::Choice {
        return Err(Fail::from("choices"));
    }
    let kind = ChoiceKind::new(Space::new(study.size()));
    let story = told(&rt, rt.alloc(), &kind, &study, "3 0 1 2 0\n", false)?;
    assert!(rt; is_one_lemma(&story));
    Ok(())
}

/// How many suppositions the lemmas have in all.
fn suppositions(story: &Story) -> usize {
    let mut count: usize = 0;
    for lemma in story.as_slice() {
        count = count.saturating_add(lemma.suppose.len());
    }
    count
}

/// How many suppositions the story of the long proof has.
fn suppositions_of_parities<R: Threads + Sync>(
    rt: &R,
    alloc: Global,
    simply: bool,
) -> Result<usize, Fail> {
    let study = study_of(alloc, parities())?;
    if study.size().kind() != Kind::Ranking {
        return Err(Fail::from("rankings"));
    }
    let kind = RankingKind::new(Space::new(study.size()));
    let story = told(rt, alloc, &kind, &study, long(), simply)?;
    Ok(suppositions(&story))
}

#[test]
fn simpler_story_supposes_less(rt: HostRuntime) -> Result<(), Fail> {
    let given = suppositions_of_parities(&rt, rt.alloc(), false)?;
    let simpler = suppositions_of_parities(&rt, rt.alloc(), true)?;
    assert!(rt; given == 5 && simpler == 4);
    Ok(())
}
