//! Studies whose instances are counted, since their shapes do not tell that they are within the limits.
//!
//! For two voters and three alternatives there are 36 profiles, each with a frame of one clause of three
//! literals and three clauses of two. That each of three alternatives wins everywhere is three times 36
//! clauses of one literal; that one of them does is 46,656 clauses of three.

ghost use Rattle.std.specs.Prelude.{◌≡◌};
ghost use Rattle.vocab.specs.Study.{HasFewAxioms};

use crate::studies_by_text::{clauses_of, study_of};
use crew::Crew;
use edge::Open;
use instance_totals::{TotalFault, check_total};
use meaning::Counts;
use outcomes::{ChoiceKind, OutcomeKind, Setting};
use profiles::Space;
use std::alloc::Global;
use std::test::Fail;
use std::thread::Threads;
use vocab::{Kind, Study};

/// One alternative wins everywhere, said 108 times: each instance has the same 46,656 clauses.
static OVER: &str =
    "kind = \"choice\"\nvoters = 2\nalternatives = 3\naxioms = [\"same\"]\n[sentences]\nsame = \"all p: profile. all x: alt. (all q: profile. wins(@a, q) | (all q: profile. wins(@b, q) | all q: profile. wins(@c, q)))\"\n";

/// The same, or what is true: no instance has a clause.
static WITHIN: &str =
    "kind = \"choice\"\nvoters = 2\nalternatives = 3\naxioms = [\"same\"]\n[sentences]\nsame = \"all p: profile. all x: alt. (x = x | (all q: profile. wins(@a, q) | (all q: profile. wins(@b, q) | all q: profile. wins(@c, q))))\"\n";

// Each text is handed out by a function, so that the proof of a test need not read it.
fn over() -> &'static str {
    OVER
}

fn within() -> &'static str {
    WITHIN
}

/// 36 times 4 clauses of the frames and 108 times 46,656 of the instances, with 36 times 9 and 108 times
/// 139,968 literals.
const OVER_COUNTS: Counts = Counts {
    clauses: 5_038_992,
    literals: 15_116_868,
};

/// What is answered of the total of a study of a kind.
fn answer_of<R: Threads + Sync, K: OutcomeKind>(
    rt: &R,
    alloc: Global,
    kind: &K,
    study: &Study,
) -> Result<Result<(), TotalFault>, Fail>
    requires size { study.now.size ≡ K.size kind.now }
    requires listed { HasFewAxioms study.now }
{
    let crew = Crew {
        rt,
        gate: &Open,
        workers: 2,
    };
    let _made = clauses_of(rt, alloc, kind, study)?;
    let setting = Setting { kind, study };
    Ok(check_total(alloc, &crew, &setting))
}

/// What is answered of the total of the study of choices that a text says.
fn answer<R: Threads + Sync>(
    rt: &R,
    alloc: Global,
    text: &str,
) -> Result<Result<(), TotalFault>, Fail> {
    let study = study_of(alloc, text)?;
    if study.size().kind() != Kind::Choice {
        return Err(Fail::from("choices"));
    }
    answer_of(
        rt,
        alloc,
        &ChoiceKind::new(Space::new(study.size())),
        &study,
    )
}

#[test]
fn total_over_the_limit_is_told(rt: HostRuntime) -> Result<(), Fail> {
    let answer = answer(&rt, rt.alloc(), over())?;
    assert!(rt; answer == Err(TotalFault::Over(OVER_COUNTS)));
    Ok(())
}

#[test]
fn total_within_the_limit_is_accepted(rt: HostRuntime) -> Result<(), Fail> {
    let answer = answer(&rt, rt.alloc(), within())?;
    assert!(rt; answer.is_ok());
    Ok(())
}
