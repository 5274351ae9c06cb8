//! Studies whose maps are worked out by hand. Where one voter has one alternative `a`, there is one profile.
//! Where one voter has two, variables 1 and 2 say that `a` stands above `b` at the profiles ab and ba.

ghost use Rattle.std.specs.Prelude.{◌≡◌, IfOk};
ghost use Rattle.meaning.specs.StudyClauses.{study_clauses};
ghost use Rattle.search_logs.specs.Spent.{all_places};

use clause_form::Ground;
use core_maps::{CoreMap, Ending, map_axioms};
use crew::Crew;
use edge::Open;
use grounding::ground;
use outcomes::{ChoiceKind, OutcomeKind, RankingKind};
use profiles::Space;
use search_logs::all_places;
use std::alloc::Global;
use std::test::Fail;
use std::thread::Threads;
use study::read_study;
use vocab::{Kind, Places, Study};

/// No axiom.
const FREE: &str = "kind = \"choice\"\nvoters = 1\nalternatives = 1\nconflicts = 1\naxioms = []\n";

/// An axiom that no rule satisfies, and one that each does.
const BARRED: &str =
    "kind = \"choice\"\nvoters = 1\nalternatives = 1\nconflicts = 1\naxioms = [\"none\", \"onto\"]\n[sentences]\nnone = \"all p: profile. !wins(@a, p)\"\n";

/// The outcomes at both profiles agree; they do not; and again they do not.
const TWICE_DISPUTED: &str =
    "kind = \"ranking\"\nvoters = 1\nalternatives = 2\nconflicts = 100\naxioms = [\"agree\", \"differ\", \"apart\"]\n[sentences]\nagree = \"all p: profile. (ranks(@a, @b, with(p, #1, <ab>)) <-> ranks(@a, @b, with(p, #1, <ba>)))\"\ndiffer = \"all p: profile. !(ranks(@a, @b, with(p, #1, <ab>)) <-> ranks(@a, @b, with(p, #1, <ba>)))\"\napart = \"all p: profile. !(ranks(@a, @b, with(p, #1, <ab>)) <-> ranks(@a, @b, with(p, #1, <ba>)))\"\n";

/// At ab it does not; and it does at both, as it does at one and both agree. A search may learn one clause, which
/// a search over the second axiom does.
const HASTY: &str =
    "kind = \"ranking\"\nvoters = 1\nalternatives = 2\nconflicts = 1\naxioms = [\"never\", \"always\"]\n[sentences]\nnever = \"all p: profile. !ranks(@a, @b, with(p, #1, <ab>))\"\nalways = \"all p: profile. ((ranks(@a, @b, with(p, #1, <ab>)) <-> ranks(@a, @b, with(p, #1, <ba>))) & (ranks(@a, @b, with(p, #1, <ab>)) | ranks(@a, @b, with(p, #1, <ba>))))\"\n";

/// Each study with the impossible, the possible and the open sets of its map.
static MAPPED: [(&str, &[&[u32]], &[&[u32]], &[&[u32]]); 4] = [
    (FREE, &[], &[&[]], &[]),
    (BARRED, &[&[0]], &[&[1]], &[]),
    (TWICE_DISPUTED, &[&[0, 1], &[0, 2]], &[&[0], &[1, 2]], &[]),
    (HASTY, &[&[0, 1]], &[&[0]], &[&[1]]),
];

// The table is handed out by a function, so that the proof of a test need not read it.
fn mapped_studies() -> &'static [(
    &'static str,
    &'static [&'static [u32]],
    &'static [&'static [u32]],
    &'static [&'static [u32]],
)] {
    &MAPPED
}

/// The study that a text says.
fn study_of(alloc: Global, text: &str) -> Result<Box<Study>, Fail> {
    let study = read_study(alloc, text.as_bytes()).ok().ok_or("study")?;
    Ok(Box::new(alloc, study)?)
}

/// The clauses of all axioms of a study, made by one worker.
fn clauses_of<R: Threads + Sync, K: OutcomeKind>(
    rt: &R,
    alloc: Global,
    kind: &K,
    study: &Study,
) -> Result<Ground, Fail>
    requires size { study.now.size ≡ K.size kind.now }
    ensures { IfOk result (λ made. made ≡
        study_clauses study.now.size study.now.axioms (all_places study.now)) }
{
    let crew = Crew {
        rt,
        gate: &Open,
        workers: 1,
    };
    let all = all_places(alloc, study)?;
    match ground(alloc, &crew, kind, study, &all) {
        Ok(made) => Ok(made),
        Err(_) => Err(Fail::from("clauses")),
    }
}

/// The map of a study of a kind.
fn mapped<R: Threads + Sync, K: OutcomeKind>(
    rt: &R,
    alloc: Global,
    kind: &K,
    study: &Study,
) -> Result<Box<CoreMap>, Fail>
    requires size { study.now.size ≡ K.size kind.now }
{
    let made = clauses_of(rt, alloc, kind, study)?;
    let map = map_axioms(alloc, kind, study, &made)?;
    Ok(Box::new(alloc, map)?)
}

/// The map of the study that a text says.
fn map_of<R: Threads + Sync>(rt: &R, alloc: Global, text: &str) -> Result<Box<CoreMap>, Fail> {
    let study = study_of(alloc, text)?;
    let space = Space::new(study.size());
    match study.size().kind() {
        Kind::Choice => mapped(rt, alloc, &ChoiceKind::new(space), &study),
        Kind::Ranking => mapped(rt, alloc, &RankingKind::new(space), &study),
        Kind::Sets => Err(Fail::from("sets")),
    }
}

/// Whether these are the sets.
fn are(sets: &[Places], wanted: &[&[u32]]) -> bool {
    if sets.len() != wanted.len() {
        return false;
    }
    for k in 0..sets.len() {
        if sets[k].as_slice() != wanted[k] {
            return false;
        }
    }
    true
}

/// Whether a map is whole, and its sets are these.
fn is_map(map: &CoreMap, impossible: &[&[u32]], possible: &[&[u32]], undecided: &[&[u32]]) -> bool {
    are(map.sets.impossible.as_slice(), impossible)
        && are(map.sets.possible.as_slice(), possible)
        && are(map.sets.open.as_slice(), undecided)
        && map.ending == Ending::Whole
}

#[test]
fn studies_are_mapped(rt: HostRuntime) -> Result<(), Fail> {
    for (text, impossible, possible, undecided) in mapped_studies() {
        let map = map_of(&rt, rt.alloc(), text)?;
        assert!(rt; is_map(&map, impossible, possible, undecided));
    }
    Ok(())
}
