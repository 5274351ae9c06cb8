//! Anonymity and neutrality of two voters, worked by hand: their clauses, which are the same for every
//! number of workers, and lists that are refused.
//!
//! Two voters with two ballots make four profiles, with two frame clauses each. Anonymity equates the
//! outcomes at the two profiles of different ballots, by two clauses for each alternative. Neutrality
//! equates that one alternative wins at a profile with that the other wins at the profile of the opposite
//! ballots, by four clauses for each of two pairs of profiles. With three alternatives there are 36
//! profiles with four frame clauses each, and 15 pairs of profiles that anonymity equates, by two clauses
//! for each alternative.

ghost use Rattle.std.specs.Prelude.{◌≡◌, ◌≤◌, length, IfOk, IsTrue};
ghost use Rattle.meaning.specs.Cores.{is_core_from};

use clause_form::{Ground, GroundFault};
use cnf::Clauses;
use crew::Crew;
use edge::{Gate, Open};
use grounding::ground;
use lists::Items;
use meaning::Counts;
use outcomes::ChoiceKind;
use profiles::Space;
use std::alloc::Global;
use std::sync::atomic::{AtomicU64, Ordering};
use std::test::Fail;
use std::thread::Threads;
use study::read_study;
use vocab::{Kind, Places, Study};

/// Anonymity, and that an alternative wins at a profile exactly where another does once the two are
/// exchanged.
static SMALL: &str =
    "kind = \"choice\"\nvoters = 2\nalternatives = 2\naxioms = [\"anonymity\", \"second\"]\n[sentences]\nsecond = \"all p: profile. all x: alt. all y: alt. (wins(x, p) <-> wins(y, swap_alts(p, x, y)))\"\n";

/// Anonymity, and that at some profile `a` wins, and `b` once the first voter's ballot is bac.
static LARGER: &str =
    "kind = \"choice\"\nvoters = 2\nalternatives = 3\naxioms = [\"anonymity\", \"second\"]\n[sentences]\nsecond = \"some p: profile. (wins(@a, p) & wins(@b, with(p, #1, <bac>)))\"\n";

/// An axiom that has 324 instances, which are six pieces. Its shape tells that it is narrow.
const PARETIAN: &str = "kind = \"choice\"\nvoters = 2\nalternatives = 3\naxioms = [\"pareto\"]\n";

/// The same beside a part that is true, of which the shape alone does not tell so: each instance is
/// measured.
const MEASURED: &str =
    "kind = \"choice\"\nvoters = 2\nalternatives = 3\naxioms = [\"first\"]\n[sentences]\nfirst = \"all p: profile. all x: alt. all y: alt. ((x = x | some q: profile. (wins(@a, q) & wins(@b, q))) & (all i: voter. prefers(i, x, y, p) -> !wins(y, p)))\"\n";

/// An axiom whose instances at the first 120 profiles, where the first voter casts abcde, have 64,000
/// clauses each, all different: for three alternatives each of the 40 ballots of the first voter that have
/// a above b and c. No instance is too wide, and 63 of them pass the limit of the list.
static FULL: &str =
    "kind = \"choice\"\nvoters = 2\nalternatives = 5\naxioms = [\"first\"]\n[sentences]\nfirst = \"all p: profile. (casts(#1, <abcde>, p) -> (all b: ballot. ((better(b, @a, @b) & better(b, @a, @c)) -> wins(@a, with(p, #1, b))) | (all b: ballot. ((better(b, @a, @b) & better(b, @a, @c)) -> wins(@b, with(p, #1, b))) | all b: ballot. ((better(b, @a, @b) & better(b, @a, @c)) -> wins(@c, with(p, #1, b))))))\"\n";

// Each text is handed out by a function, so that the proof of a test need not read it.
fn small() -> &'static str {
    SMALL
}

fn larger() -> &'static str {
    LARGER
}

fn full() -> &'static str {
    FULL
}

/// Studies of six pieces, whose clauses are made in two parts; how many of either begin before those two of which
/// the first waits for the second, and how many begin in all.
static SHARED: [(&str, u64, u64); 3] = [(PARETIAN, 0, 2), (MEASURED, 0, 8), (MEASURED, 6, 8)];

fn shared() -> &'static [(&'static str, u64, u64)] {
    &SHARED
}

/// The study of choices that a text says, with so many axioms.
fn read(alloc: Global, text: &str, axioms: usize) -> Result<Box<Study>, Fail>
    ensures kind { IfOk result (λ study. study.value.size.kind ≡ Kind.Choice) }
    ensures axioms { IfOk result (λ study. length study.value.axioms ≡ axioms) }
{
    let study = Box::new(
        alloc,
        read_study(alloc, text.as_bytes()).ok().ok_or("study")?,
    )?;
    if study.size().kind() != Kind::Choice || study.axioms().len() != axioms {
        return Err(Fail::from("another study"));
    }
    Ok(study)
}

/// What `ground` answers of a study of choices, for the axioms at some places.
fn answer<R: Threads + Sync, G: Gate>(
    rt: &R,
    alloc: Global,
    gate: &G,
    study: &Study,
    workers: u8,
    places: &[u32],
) -> Result<Result<Ground, GroundFault>, Fail>
    requires kind { study.now.size.kind ≡ Kind.Choice }
    requires places { IsTrue (is_core_from 0 (length study.now.axioms) places.now) }
    requires some { 1 ≤ workers }
    requires few { workers ≤ 16 }
{
    let kind = ChoiceKind::new(Space::new(study.size()));
    let crew = Crew { rt, gate, workers };
    let mut chosen: Places = Items::new(alloc);
    chosen.append(places)?;
    Ok(ground(alloc, &crew, &kind, study, &chosen))
}

/// The clauses of a study of one axiom.
fn clauses_of_one<R: Threads + Sync, G: Gate>(
    rt: &R,
    alloc: Global,
    gate: &G,
    text: &str,
    workers: u8,
) -> Result<Result<Ground, GroundFault>, Fail>
    requires some { 1 ≤ workers }
    requires few { workers ≤ 16 }
{
    let study = read(alloc, text, 1)?;
    answer(rt, alloc, gate, &study, workers, &[0])
}

/// The number of clauses of the smaller study.
fn small_count<R: Threads + Sync>(rt: &R, alloc: Global, workers: u8) -> Result<u32, Fail>
    requires some { 1 ≤ workers }
    requires few { workers ≤ 16 }
{
    let study = read(alloc, small(), 2)?;
    let made = answer(rt, alloc, &Open, &study, workers, &[0, 1])?;
    let clauses = made.ok().ok_or("small")?;
    Ok(clauses.clauses().len())
}

/// The clauses of the first axiom of the larger study.
fn larger_clauses<R: Threads + Sync>(rt: &R, alloc: Global, workers: u8) -> Result<Ground, Fail>
    requires some { 1 ≤ workers }
    requires few { workers ≤ 16 }
{
    let study = read(alloc, larger(), 2)?;
    let made = answer(rt, alloc, &Open, &study, workers, &[0])?;
    Ok(made.ok().ok_or("larger")?)
}

/// The refusal of both axioms of the larger study.
fn larger_fault<R: Threads + Sync>(
    rt: &R,
    alloc: Global,
    workers: u8,
) -> Result<Option<GroundFault>, Fail>
    requires some { 1 ≤ workers }
    requires few { workers ≤ 16 }
{
    let study = read(alloc, larger(), 2)?;
    let made = answer(rt, alloc, &Open, &study, workers, &[0, 1])?;
    Ok(made.err())
}

/// Whether two lists have the same clauses, each with the same origin.
fn are_same(left: &Clauses, right: &Clauses) -> bool {
    if left.len() != right.len() {
        return false;
    }
    for k in 0..left.len() {
        if left.get(k) != right.get(k) || left.origin(k) != right.origin(k) {
            return false;
        }
    }
    true
}

/// Whether so many workers make the same clauses as one does, and as many as are worked out.
fn are_as_of_one<R: Threads + Sync>(rt: &R, alloc: Global, workers: u8) -> Result<bool, Fail>
    requires some { 1 ≤ workers }
    requires few { workers ≤ 16 }
{
    let one = larger_clauses(rt, alloc, 1)?;
    let again = larger_clauses(rt, alloc, workers)?;
    let small = small_count(rt, alloc, workers)?;
    Ok(small == 20 && one.clauses().len() == 234 && are_same(one.clauses(), again.clauses()))
}

#[test]
fn clauses_are_the_same_for_every_number_of_workers(rt: HostRuntime) -> Result<(), Fail> {
    for workers in [1, 2, 3, 16] {
        assert!(rt; are_as_of_one(&rt, rt.alloc(), workers)?);
    }
    Ok(())
}

#[test]
fn wide_instance_is_named_with_its_measure(rt: HostRuntime) -> Result<(), Fail> {
    let measure = Counts {
        clauses: 68_719_476_736,
        literals: 2_473_901_162_496,
    };
    let wide = GroundFault::Wide {
        axiom: 1,
        instance: 0,
        measure,
    };
    for workers in [1, 16] {
        assert!(rt; larger_fault(&rt, rt.alloc(), workers)? == Some(wide));
    }
    Ok(())
}

#[test]
fn list_that_passes_its_limit_is_full(rt: HostRuntime) -> Result<(), Fail> {
    let made = clauses_of_one(&rt, rt.alloc(), &Open, full(), 2)?;
    assert!(rt; made.err() == Some(GroundFault::Full { axiom: 0 }));
    Ok(())
}

/// A gate that lets some pieces pass, and at which the next one waits for that after it.
#[derive(Drop)]
struct Meeting {
    before: u64,
    begun: AtomicU64,
    met: AtomicU64,
}

impl Gate for Meeting {
    fn enter(&self, _piece: u32) {
        let begun = self.begun.fetch_add(1, Ordering::SeqCst);
        if begun != self.before {
            return;
        }
        for _ in 0..200_000_000 {
            if self.begun.load(Ordering::SeqCst).saturating_sub(1) > self.before {
                self.met.store(1, Ordering::SeqCst);
                return;
            }
        }
    }
}

/// How many pieces begin in all, where two workers are at work at a time once so many pieces have begun; else 0.
fn begun<R: Threads + Sync>(rt: &R, alloc: Global, text: &str, before: u64) -> Result<u64, Fail> {
    let gate = Meeting {
        before,
        begun: AtomicU64::new(0),
        met: AtomicU64::new(0),
    };
    let made = clauses_of_one(rt, alloc, &gate, text, 2)?;
    if made.is_ok() && gate.met.load(Ordering::SeqCst) == 1 {
        Ok(gate.begun.load(Ordering::SeqCst))
    } else {
        Ok(0)
    }
}

// Each pass over the instances is shared: the first, which measures them, and the second, which makes their
// clauses, and which is the only one where the shape of an axiom tells that it is narrow.
#[test]
fn two_workers_share_each_pass(rt: HostRuntime) -> Result<(), Fail> {
    for (text, before, all) in shared() {
        assert!(rt; begun(&rt, rt.alloc(), text, *before)? == *all);
    }
    Ok(())
}
