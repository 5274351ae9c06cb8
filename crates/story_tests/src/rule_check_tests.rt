//! A rule of two voters and three alternatives, and studies of two axioms of which it fails the second.

ghost use Rattle.std.specs.Prelude.{◌≡◌, ◌≤◌, nat_lt, length, IfOk, IsTrue};
ghost use Rattle.std.specs.List.{list_all};
ghost use Rattle.vocab.specs.Size.{full_size};
ghost use Rattle.meaning.specs.Truth.{is_rule};

use crate::studies_by_text::of_two_axioms;
use crew::Crew;
use edge::{Gate, Open};
use lists::Items;
use outcomes::{ChoiceKind, Setting};
use profiles::Space;
use rule_check::check_rule;
use std::alloc::Global;
use std::sync::atomic::{AtomicU64, Ordering};
use std::test::Fail;
use std::thread::Threads;
use verdicts::Refusal;
use vocab::{Kind, Name, Size, Study, Table};

/// That each voter is itself; and that the first alternative wins at every profile, for each further
/// profile and each ballot. This one has 7,776 instances, of which 216 have one value of the first
/// variable.
static STUDY: &str =
    "kind = \"choice\"\nvoters = 2\nalternatives = 3\naxioms = [\"same\", \"first\"]\n[sentences]\nsame = \"all i: voter. i = i\"\nfirst = \"all p: profile. all q: profile. all b: ballot. wins(@a, p)\"\n";

/// That each voter is itself; and that at `q` a voter has `x` above `y`, if these are two, or the first
/// alternative wins there or at `p`, for each ballot. This one has 69,984 instances, so many that it is told of
/// them which are true whatever the rule.
static MANY: &str =
    "kind = \"choice\"\nvoters = 2\nalternatives = 3\naxioms = [\"same\", \"either\"]\n[sentences]\nsame = \"all i: voter. i = i\"\neither = \"all p: profile. all q: profile. all x: alt. all y: alt. all b: ballot. ((x = y | (prefers(#1, x, y, q) | prefers(#2, x, y, q))) | (wins(@a, p) | wins(@a, q)))\"\n";

// The texts are handed out by functions, so that the proof of a test need not read them.
fn text() -> &'static str {
    STUDY
}

fn text_of_many() -> &'static str {
    MANY
}

fn small_size() -> Result<Size, Fail>
    ensures { IfOk result (λ size. size ≡ full_size Kind.Choice 2 3) }
{
    Ok(Size::check(Kind::Choice, 2, 3).ok().ok_or("size")?)
}

fn two_axioms(alloc: Global, text: &str) -> Result<Box<Study>, Fail>
    ensures size { IfOk result (λ study. study.value.size ≡ full_size Kind.Choice 2 3) }
    ensures axioms { IfOk result (λ study. length study.value.axioms ≡ 2) }
{
    of_two_axioms(alloc, text, small_size()?)
}

/// The rule by which the first alternative wins at each of the 36 profiles but those numbered 30 and 34.
fn rule(alloc: Global) -> Result<Table, Fail>
    ensures { IfOk result (λ table. IsTrue (is_rule (full_size Kind.Choice 2 3) table)) }
{
    let mut table = Items::new(alloc);
    table.append(&[
        0, 0, 0, 0, 0, 0, 0, 0, 0, 0, 0, 0, 0, 0, 0, 0, 0, 0, 0, 0, 0, 0, 0, 0, 0, 0, 0, 0, 0, 0,
        2, 0, 0, 0, 1, 0,
    ])?;
    Ok(table)
}

/// The fault of that rule, by the axioms at some places of the study that a text says.
fn fault<R: Threads + Sync, G: Gate>(
    rt: &R,
    alloc: Global,
    gate: &G,
    text: &str,
    workers: u8,
    places: &[u32],
) -> Result<Option<Refusal>, Fail>
    requires some { 1 ≤ workers }
    requires few { workers ≤ 16 }
    requires places { IsTrue (list_all (λ k. nat_lt k 2) places.now) }
{
    let study = two_axioms(alloc, text)?;
    let kind = ChoiceKind::new(Space::new(study.size()));
    let table = rule(alloc)?;
    let crew = Crew { rt, gate, workers };
    let setting = Setting {
        kind: &kind,
        study: &study,
    };
    Ok(check_rule(alloc, &crew, &setting, &table, places)?)
}

/// The axiom `first` at its least false instance, where the first variable is profile 30.
fn first_fails() -> Result<Refusal, Fail> {
    let axiom = Name::new(b"first").ok_or("name")?;
    Ok(Refusal::Fails {
        axiom,
        instance: 30 * 216,
    })
}

#[test]
fn faults_are_the_same_for_every_number_of_workers(rt: HostRuntime) -> Result<(), Fail> {
    let fails = Some(first_fails()?);
    for workers in [1, 2, 16] {
        let none = fault(&rt, rt.alloc(), &Open, text(), workers, &[0, 0])?;
        let found = fault(&rt, rt.alloc(), &Open, text(), workers, &[0, 1])?;
        assert!(rt; none.is_none() && found == fails);
    }
    Ok(())
}

/// The axiom `either` at its least false instance: at profile 34, which is cba|cab, both voters have c above a,
/// and the first alternative wins neither there nor at profile 30. The eight instances before it in its block
/// are told to be true.
fn either_fails() -> Result<Refusal, Fail> {
    let axiom = Name::new(b"either").ok_or("name")?;
    Ok(Refusal::Fails {
        axiom,
        instance: ((30 * 36 + 34) * 9 + 2) * 6,
    })
}

#[test]
fn told_instances_are_passed_over(rt: HostRuntime) -> Result<(), Fail> {
    let fails = Some(either_fails()?);
    for workers in [1, 2] {
        let found = fault(&rt, rt.alloc(), &Open, text_of_many(), workers, &[0, 1])?;
        assert!(rt; found == fails);
    }
    Ok(())
}

/// A gate at which the first piece of a round with two waits for the second.
#[derive(Drop)]
struct Meeting {
    second: AtomicU64,
    met: AtomicU64,
}

impl Gate for Meeting {
    fn enter(&self, piece: u32) {
        if piece == 1 {
            self.second.store(1, Ordering::SeqCst);
            return;
        }
        for _ in 0..200_000_000 {
            if self.second.load(Ordering::SeqCst) == 1 {
                self.met.store(1, Ordering::SeqCst);
                return;
            }
        }
    }
}

#[test]
fn two_workers_share_a_round(rt: HostRuntime) -> Result<(), Fail> {
    let gate = Meeting {
        second: AtomicU64::new(0),
        met: AtomicU64::new(0),
    };
    let found = fault(&rt, rt.alloc(), &gate, text(), 2, &[1])?;
    assert!(rt; found == Some(first_fails()?) && gate.met.load(Ordering::SeqCst) == 1);
    Ok(())
}
