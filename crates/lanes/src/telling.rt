//! What is known of the instances of a sentence, 64 at once.

ghost use Rattle.std.specs.Prelude.{◌≡◌, ℕ, ◌<◌, ◌≤◌, ◌+◌, IfOk, IsTrue};
ghost use Rattle.vocab.specs.Limits.{instance_count};
ghost use Rattle.vocab.specs.Study.{is_sentence};
ghost use Rattle.lanes.specs.Lanes.{AreMoved, IsPlan, IsPremiseToldFrom, IsToldFrom};

use crate::building::Setting;
use crate::instances::{strides_of, values_at};
use crate::marks::{is_told, with_bit};
use crate::plans::{Part, is_whole, part_of, sides_of};
use crate::shapes::{Shape, atoms_in, group_of, place_in, shape_of};
use lists::NoMemory;
use meaning::laws::numbers_are_digits;
use outcomes::OutcomeKind;
use std::alloc::Global;
use vocab::{Axiom, Env};
use worlds::instance_count;
use worlds::laws::bodies_have_values;

/// What was found of a sentence once, to tell what is known of its instances.
#[derive(Drop)]
pub struct Plan {
    shape: Shape,
    group: u64,
    part: Box<Part>,
    whole: bool,
    pub(crate) strides: Env,
}

impl Plan {
    /// Whether nearly all that is known of the instances is told.
    pub fn is_whole(&self) -> bool {
        self.whole
    }
}

/// The plan of a sentence.
pub fn plan_of<'a, K: OutcomeKind>(
    alloc: Global,
    kind: &'a K,
    named: &'a Axiom,
) -> Result<Plan, NoMemory>
    requires sentence { IsTrue (is_sentence (K.size kind.now) named.now) }
    requires few { instance_count (K.size kind.now) named.now.sentence ≤ 40000000 }
    ensures { IfOk result (IsPlan (K.size kind.now) named.now.sentence) }
{
    bodies_have_values();
    numbers_are_digits();
    let space = kind.space();
    let atoms = atoms_in(space, named.sentence().body());
    let shape = shape_of(kind, named, atoms);
    let outer = shape.outer;
    let group = group_of(space, named.sentence(), outer);
    let count = instance_count(space, named.sentence());
    let setting = Setting {
        kind,
        named,
        shape,
        group,
        count,
        work: count.saturating_mul(atoms),
    };
    let part = part_of(alloc, &setting, named.sentence().body(), &Env::none())?;
    let whole = is_whole(&part, named.sentence().body());
    let strides = strides_of(kind, named);
    let Setting {
        kind: _,
        named: _,
        shape,
        group,
        count: _,
        work: _,
    } = setting;
    Ok(Plan {
        shape,
        group,
        part,
        whole,
        strides,
    })
}

/// The word with all bits of another one.
fn merged(word: u64, yes: u64) -> u64
    ensures { (done lanes shift : ℕ) → lanes ≡ 64 → done + lanes ≤ 64 → shift + lanes ≤ 64 →
        AreMoved word done lanes yes shift result }
{
    word | yes
}

/// The word with the bits from `shift` on of another one, as so many bits from `done` on.
fn moved(word: u64, done: u64, yes: u64, shift: u64, lanes: u64) -> u64
    requires done { done + lanes ≤ 64 }
    requires shift { shift + lanes ≤ 64 }
    ensures { AreMoved word done lanes yes shift result }
{
    if lanes == 64 {
        return merged(word, yes);
    }
    if yes == 0 {
        return word;
    }
    let mut all = word;
    for k in 0..lanes {
        if is_told(yes, shift + k) {
            all = with_bit(all, done + k);
        }
    }
    all
}

/// Of the instances from a number on: bit k of `all` tells that the k-th is known to be true whatever the rule, and
/// bit k of `premise` that it is an implication whose left side is. A bit that is not set tells nothing.
#[derive(Clone, Copy)]
pub struct TwoWords {
    pub all: u64,
    pub premise: u64,
}

/// What is known of the instances from a number on, and of the left sides of those that are implications.
pub fn told_sides<K: OutcomeKind>(kind: &K, named: &Axiom, plan: &Plan, number: u64) -> TwoWords
    requires sentence { IsTrue (is_sentence (K.size kind.now) named.now) }
    requires few { instance_count (K.size kind.now) named.now.sentence ≤ 40000000 }
    requires plan { IsPlan (K.size kind.now) named.now.sentence plan.now }
    ensures all { IsToldFrom (K.size kind.now) named.now.sentence number result.all }
    ensures premise { IsPremiseToldFrom (K.size kind.now) named.now.sentence number result.premise }
{
    let count = instance_count(kind.space(), named.sentence());
    let mut all: u64 = 0;
    let mut premise: u64 = 0;
    let mut done: u64 = 0;
    if number >= count {
        return TwoWords { all, premise };
    }
    while done < 64 && done < count - number {
        let at = number + done;
        let place = place_in(kind.space(), named.sentence(), plan.shape.outer, at);
        if place >= plan.group {
            return TwoWords { all, premise };
        }
        let chunk = plan.shape.chunk();
        let shift = place % chunk;
        let lanes = (chunk - shift)
            .min(plan.group - place)
            .min(64 - done)
            .min(count - at);
        let env = values_at(kind, named, plan, at);
        let live = (u64::MAX >> (64 - lanes)) << shift;
        let body = named.sentence().body();
        let sides = sides_of(kind.space(), &plan.part, body, &env, place - shift, live);
        all = moved(all, done, sides.all.yes, shift, lanes);
        premise = moved(premise, done, sides.premise, shift, lanes);
        done += lanes;
    }
    TwoWords { all, premise }
}

/// Of the instances from a number on: bit k tells that the k-th is known to be true whatever the rule. A bit
/// that is not set tells nothing.
pub fn told<K: OutcomeKind>(kind: &K, named: &Axiom, plan: &Plan, number: u64) -> u64
    requires sentence { IsTrue (is_sentence (K.size kind.now) named.now) }
    requires few { instance_count (K.size kind.now) named.now.sentence ≤ 40000000 }
    requires plan { IsPlan (K.size kind.now) named.now.sentence plan.now }
    ensures { IsToldFrom (K.size kind.now) named.now.sentence number result }
{
    told_sides(kind, named, plan, number).all
}
