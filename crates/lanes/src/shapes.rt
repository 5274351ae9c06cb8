//! Which leading universals of a sentence are lanes.

ghost use Rattle.std.specs.Prelude.{◌≡◌, ◌≤◌, ◌<◌, ◌+◌, ◌-◌, ◌^◌, ◌++◌, min, drop, length, IsTrue};
ghost use Rattle.vocab.specs.Range.{product};
ghost use Rattle.vocab.specs.Limits.{bases_of, instance_count};
ghost use Rattle.vocab.specs.Study.{is_sentence};
ghost use Rattle.vocab.specs.Tree.{tree_of};
ghost use Rattle.lanes.specs.Lanes.{IsShape, place_in};

use crate::sizes::{product_of, tables_cost};
use outcomes::OutcomeKind;
use profiles::Space;
use vocab::{Axiom, Env, Formula};
use worlds::instance_count;

/// How many leading universals are no lanes, over how many values each of the others ranges, and how many lanes
/// a chunk has, where it has from 1 to 64.
#[derive(Clone, Copy)]
pub struct Shape {
    pub(crate) outer: u8,
    pub(crate) bases: Env,
    pub(crate) chunk: u64,
}

impl Shape {
    /// How many lanes a chunk has.
    pub(crate) fn chunk(&self) -> u64
        ensures some { 1 ≤ result }
        ensures few { result ≤ 64 }
    {
        self.chunk.max(1).min(64)
    }
}

/// The values over which the leading universals of a formula range, after some others.
fn bases_after(space: &Space, formula: &Formula, before: &Env) -> Env
    requires room { length before.now + length (bases_of space.now (tree_of formula.now)) ≤ 12 }
    ensures { result ≡ before.now ++ bases_of space.now (tree_of formula.now) }
{
    match formula {
        Formula::All(sort, inner) => {
            let more = before.with(space.size().sort_len(*sort));
            bases_after(space, inner, &more)
        }
        _ => *before,
    }
}

/// The values over which the leading universals of a formula range, but for so many of them.
fn bases_from(space: &Space, formula: &Formula, outer: u8) -> Env
    requires room { length (bases_of space.now (tree_of formula.now)) ≤ 12 }
    ensures { result ≡ drop outer (bases_of space.now (tree_of formula.now)) }
{
    if outer == 0 {
        return bases_after(space, formula, &Env::none());
    }
    match formula {
        Formula::All(_, inner) => bases_from(space, inner, outer - 1),
        _ => Env::none(),
    }
}

/// How many values the leading universals of a sentence have, one by one.
pub(crate) fn bases_of<K: OutcomeKind>(kind: &K, named: &Axiom) -> Env
    requires { IsTrue (is_sentence (K.size kind.now) named.now) }
    ensures few { length (bases_of (K.size kind.now) named.now.sentence) ≤ 12 }
    ensures all { result ≡ bases_of (K.size kind.now) named.now.sentence }
{
    bases_after(kind.space(), named.sentence(), &Env::none())
}

/// How many lanes a chunk has best: whole rounds of the last universals, of as many as have at most 64 values.
fn chunk_for(bases: &Env) -> u64 {
    let mut round: u64 = 1;
    for k in (0..bases.len()).rev() {
        let more = round.saturating_mul(u64::from(bases.get(k)));
        if more > 64 || more == 0 {
            return 64 / round.max(1) * round;
        }
        round = more;
    }
    round
}

/// The shape with so many leading universals that are no lanes.
fn shape_with<K: OutcomeKind>(kind: &K, named: &Axiom, outer: u8) -> Shape
    requires sentence { IsTrue (is_sentence (K.size kind.now) named.now) }
    requires outer { outer ≤ length (bases_of (K.size kind.now) named.now.sentence) }
    ensures { IsShape (K.size kind.now) named.now.sentence result }
{
    let _few = bases_of(kind, named);
    let bases = bases_from(kind.space(), named.sentence(), outer);
    Shape {
        outer,
        bases,
        chunk: chunk_for(&bases),
    }
}

/// What it costs to tell what is known of all instances by a shape: the masks of the blocks, and the tables.
fn cost_of<K: OutcomeKind>(kind: &K, named: &Axiom, all: &Env, shape: &Shape, atoms: u64) -> u64 {
    let group = product_of(&shape.bases);
    let count = product_of(all);
    if group > 100_000 {
        return u64::MAX;
    }
    let blocks = (count / group.max(1)).saturating_mul(group.div_ceil(shape.chunk()));
    let work = count.saturating_mul(atoms);
    let body = named.sentence().body();
    let tables = tables_cost(kind.space(), shape, all, work, body, &Env::none());
    blocks.saturating_mul(atoms).saturating_add(tables)
}

/// The shape for a sentence whose body has so many atoms: the one that costs least.
pub(crate) fn shape_of<K: OutcomeKind>(kind: &K, named: &Axiom, atoms: u64) -> Shape
    requires { IsTrue (is_sentence (K.size kind.now) named.now) }
    ensures { IsShape (K.size kind.now) named.now.sentence result }
{
    let all = bases_of(kind, named);
    let mut best = shape_with(kind, named, all.len());
    let mut least = cost_of(kind, named, &all, &best, atoms);
    for outer in 0..all.len() {
        let shape = shape_with(kind, named, outer);
        let cost = cost_of(kind, named, &all, &shape, atoms);
        if cost < least {
            least = cost;
            best = shape;
        }
    }
    best
}

/// How many lanes there are for a formula of which so many leading universals are none.
pub(crate) fn group_of(space: &Space, formula: &Formula, outer: u8) -> u64
    ensures { result ≡ min (product (drop outer (bases_of space.now (tree_of formula.now)))) (2 ^ 64 - 1) }
{
    if outer == 0 {
        return instance_count(space, formula);
    }
    match formula {
        Formula::All(_, inner) => group_of(space, inner, outer - 1),
        _ => 1,
    }
}

/// The number of an instance within its group, where so many leading universals are no lanes.
pub(crate) fn place_in(space: &Space, formula: &Formula, outer: u8, number: u64) -> u64
    requires few { instance_count space.now (tree_of formula.now) ≤ 40000000 }
    requires within { number < instance_count space.now (tree_of formula.now) }
    ensures { result ≡ place_in outer (bases_of space.now (tree_of formula.now)) number }
{
    if outer == 0 {
        return number;
    }
    match formula {
        Formula::All(_, inner) => {
            let block = instance_count(space, inner);
            place_in(space, inner, outer - 1, number % block)
        }
        _ => number,
    }
}

/// How many atoms a formula has where its quantifiers are written out.
pub(crate) fn atoms_in(space: &Space, formula: &Formula) -> u64 {
    match formula {
        Formula::Leaf(_) => 1,
        Formula::Not(f) => atoms_in(space, f),
        Formula::Both(f, g)
        | Formula::Either(f, g)
        | Formula::Implies(f, g)
        | Formula::Same(f, g) => atoms_in(space, f).saturating_add(atoms_in(space, g)),
        Formula::All(sort, f) | Formula::Exists(sort, f) => {
            u64::from(space.size().sort_len(*sort)).saturating_mul(atoms_in(space, f))
        }
    }
}
