//! Which tables there are for the atoms of a formula, and what they tell of it.

ghost use Rattle.std.specs.Prelude.{◌≡◌, ℕ, ◌<◌, ◌≤◌, ◌+◌, length, IfOk, IsTrue};
ghost use Rattle.std.specs.Int.{bit_at};
ghost use Rattle.vocab.specs.Range.{product};
ghost use Rattle.vocab.specs.Size.{Extent, IsSize, sort_count};
ghost use Rattle.vocab.specs.Tree.{Tree, tree_of};
ghost use Rattle.meaning.specs.Written.{write_out};
ghost use Rattle.lanes.specs.Lanes.{HasKnownPremise, IsInside, IsOnePart, IsPart, IsTwoPart, IsSetting, lane_values};
ghost use Rattle.lanes.specs.Marks.{IsTold};

use crate::building::{Setting, table_of};
use crate::marks::{Marks, conjunction, disjunction, equivalence, negation, nothing};
use crate::shapes::Shape;
use crate::tables::{Table, table_marks};
use lists::NoMemory;
use outcomes::OutcomeKind;
use profiles::Space;
use std::alloc::Global;
use vocab::{Atom, Env, Formula, Size, Sort};

/// What is there for a formula: nothing; the table of an atom; or what is there for its one or its two parts.
#[derive(Drop)]
pub(crate) enum Part {
    Nothing,
    Known(Table),
    One(Box<Part>),
    Two(Box<Part>, Box<Part>),
}

/// Nothing is there.
fn nothing_there(alloc: Global) -> Result<Box<Part>, NoMemory>
    ensures { IfOk result (λ made. (size : Extent) (shape : Shape) (f : Tree) →
        IsPart size shape made.value f) }
{
    Ok(Box::new(alloc, Part::Nothing)?)
}

/// What is there for a formula with one part.
fn one(alloc: Global, part: Box<Part>) -> Result<Box<Part>, NoMemory>
    ensures { IfOk result (λ made. (size : Extent) (shape : Shape) (f : Tree) →
        IsPart size shape part.value f → IsOnePart size shape made.value f) }
{
    Ok(Box::new(alloc, Part::One(part))?)
}

/// What is there for a formula with two parts.
fn two(alloc: Global, part: Box<Part>, other: Box<Part>) -> Result<Box<Part>, NoMemory>
    ensures { IfOk result (λ made. (size : Extent) (shape : Shape) (f g : Tree) →
        IsPart size shape part.value f → IsPart size shape other.value g →
        IsTwoPart size shape made.value f g) }
{
    Ok(Box::new(alloc, Part::Two(part, other))?)
}

/// What is there for an atom.
fn leaf_part<K: OutcomeKind>(
    alloc: Global,
    setting: &Setting<K>,
    formula: &Formula,
    counts: &Env,
) -> Result<Box<Part>, NoMemory>
    requires setting { IsSetting (K.size setting.now.kind.now) setting.now.named.now setting.now.shape
        setting.now.group setting.now.count }
    requires inside { IsInside (K.size setting.now.kind.now) setting.now.named.now.sentence counts.now
        (tree_of formula.now) }
    ensures { IfOk result (λ part. IsPart (K.size setting.now.kind.now) setting.now.shape part.value
        (tree_of formula.now)) }
{
    match table_of(alloc, setting, formula, counts)? {
        Some(table) => Ok(Box::new(alloc, Part::Known(table))?),
        None => nothing_there(alloc),
    }
}

/// What is there for a formula under quantifiers with so many values.
#[cycle(parts)]
pub(crate) fn part_of<K: OutcomeKind>(
    alloc: Global,
    setting: &Setting<K>,
    formula: &Formula,
    counts: &Env,
) -> Result<Box<Part>, NoMemory>
    requires setting { IsSetting (K.size setting.now.kind.now) setting.now.named.now setting.now.shape
        setting.now.group setting.now.count }
    requires inside { IsInside (K.size setting.now.kind.now) setting.now.named.now.sentence counts.now
        (tree_of formula.now) }
    ensures { IfOk result (λ part. IsPart (K.size setting.now.kind.now) setting.now.shape part.value
        (tree_of formula.now)) }
{
    match formula {
        Formula::Leaf(_) => leaf_part(alloc, setting, formula, counts),
        Formula::Not(f) => {
            let part = part_of(alloc, setting, f, counts)?;
            one(alloc, part)
        }
        Formula::Both(f, g)
        | Formula::Either(f, g)
        | Formula::Implies(f, g)
        | Formula::Same(f, g) => {
            let part = part_of(alloc, setting, f, counts)?;
            let other = part_of(alloc, setting, g, counts)?;
            two(alloc, part, other)
        }
        Formula::All(sort, f) | Formula::Exists(sort, f) => {
            if counts.len() >= 12 {
                return nothing_there(alloc);
            }
            let more = counts.with(setting.kind.space().size().sort_len(*sort));
            let part = part_of(alloc, setting, f, &more)?;
            one(alloc, part)
        }
    }
}

/// Whether each atom that needs no rule has a table.
pub(crate) fn is_whole(part: &Part, formula: &Formula) -> bool {
    match formula {
        Formula::Leaf(Atom::Wins(_, _)) => true,
        Formula::Leaf(_) => match part {
            Part::Known(_) => true,
            _ => false,
        },
        Formula::Not(f) | Formula::All(_, f) | Formula::Exists(_, f) => match part {
            Part::One(p) => is_whole(p, f),
            _ => false,
        },
        Formula::Both(f, g)
        | Formula::Either(f, g)
        | Formula::Implies(f, g)
        | Formula::Same(f, g) => match part {
            Part::Two(p, q) => is_whole(p, f) && is_whole(q, g),
            _ => false,
        },
    }
}

/// The last value of a sort of a size, of which each has one.
fn last_of(size: Size, sort: Sort) -> u32
    requires { IsSize size }
    ensures { result + 1 ≡ sort_count size sort }
{
    size.sort_len(sort) - 1
}

/// What is known of a formula at the lanes of a chunk. Of lanes that are not asked for less may be told.
#[cycle(marks)]
pub(crate) fn marks_of(
    space: &Space,
    part: &Part,
    formula: &Formula,
    env: &Env,
    first: u64,
    live: u64,
) -> Marks
    ensures { (shape : Shape) → IsPart space.now shape part.now (tree_of formula.now) →
        shape.outer + length shape.bases ≤ length env.now →
        (k : ℕ) → first + k < product shape.bases →
        IsTold result k (write_out space.now (tree_of formula.now) (lane_values shape first k env.now)) }
{
    if live == 0 {
        return nothing();
    }
    match part {
        Part::Nothing => nothing(),
        Part::Known(table) => table_marks(table, env, first),
        Part::One(_) => one_marks(space, part, formula, env, first, live),
        Part::Two(_, _) => two_marks(space, part, formula, env, first, live),
    }
}

/// What is known of a formula with one part.
#[cycle(marks)]
fn one_marks(
    space: &Space,
    part: &Part,
    formula: &Formula,
    env: &Env,
    first: u64,
    live: u64,
) -> Marks
    ensures { (shape : Shape) → IsPart space.now shape part.now (tree_of formula.now) →
        shape.outer + length shape.bases ≤ length env.now →
        (k : ℕ) → first + k < product shape.bases →
        IsTold result k (write_out space.now (tree_of formula.now) (lane_values shape first k env.now)) }
{
    let Part::One(p) = part else {
        return nothing();
    };
    match formula {
        Formula::Not(f) => negation(marks_of(space, p, f, env, first, live)),
        Formula::All(_, _) => all_marks(space, part, formula, env, first, live),
        Formula::Exists(_, _) => some_marks(space, part, formula, env, first, live),
        _ => nothing(),
    }
}

/// What is known of a universal.
#[cycle(marks)]
fn all_marks(
    space: &Space,
    part: &Part,
    formula: &Formula,
    env: &Env,
    first: u64,
    live: u64,
) -> Marks
    ensures { (shape : Shape) → IsPart space.now shape part.now (tree_of formula.now) →
        shape.outer + length shape.bases ≤ length env.now →
        (k : ℕ) → first + k < product shape.bases →
        IsTold result k (write_out space.now (tree_of formula.now) (lane_values shape first k env.now)) }
{
    if env.len() >= 12 {
        return nothing();
    }
    let Part::One(p) = part else {
        return nothing();
    };
    match formula {
        Formula::All(sort, f) => {
            let last = last_of(space.size(), *sort);
            let mut value = marks_of(space, p, f, &env.with(last), first, live);
            for v in (0..last).rev() {
                value = conjunction(
                    marks_of(space, p, f, &env.with(v), first, live & !value.no),
                    value,
                );
            }
            value
        }
        _ => nothing(),
    }
}

/// What is known of an existential.
#[cycle(marks)]
fn some_marks(
    space: &Space,
    part: &Part,
    formula: &Formula,
    env: &Env,
    first: u64,
    live: u64,
) -> Marks
    ensures { (shape : Shape) → IsPart space.now shape part.now (tree_of formula.now) →
        shape.outer + length shape.bases ≤ length env.now →
        (k : ℕ) → first + k < product shape.bases →
        IsTold result k (write_out space.now (tree_of formula.now) (lane_values shape first k env.now)) }
{
    if env.len() >= 12 {
        return nothing();
    }
    let Part::One(p) = part else {
        return nothing();
    };
    match formula {
        Formula::Exists(sort, f) => {
            let last = last_of(space.size(), *sort);
            let mut value = marks_of(space, p, f, &env.with(last), first, live);
            for v in (0..last).rev() {
                value = disjunction(
                    marks_of(space, p, f, &env.with(v), first, live & !value.yes),
                    value,
                );
            }
            value
        }
        _ => nothing(),
    }
}

/// What is known of a formula with two parts.
#[cycle(marks)]
fn two_marks(
    space: &Space,
    part: &Part,
    formula: &Formula,
    env: &Env,
    first: u64,
    live: u64,
) -> Marks
    ensures { (shape : Shape) → IsPart space.now shape part.now (tree_of formula.now) →
        shape.outer + length shape.bases ≤ length env.now →
        (k : ℕ) → first + k < product shape.bases →
        IsTold result k (write_out space.now (tree_of formula.now) (lane_values shape first k env.now)) }
{
    let Part::Two(p, q) = part else {
        return nothing();
    };
    match formula {
        Formula::Both(f, g) => {
            let a = marks_of(space, p, f, env, first, live);
            conjunction(a, marks_of(space, q, g, env, first, live & !a.no))
        }
        Formula::Either(f, g) => {
            let a = marks_of(space, p, f, env, first, live);
            disjunction(a, marks_of(space, q, g, env, first, live & !a.yes))
        }
        Formula::Implies(f, g) => {
            let a = negation(marks_of(space, p, f, env, first, live));
            disjunction(a, marks_of(space, q, g, env, first, live & !a.yes))
        }
        Formula::Same(f, g) => {
            let a = marks_of(space, p, f, env, first, live);
            equivalence(a, marks_of(space, q, g, env, first, live & (a.yes | a.no)))
        }
        _ => nothing(),
    }
}

/// What is known of a formula, and, where it is an implication, at which lanes its left side is known to be true.
#[derive(Clone, Copy)]
pub(crate) struct Sides {
    pub(crate) all: Marks,
    pub(crate) premise: u64,
}

/// What is known of a formula at the lanes of a chunk, of whose left side nothing is told.
fn plain_sides(
    space: &Space,
    part: &Part,
    formula: &Formula,
    env: &Env,
    first: u64,
    live: u64,
) -> Sides
    ensures all { (shape : Shape) → IsPart space.now shape part.now (tree_of formula.now) →
        shape.outer + length shape.bases ≤ length env.now →
        (k : ℕ) → first + k < product shape.bases →
        IsTold result.all k (write_out space.now (tree_of formula.now) (lane_values shape first k env.now)) }
    ensures premise { (k : ℕ) → bit_at result.premise k ≡ 1 → ⊥ }
{
    Sides {
        all: marks_of(space, part, formula, env, first, live),
        premise: 0,
    }
}

/// What is known of a formula at the lanes of a chunk, and of its left side where it is an implication.
pub(crate) fn sides_of(
    space: &Space,
    part: &Part,
    formula: &Formula,
    env: &Env,
    first: u64,
    live: u64,
) -> Sides
    ensures all { (shape : Shape) → IsPart space.now shape part.now (tree_of formula.now) →
        shape.outer + length shape.bases ≤ length env.now →
        (k : ℕ) → first + k < product shape.bases →
        IsTold result.all k (write_out space.now (tree_of formula.now) (lane_values shape first k env.now)) }
    ensures premise { (shape : Shape) → IsPart space.now shape part.now (tree_of formula.now) →
        shape.outer + length shape.bases ≤ length env.now →
        (k : ℕ) → first + k < product shape.bases → bit_at result.premise k ≡ 1 →
        HasKnownPremise space.now (tree_of formula.now) (lane_values shape first k env.now) }
{
    let Part::Two(p, q) = part else {
        return plain_sides(space, part, formula, env, first, live);
    };
    match formula {
        Formula::Implies(f, g) => {
            let premise = marks_of(space, p, f, env, first, live);
            let a = negation(premise);
            let b = marks_of(space, q, g, env, first, live & !a.yes);
            Sides {
                all: disjunction(a, b),
                premise: premise.yes,
            }
        }
        _ => plain_sides(space, part, formula, env, first, live),
    }
}
