//! The measures and the clauses of some instances of an axiom, one after another.

ghost use Rattle.std.specs.Prelude.{◌≡◌, ℕ, ◌<◌, ◌≤◌, ◌+◌, ◌++◌, List, IfOk, OnOk, IsFalse, IsTrue};
ghost use Rattle.std.specs.Int.{bit_at};
ghost use Rattle.vocab.specs.Size.{Extent};
ghost use Rattle.vocab.specs.Tree.{tree_of};
ghost use Rattle.meaning.specs.Clauses.{plus};
ghost use Rattle.meaning.specs.Measure.{measure_of};
ghost use Rattle.meaning.specs.Written.{write_out};
ghost use Rattle.worlds.specs.Conditions.{IsFormulaAt};
ghost use Rattle.clause_form.specs.Wide.{is_wide, numbered};
ghost use Rattle.lanes.specs.Lanes.{HasKnownPremise, IsToldFrom};
ghost use Rattle.grounding.specs.Parts.{KeepSame, from_rows};
ghost use Rattle.grounding.specs.Pieces.{IsFirstWide, IsKeptPart, measure_at, sources_at, sources_of};

use crate::literals::pair_of;
use crate::part::Part;
use crate::pieces::{PIECE, Piece, Planned, Stretch};
use crate::sorting::{Sorter, push_pair, push_sorted};
use clause_form::{ClauseList, is_wide, measure, narrow_clauses, open_clauses, sum};
use cnf::Store;
use lanes::{is_told, told, told_sides, values_at};
use lists::NoMemory;
use meaning::Counts;
use outcomes::OutcomeKind;
use std::alloc::Global;
use vocab::{Env, Formula};

/// How many rows of instances stand in memory before they are let go.
const MOST_ROWS: usize = 1000;

/// An instance that is too wide, with its measure.
#[derive(Clone, Copy)]
pub(crate) struct WideInstance {
    pub(crate) number: u64,
    pub(crate) measure: Counts,
}

/// The sum of the measures of the instances of a piece, up to the first that is too wide.
#[derive(Clone, Copy)]
pub(crate) struct Measured {
    pub(crate) sum: Counts,
    pub(crate) wide: Option<WideInstance>,
}

/// Whether bit k of a word is set, of which there are 64.
fn is_told_at(word: u64, k: u64) -> bool
    ensures { IsTrue result → bit_at word k ≡ 1 }
{
    k < 64 && is_told(word, k)
}

/// The measure of the k-th instance from a number on, from 0, where it may be told to be true whatever the
/// rule: it then has none.
fn measure_at<K: OutcomeKind>(planned: &Planned<K>, known: u64, from: u64, k: u64) -> Counts
    requires within { from + k < planned.now.count }
    requires told { IsToldFrom (K.size planned.now.kind.now) planned.now.named.now.sentence from known }
    ensures { result ≡ measure_at (K.size planned.now.kind.now) planned.now.named.now.sentence (from + k) }
{
    if is_told_at(known, k) {
        return Counts {
            clauses: 0,
            literals: 0,
        };
    }
    let values = values_at(planned.kind, planned.named, planned.plan, from + k);
    measure(planned.kind, planned.named.sentence().body(), &values)
}

/// The measures of the instances from `from` up to `to`.
pub(crate) fn measure_all<K: OutcomeKind>(planned: &Planned<K>, from: u64, to: u64) -> Measured
    requires { to ≤ planned.now.count }
    ensures { IsFirstWide (K.size planned.now.kind.now) planned.now.named.now.sentence from to result.wide }
{
    let mut total = Counts {
        clauses: 0,
        literals: 0,
    };
    let known = told(planned.kind, planned.named, planned.plan, from);
    for number in from..to {
        let measure = measure_at(planned, known, from, number - from);
        if is_wide(measure) {
            return Measured {
                sum: total,
                wide: Some(WideInstance { number, measure }),
            };
        }
        total = sum(total, measure);
    }
    Measured {
        sum: total,
        wide: None,
    }
}

/// Appends the clauses of an instance that was not told to be true. Where nearly all is told that is known,
/// it is not asked again.
fn untold_clauses<K: OutcomeKind>(
    alloc: Global,
    kind: &K,
    body: &Formula,
    env: &Env,
    whole: bool,
    out: &mut ClauseList,
) -> Result<(), NoMemory>
    requires fits { IsFormulaAt (K.size kind.now) (tree_of body.now) env.now }
    requires narrow { IsFalse
        (is_wide (measure_of (write_out (K.size kind.now) (tree_of body.now) env.now))) }
    ensures { OnOk result
        (out.new ≡ out.old ++ numbered (K.size kind.now)
        (plus (write_out (K.size kind.now) (tree_of body.now) env.now))) }
{
    if whole {
        open_clauses(alloc, kind, body, env, out)?;
        return Ok(());
    }
    narrow_clauses(alloc, kind, body, env, out)?;
    Ok(())
}

/// Lists that are used again for each instance: the rows of instances, one after another, and those for
/// sorting.
#[derive(Drop)]
struct Buffers {
    rows: ClauseList,
    sorter: Sorter,
}

/// Appends the clauses of a formula that is not too wide with their origin. Its rows stand behind those of others.
fn push_formula<K: OutcomeKind>(
    alloc: Global,
    kind: &K,
    formula: &Formula,
    env: &Env,
    whole: bool,
    origin: u64,
    buffers: &mut Buffers,
    part: &mut Part,
) -> Result<(), NoMemory>
    requires fits { IsFormulaAt (K.size kind.now) (tree_of formula.now) env.now }
    requires narrow { IsFalse
        (is_wide (measure_of (write_out (K.size kind.now) (tree_of formula.now) env.now))) }
    ensures { OnOk result (KeepSame part.new (part.old ++ from_rows origin (numbered (K.size kind.now)
        (plus (write_out (K.size kind.now) (tree_of formula.now) env.now))))) }
{
    if let Some(pair) = pair_of(kind, formula, env) {
        push_pair(pair.0, pair.1, origin, part)?;
        return Ok(());
    }
    let start = buffers.rows.len();
    untold_clauses(alloc, kind, formula, env, whole, &mut buffers.rows)?;
    push_sorted(&buffers.rows, start, origin, &mut buffers.sorter, part)?;
    Ok(())
}

/// The right side of a formula whose left side is known to be true, since it then has the same clauses, and else
/// the formula.
fn rest_of(formula: &Formula, premise: bool) -> &Formula
    ensures rows { (size : Extent) (env : List ℕ) →
        (IsTrue premise → HasKnownPremise size (tree_of formula.now) env) →
        plus (write_out size (tree_of result.now) env) ≡ plus (write_out size (tree_of formula.now) env) }
    ensures fits { (size : Extent) (env : List ℕ) → IsFormulaAt size (tree_of formula.now) env →
        IsFormulaAt size (tree_of result.now) env }
{
    match formula {
        Formula::Implies(_, right) if premise => &**right,
        _ => formula,
    }
}

/// Appends the clauses of the k-th instance of a piece, from 0, where it may be told to be true whatever
/// the rule: it then has none. Its rows stand behind those of others.
fn push_instance<K: OutcomeKind>(
    alloc: Global,
    piece: &Piece<K>,
    k: u64,
    buffers: &mut Buffers,
    part: &mut Part,
) -> Result<(), NoMemory>
    requires { piece.now.from + k < piece.now.to }
    ensures { OnOk result (KeepSame part.new (part.old ++ sources_at (K.size piece.now.numbered.now.kind.now)
        piece.now.numbered.now.named.now.sentence piece.now.numbered.now.base (piece.now.from + k))) }
{
    if is_told_at(piece.known.all, k) {
        return Ok(());
    }
    let numbered = piece.numbered;
    let number = piece.from + k;
    let values = values_at(numbered.kind, numbered.named, numbered.plan, number);
    let premise = is_told_at(piece.known.premise, k);
    push_formula(
        alloc,
        numbered.kind,
        rest_of(numbered.named.sentence().body(), premise),
        &values,
        numbered.plan.is_whole(),
        numbered.base + number,
        buffers,
        part,
    )?;
    Ok(())
}

/// Appends the clauses of the instances of a piece.
fn push_instances<K: OutcomeKind>(
    alloc: Global,
    piece: &Piece<K>,
    part: &mut Part,
) -> Result<(), NoMemory>
    ensures { OnOk result (KeepSame part.new (part.old ++ sources_of (K.size piece.now.numbered.now.kind.now)
        piece.now.numbered.now.named.now.sentence piece.now.numbered.now.base
        piece.now.from piece.now.to)) }
{
    let mut buffers = Buffers {
        rows: Store::new(alloc),
        sorter: Sorter::new(alloc),
    };
    for k in 0..piece.to - piece.from {
        if buffers.rows.len() > MOST_ROWS {
            buffers.rows = Store::new(alloc);
        }
        push_instance(alloc, piece, k, &mut buffers, part)?;
    }
    Ok(())
}

/// Appends the clauses of a stretch. What is known is asked for its first 64 instances.
fn push_piece<K: OutcomeKind>(
    alloc: Global,
    stretch: &Stretch<K>,
    part: &mut Part,
) -> Result<(), NoMemory>
    ensures { OnOk result (KeepSame part.new (part.old ++
        sources_of (K.size stretch.now.numbered.now.kind.now) stretch.now.numbered.now.named.now.sentence
        stretch.now.numbered.now.base stretch.now.from stretch.now.to)) }
{
    let numbered = stretch.numbered;
    let piece = Piece {
        numbered,
        from: stretch.from,
        to: stretch.to,
        known: told_sides(numbered.kind, numbered.named, numbered.plan, stretch.from),
    };
    push_instances(alloc, &piece, part)
}

/// The clauses of a stretch, piece by piece.
pub(crate) fn clauses_of_all<K: OutcomeKind>(
    alloc: Global,
    stretch: &Stretch<K>,
) -> Result<Part, NoMemory>
    ensures { IfOk result (IsKeptPart (K.size stretch.now.numbered.now.kind.now)
        stretch.now.numbered.now.named.now.sentence stretch.now.numbered.now.base
        stretch.now.from stretch.now.to) }
{
    let mut part = Part::new(alloc);
    let mut start = stretch.from;
    while start < stretch.to {
        let end = stretch.to.min(start + PIECE);
        let piece = Stretch {
            numbered: stretch.numbered,
            from: start,
            to: end,
        };
        push_piece(alloc, &piece, &mut part)?;
        start = end;
    }
    part.forget(alloc);
    Ok(part)
}
