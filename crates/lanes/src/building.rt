//! How a table is made.

ghost use Rattle.std.specs.Prelude.{◌≡◌, ℕ, ◌<◌, ◌≤◌, ◌+◌, ◌++◌, List, length, IfOk, IfSome, IsTrue};
ghost use Rattle.vocab.specs.Tree.{tree_of};
ghost use Rattle.worlds.specs.Conditions.{IsEvaluable, IsFormulaAt};
ghost use Rattle.lanes.specs.Covers.{covers_leaf};
ghost use Rattle.lanes.specs.Lanes.{AreBelow, AreEntries, IsEntry, IsInside, IsSetting, IsTable};

use crate::covers::{covers_leaf, rests_on};
use crate::instances::values_of;
use crate::marks::{marked, nothing};
use crate::shapes::{Shape, bases_of, place_in};
use crate::sizes::{chunks_of, pays, product_after, skipped, values_at};
use crate::tables::{Entry, Table};
use clause_form::what_is_known;
use lists::NoMemory;
use outcomes::OutcomeKind;
use std::alloc::Global;
use vocab::{Atom, Axiom, Env, Formula};

/// A sentence, which of its universals are lanes, how many lanes and instances there are, and how many atoms
/// are evaluated where no table helps.
#[derive(Drop)]
pub(crate) struct Setting<'a, K> {
    pub(crate) kind: &'a K,
    pub(crate) named: &'a Axiom,
    pub(crate) shape: Shape,
    pub(crate) group: u64,
    pub(crate) count: u64,
    pub(crate) work: u64,
}

/// The values of an environment and some more, where there is room.
fn joined(env: &Env, more: &Env) -> Option<Env>
    ensures all { IfSome result (λ all. all ≡ env.now ++ more.now) }
    ensures few { IfSome result (λ all. length all ≤ 12) }
{
    let mut all = *env;
    for k in 0..more.len() {
        if all.len() >= 12 {
            return None;
        }
        all = all.with(more.get(k));
    }
    if all.len() > 12 {
        return None;
    }
    Some(all)
}

/// A number below a count.
fn reduced(digit: u32, count: u32) -> u32
    requires { 1 ≤ count }
    ensures { result < count }
{
    digit % count
}

/// Values of the quantifiers around an atom: those that some digits say, from one of them on.
fn inner_values(counts: &Env, digits: &[u32; 12], from: u8) -> Option<Env>
    ensures { IfSome result (λ values. AreBelow values counts.now) }
{
    let mut values = Env::none();
    for k in 0..counts.len() {
        let count = counts.get(k);
        let at = (from as usize) + (k as usize);
        if at >= 12 || count == 0 || values.len() >= 12 {
            return None;
        }
        values = values.with(reduced(digits[at], count));
    }
    Some(values)
}

/// What is known of a formula at the lanes of a chunk, whose first is an instance.
fn entry_of<K: OutcomeKind>(
    setting: &Setting<K>,
    leaf: &Formula,
    counts: &Env,
    number: u64,
    inner: &Env,
) -> Option<Entry>
    requires setting { IsSetting (K.size setting.now.kind.now) setting.now.named.now setting.now.shape
        setting.now.group setting.now.count }
    requires leaf { (env : List ℕ) → IsEvaluable (K.size setting.now.kind.now) (tree_of leaf.now) env →
        length env ≤ 12 → IsFormulaAt (K.size setting.now.kind.now) (tree_of leaf.now) env }
    requires inside { IsInside (K.size setting.now.kind.now) setting.now.named.now.sentence counts.now
        (tree_of leaf.now) }
    requires inner { AreBelow inner.now counts.now }
    requires within { number < setting.now.count }
    ensures { IfSome result (IsEntry (K.size setting.now.kind.now) setting.now.shape (tree_of leaf.now)) }
{
    let _ = counts;
    let space = setting.kind.space();
    let first = place_in(space, setting.named.sentence(), setting.shape.outer, number);
    if first >= setting.group {
        return None;
    }
    let Some(values) = joined(&values_of(setting.kind, setting.named, number), inner) else {
        return None;
    };
    let lanes = (setting.group - first).min(setting.shape.chunk());
    let mut marks = nothing();
    for k in 0..lanes {
        if k >= setting.count - number {
            return None;
        }
        let at = values_of(setting.kind, setting.named, number + k);
        let Some(env) = joined(&at, inner) else {
            return None;
        };
        marks = marked(marks, k, what_is_known(setting.kind, leaf, &env));
    }
    Some(Entry {
        values,
        first,
        marks,
    })
}

/// The levels on which what is known of an atom rests that are no lanes.
fn levels_of(
    alloc: Global,
    shape: &Shape,
    counts: &Env,
    leaf: &Formula,
) -> Result<Vec<u8>, NoMemory> {
    let mut levels = Vec::new(alloc);
    let all = shape.outer.saturating_add(shape.bases.len());
    if let Formula::Leaf(atom) = leaf {
        for level in 0..shape.outer {
            if rests_on(atom, level) {
                levels.push(level)?;
            }
        }
        for level in all..all.saturating_add(counts.len()) {
            if rests_on(atom, level) {
                levels.push(level)?;
            }
        }
    }
    Ok(levels)
}

/// How many instances one value at a level is worth.
fn weight_of(bases: &Env, level: u8) -> u64 {
    let mut total: u64 = 1;
    for k in 0..bases.len() {
        if k > level {
            total = total.saturating_mul(u64::from(bases.get(k)));
        }
    }
    total
}

/// The instance and the values of the quantifiers around an atom that the place of an entry says.
fn chosen(bases: &Env, counts: &Env, levels: &[u8], chunk: u64, place: u64) -> Option<(u64, Env)>
    ensures { IfSome result (λ pair. AreBelow pair.1 counts.now) }
{
    let mut rest = place;
    let mut number: u64 = 0;
    let mut digits = [0u32; 12];
    for k in 0..levels.len() {
        let level = levels[k];
        let count = values_at(bases, counts, level).max(1);
        let digit = rest % count;
        rest /= count;
        if level < bases.len() {
            number = number.saturating_add(digit.saturating_mul(weight_of(bases, level)));
        } else if level < 12 {
            digits[level as usize] = (digit % 4_294_967_296) as u32;
        }
    }
    number = number.saturating_add(rest.saturating_mul(chunk));
    match inner_values(counts, &digits, bases.len()) {
        Some(inner) => Some((number, inner)),
        None => None,
    }
}

/// The entries of a table, one for each place; none where one of them can't be made.
fn entries_of<K: OutcomeKind>(
    alloc: Global,
    setting: &Setting<K>,
    leaf: &Formula,
    counts: &Env,
    levels: &[u8],
    total: u64,
) -> Result<Vec<Entry>, NoMemory>
    requires setting { IsSetting (K.size setting.now.kind.now) setting.now.named.now setting.now.shape
        setting.now.group setting.now.count }
    requires leaf { (env : List ℕ) → IsEvaluable (K.size setting.now.kind.now) (tree_of leaf.now) env →
        length env ≤ 12 → IsFormulaAt (K.size setting.now.kind.now) (tree_of leaf.now) env }
    requires inside { IsInside (K.size setting.now.kind.now) setting.now.named.now.sentence counts.now
        (tree_of leaf.now) }
    ensures { IfOk result (λ made. AreEntries (K.size setting.now.kind.now) setting.now.shape
        (tree_of leaf.now) made.items) }
{
    let bases = bases_of(setting.kind, setting.named);
    let mut entries = Vec::new(alloc);
    for place in 0..total {
        let Some((number, inner)) = chosen(&bases, counts, levels, setting.shape.chunk(), place)
        else {
            return Ok(entries);
        };
        if number >= setting.count {
            return Ok(entries);
        }
        let Some(entry) = entry_of(setting, leaf, counts, number, &inner) else {
            return Ok(entries);
        };
        entries.push(entry)?;
    }
    Ok(entries)
}

/// Whether nothing is ever known of an atom whatever the rule.
fn is_free(atom: &Atom) -> bool {
    match atom {
        Atom::Wins(_, _) => true,
        _ => false,
    }
}

/// The table of an atom, if it is worth its making.
pub(crate) fn table_of<K: OutcomeKind>(
    alloc: Global,
    setting: &Setting<K>,
    leaf: &Formula,
    counts: &Env,
) -> Result<Option<Table>, NoMemory>
    requires setting { IsSetting (K.size setting.now.kind.now) setting.now.named.now setting.now.shape
        setting.now.group setting.now.count }
    requires inside { IsInside (K.size setting.now.kind.now) setting.now.named.now.sentence counts.now
        (tree_of leaf.now) }
    ensures { IfOk result (λ found. IfSome found
        (IsTable (K.size setting.now.kind.now) setting.now.shape (tree_of leaf.now))) }
{
    let Formula::Leaf(atom) = leaf else {
        return Ok(None);
    };
    let shape = &setting.shape;
    let skip = skipped(shape, atom);
    let levels = levels_of(alloc, shape, counts, leaf)?;
    let Some(period) = product_after(&shape.bases, skip) else {
        return Ok(None);
    };
    if is_free(atom) || !covers_leaf(shape, skip, &levels, leaf) {
        return Ok(None);
    }
    let bases = bases_of(setting.kind, setting.named);
    let mut steps = Vec::new(alloc);
    let mut total: u64 = 1;
    for k in 0..levels.len() {
        steps.push(total)?;
        total = total.saturating_mul(values_at(&bases, counts, levels[k]));
    }
    let chunks = chunks_of(shape, setting.group, period);
    let chunk_step = if chunks > 1 { total } else { 0 };
    total = total.saturating_mul(chunks);
    if !pays(shape, setting.group, total, setting.work) {
        return Ok(None);
    }
    let entries = entries_of(alloc, setting, leaf, counts, &levels, total)?;
    Ok(Some(Table {
        skip,
        period,
        levels,
        steps,
        chunk: shape.chunk(),
        chunk_step,
        entries,
    }))
}
