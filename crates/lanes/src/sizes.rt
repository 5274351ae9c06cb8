//! How large tables are, and what they cost.

ghost use Rattle.std.specs.Prelude.{◌≡◌, drop, IfSome};
ghost use Rattle.vocab.specs.Range.{product};

use crate::covers::rests_on;
use crate::shapes::Shape;
use profiles::Space;
use vocab::{Atom, Env, Formula};

/// The most entries of a table.
const MOST_ENTRIES: u64 = 400_000;

/// What a bit of a table costs, where an atom at the lanes of a block costs 1.
const BIT: u64 = 8;

/// The product of some values.
pub(crate) fn product_of(all: &Env) -> u64 {
    let mut total: u64 = 1;
    for k in 0..all.len() {
        total = total.saturating_mul(u64::from(all.get(k)));
    }
    total
}

/// The product of some values but for so many of the first, where it is known.
pub(crate) fn product_after(all: &Env, skip: u8) -> Option<u64>
    ensures { IfSome result (λ total. total ≡ product (drop skip all.now)) }
{
    let mut k = all.len();
    if skip > k {
        return None;
    }
    let mut total: u64 = 1;
    while k > skip {
        k -= 1;
        total = u64::from(all.get(k)).checked_mul(total)?;
    }
    Some(total)
}

/// How many values there are at a level.
pub(crate) fn values_at(bases: &Env, counts: &Env, level: u8) -> u64 {
    if level < bases.len() {
        return u64::from(bases.get(level));
    }
    let inner = level - bases.len();
    if inner < counts.len() {
        return u64::from(counts.get(inner));
    }
    1
}

/// How many of the first lanes' universals an atom does not rest on.
pub(crate) fn skipped(shape: &Shape, atom: &Atom) -> u8 {
    let len = shape.bases.len();
    for k in 0..len {
        if rests_on(atom, shape.outer.saturating_add(k)) {
            return k;
        }
    }
    len
}

/// How many chunks differ for a table that skips so many universals: one, where a chunk has whole periods.
pub(crate) fn chunks_of(shape: &Shape, group: u64, period: u64) -> u64 {
    let chunk = shape.chunk();
    if period > 0 && chunk % period == 0 {
        1
    } else {
        group.div_ceil(chunk)
    }
}

/// Whether a table of so many entries pays, where so many atoms are evaluated without it.
pub(crate) fn pays(shape: &Shape, group: u64, entries: u64, work: u64) -> bool {
    entries <= MOST_ENTRIES && entries.saturating_mul(group.min(shape.chunk())) <= work / BIT
}

/// What the table of an atom costs, or the atom where its table doesn't pay.
fn table_cost(shape: &Shape, all: &Env, work: u64, atom: &Atom, counts: &Env) -> u64 {
    let group = product_of(&shape.bases);
    let Some(period) = product_after(&shape.bases, skipped(shape, atom)) else {
        return work;
    };
    let mut entries = chunks_of(shape, group, period);
    let lanes = shape.outer.saturating_add(shape.bases.len());
    for level in 0..all.len().saturating_add(counts.len()) {
        if (level < shape.outer || lanes <= level) && rests_on(atom, level) {
            entries = entries.saturating_mul(values_at(all, counts, level));
        }
    }
    if pays(shape, group, entries, work) {
        let bits = entries.saturating_mul(group.min(shape.chunk()));
        bits.saturating_mul(BIT)
    } else {
        work
    }
}

/// What the tables of the atoms of a formula cost, under quantifiers with so many values.
pub(crate) fn tables_cost(
    space: &Space,
    shape: &Shape,
    all: &Env,
    work: u64,
    formula: &Formula,
    counts: &Env,
) -> u64 {
    match formula {
        Formula::Leaf(Atom::Wins(_, _)) => 0,
        Formula::Leaf(atom) => table_cost(shape, all, work, atom, counts),
        Formula::Not(f) => tables_cost(space, shape, all, work, f, counts),
        Formula::Both(f, g)
        | Formula::Either(f, g)
        | Formula::Implies(f, g)
        | Formula::Same(f, g) => {
            let first = tables_cost(space, shape, all, work, f, counts);
            first.saturating_add(tables_cost(space, shape, all, work, g, counts))
        }
        Formula::All(sort, f) | Formula::Exists(sort, f) => {
            if counts.len() >= 12 {
                return work;
            }
            let more = counts.with(space.size().sort_len(*sort));
            tables_cost(space, shape, all, work, f, &more)
        }
    }
}
