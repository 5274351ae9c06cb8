//! Clauses sorted by variable, each literal once.

ghost use Rattle.std.specs.Prelude.{◌≡◌, ◌<◌, ◌≤◌, [], ◌∷◌, ◌++◌, ℕ, All, OnOk, IfOk, IsTrue, not, map, drop, length};
ghost use Rattle.std.specs.List.Sorted.{IsNonDecreasing};
ghost use Rattle.cnf.specs.Sat.{is_tautology, opposite_lit};
ghost use Rattle.meaning.specs.StudyClauses.{sorted};
ghost use Rattle.grounding.specs.Rising.{RisesFrom, ArePositive, includes, literal_of_code, pair_after};
ghost use Rattle.cnf.specs.Signed.{literal_code};
ghost use Rattle.grounding.specs.Parts.{KeepSame, from_rows};

use crate::part::Part;
use cnf::{Lit, Store};
use lists::NoMemory;
use std::alloc::Global;

/// Twice the variable of a literal, and one more where it stands without negation.
pub(crate) fn literal_code(lit: Lit) -> u32
    ensures code { result ≡ literal_code lit }
    ensures some { 1 < result }
{
    lit.code()
}

/// Equal codes once each, of codes that do not fall.
fn merge_codes(codes: &[u32], out: &mut Vec<u32>) -> Result<(), NoMemory>
    requires rising { IsNonDecreasing codes.now }
    requires some { All (λ n. 1 < n) codes.now }
    ensures above { OnOk result (RisesFrom 0 out.new.items) }
    ensures has { OnOk result ((k : ℕ) → includes out.new.items k ≡ includes codes.now k) }
    ensures some { OnOk result (All (λ n. 1 < n) out.new.items) }
{
    out.clear();
    let mut last: u32 = 0;
    for i in 0..codes.len() {
        let n = codes[i];
        if n != last {
            out.push(n)?;
            last = n;
        }
    }
    Ok(())
}

/// The codes of a row.
fn codes_into(row: &[Lit], codes: &mut Vec<u32>) -> Result<(), NoMemory>
    ensures codes { OnOk result (codes.new.items ≡ map literal_code row.now) }
    ensures some { OnOk result (All (λ n. 1 < n) codes.new.items) }
{
    codes.clear();
    for lit in row {
        codes.push(literal_code(*lit))?;
    }
    Ok(())
}

/// The codes of a row, sorted, equal ones once: the one rising list that has them.
fn sorted_codes(row: &[Lit], codes: &mut Vec<u32>, merged: &mut Vec<u32>) -> Result<(), NoMemory>
    ensures above { OnOk result (RisesFrom 0 merged.new.items) }
    ensures has { OnOk result
        ((k : ℕ) → includes merged.new.items k ≡ includes (map literal_code row.now) k) }
    ensures some { OnOk result (All (λ n. 1 < n) merged.new.items) }
    ensures positive { OnOk result (ArePositive row.now) }
{
    codes_into(row, codes)?;
    codes.sort_unstable();
    merge_codes(codes.as_slice(), merged)?;
    Ok(())
}

/// Whether two neighbours have one variable: of a rising list, whether a variable has both signs.
fn has_pair(codes: &[u32]) -> bool
    ensures { result ≡ pair_after 0 codes.now }
{
    let mut last = 0;
    for code in codes {
        if *code / 2 == last {
            return true;
        }
        last = *code / 2;
    }
    false
}

/// The literals of some codes.
fn literals_into(codes: &[u32], out: &mut Vec<Lit>) -> Result<(), NoMemory>
    requires { All (λ n. 1 < n) codes.now }
    ensures { OnOk result (out.new.items ≡ map literal_of_code codes.now) }
{
    out.clear();
    for i in 0..codes.len() {
        let code = codes[i];
        out.push(Lit::new(code / 2, code % 2 == 1))?;
    }
    Ok(())
}

/// Puts the sorted literals of a row into a list, equal ones once. False where the row is a tautology.
fn sort_into(
    row: &[Lit],
    codes: &mut Vec<u32>,
    merged: &mut Vec<u32>,
    out: &mut Vec<Lit>,
) -> Result<bool, NoMemory>
    ensures plain { IfOk result (λ plain. plain ≡ not (is_tautology (sorted row.now))) }
    ensures sorted { IfOk result (λ plain. IsTrue plain → out.new.items ≡ sorted row.now) }
{
    sorted_codes(row, codes, merged)?;
    if has_pair(merged.as_slice()) {
        return Ok(false);
    }
    literals_into(merged.as_slice(), out)?;
    Ok(true)
}

/// Lists that are used again for each clause that is sorted.
#[derive(Drop)]
pub(crate) struct Sorter {
    codes: Vec<u32>,
    merged: Vec<u32>,
    clause: Vec<Lit>,
}

impl Sorter {
    /// Empty lists.
    pub(crate) fn new(alloc: Global) -> Sorter {
        Sorter {
            codes: Vec::new(alloc),
            merged: Vec::new(alloc),
            clause: Vec::new(alloc),
        }
    }
}

/// Appends the row of two literals with its origin, sorted, unless it is a tautology.
fn push_two(first: Lit, second: Lit, origin: u64, out: &mut Part) -> Result<(), NoMemory>
    ensures { OnOk result (KeepSame out.new (out.old ++ from_rows origin ((first ∷ second ∷ []) ∷ []))) }
{
    if first.variable() < second.variable() {
        return out.push_two(first, second, origin);
    }
    if second.variable() < first.variable() {
        return out.push_two(second, first, origin);
    }
    if first.positive() == second.positive() {
        return out.push(&[second], origin);
    }
    Ok(())
}

/// Appends the two clauses of an equivalence of two literals with their origin, sorted, unless they are
/// tautologies.
pub(crate) fn push_pair(
    first: Lit,
    second: Lit,
    origin: u64,
    out: &mut Part,
) -> Result<(), NoMemory>
    ensures { OnOk result (KeepSame out.new (out.old ++ from_rows origin
        ((opposite_lit first ∷ second ∷ []) ∷ (first ∷ opposite_lit second ∷ []) ∷ []))) }
{
    push_two(first.opposite(), second, origin, out)?;
    push_two(first, second.opposite(), origin, out)?;
    Ok(())
}

/// Appends a row with its origin, sorted, unless it is a tautology.
fn push_row(row: &[Lit], origin: u64, sorter: &mut Sorter, out: &mut Part) -> Result<(), NoMemory>
    ensures { OnOk result (KeepSame out.new (out.old ++ from_rows origin (row.now ∷ []))) }
{
    if row.len() == 2 {
        return push_two(row[0], row[1], origin, out);
    }
    if sort_into(
        row,
        &mut sorter.codes,
        &mut sorter.merged,
        &mut sorter.clause,
    )? {
        out.push(sorter.clause.as_slice(), origin)?;
    }
    Ok(())
}

/// Appends the rows from a place on with their origin, sorted, tautologies left out.
pub(crate) fn push_sorted(
    rows: &Store,
    start: usize,
    origin: u64,
    sorter: &mut Sorter,
    out: &mut Part,
) -> Result<(), NoMemory>
    requires { start ≤ length rows.now }
    ensures { OnOk result (KeepSame out.new (out.old ++ from_rows origin (drop start rows.now))) }
{
    for k in start..rows.len() {
        push_row(rows.get(k), origin, sorter, out)?;
    }
    Ok(())
}
