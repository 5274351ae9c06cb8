//! Refutations by failed literals under one assumption, in several orders and with fewer lines.

ghost use Rattle.std.specs.Prelude.{Bool, OnOk, IfOk, IfSome, IsTrue};
ghost use Rattle.cnf.specs.Sat.{Clause};
ghost use Rattle.cnf.specs.Fresh.{AreOver, added_by};
ghost use Rattle.simpler_proofs.specs.Made.{ArePaired, EachPasses, IsProof, is_pair};

use crate::failed_literals::{by_literals, literals_in_turn};
use crate::formula::{Cnf, Given};
use crate::leaving_out::shorter;
use crate::needed::are_needed;
use crate::vivification::by_vivification;
use cnf::{Clauses, Derivation, Ids, Line, Step};
use line_hints::clause_of_line;
use lists::{Items, NoMemory};
use std::alloc::Global;

/// How many entries propagation may make, with those of level 0 at each conflict.
const BUDGET: u32 = 2_000_000;

/// How many entries, clauses and variables the tries may take in which lines are left out.
const LINES: u32 = 1_000_000;

/// In how many orders literals are tried.
const ORDERS: u32 = 8;

/// Adds the clause of a line without its hints, unless it is left out.
fn add_unless(
    alloc: Global,
    line: &Line,
    is_left_out: bool,
    lines: &mut Derivation,
) -> Result<(), NoMemory>
    ensures { OnOk result ((test : Clause → Bool) → IsTrue (test (added_by line.now.step)) →
        EachPasses test lines.old → EachPasses test lines.new) }
{
    if is_left_out {
        return Ok(());
    }
    let mut clause = Items::new(alloc);
    clause.append(clause_of_line(line))?;
    lines.push(Line {
        at: 1,
        step: Step::Add {
            id: 1,
            clause,
            hints: Ids::new(alloc),
        },
    })?;
    Ok(())
}

/// The lines but for the one at a place, without their hints.
fn all_but(alloc: Global, lines: &Derivation, place: usize) -> Result<Derivation, NoMemory>
    ensures { IfOk result (λ rest. (test : Clause → Bool) →
        EachPasses test lines.now → EachPasses test rest) }
{
    let mut rest = Items::new(alloc);
    for k in 0..lines.len() {
        add_unless(alloc, lines.get(k), k == place, &mut rest)?;
    }
    Ok(rest)
}

/// A formula, and lines each clause of which has at most two literals, of no other variables.
#[derive(Drop)]
struct Pairs<'f, 'a> {
    formula: &'f Cnf<'a>,
    lines: &'f Derivation,
    ghost over: { AreOver formula.now.variables lines.now },
    ghost pairs: { EachPasses is_pair lines.now },
}

/// A formula, and a refutation of it in which each clause has at most two literals, of no other variables.
#[derive(Drop)]
struct PairProof<'f, 'a> {
    formula: &'f Cnf<'a>,
    lines: Derivation,
    ghost proof: { IsProof formula.now.clauses.now.clauses lines },
    ghost over: { AreOver formula.now.variables lines },
    ghost pairs: { EachPasses is_pair lines },
}

/// A refutation by parts of clauses that have at most two literals.
fn by_parts(alloc: Global, pairs: &Pairs, budget: u32) -> Result<Option<Derivation>, NoMemory>
    ensures proof { IfOk result (λ made. IfSome made (IsProof pairs.now.formula.now.clauses.now.clauses)) }
    ensures over { IfOk result (λ made. IfSome made (AreOver pairs.now.formula.now.variables)) }
    ensures pairs { IfOk result (λ made. IfSome made (EachPasses is_pair)) }
{
    let given = Given {
        formula: pairs.formula,
        lines: pairs.lines,
    };
    let made = by_vivification(alloc, &given, budget)?;
    Ok(made)
}

/// A refutation, or a shorter one by its clauses without that of one line. `budget` is how many entries
/// propagation may make.
fn without(
    alloc: Global,
    given: PairProof,
    place: usize,
    budget: u32,
) -> Result<Option<Derivation>, NoMemory>
    ensures proof { IfOk result (λ made. IfSome made
        (IsProof given.entry.formula.now.clauses.now.clauses)) }
    ensures over { IfOk result (λ made. IfSome made (AreOver given.entry.formula.now.variables)) }
    ensures pairs { IfOk result (λ made. IfSome made (EachPasses is_pair)) }
{
    if place.saturating_add(1) >= given.lines.len() {
        return Ok(Some(given.lines));
    }
    let rest = all_but(alloc, &given.lines, place)?;
    let pairs = Pairs {
        formula: given.formula,
        lines: &rest,
    };
    match by_parts(alloc, &pairs, budget)? {
        None => Ok(Some(given.lines)),
        Some(made) => Ok(shorter(Some(given.lines), made)),
    }
}

/// What each of so many tries may take.
fn share_of(count: usize) -> u32 {
    if count == 0 || count > LINES as usize {
        return 0;
    }
    LINES / count as u32
}

/// A refutation by the clauses of a given one, or by fewer of them: each line is left out in turn, from the last
/// to the first, and stays so where that has fewer hints. Each try may take as many entries, clauses and
/// variables as the others.
fn with_fewer_lines(alloc: Global, given: PairProof) -> Result<Option<Derivation>, NoMemory>
    ensures proof { IfOk result (λ made. IfSome made
        (IsProof given.entry.formula.now.clauses.now.clauses)) }
    ensures over { IfOk result (λ made. IfSome made (AreOver given.entry.formula.now.variables)) }
    ensures pairs { IfOk result (λ made. IfSome made (EachPasses is_pair)) }
{
    let formula = given.formula;
    let count = given.lines.len();
    let share = share_of(count)
        .saturating_sub(formula.clauses.len())
        .saturating_sub(formula.variables);
    let mut best = Some(given.lines);
    if share == 0 {
        return Ok(best);
    }
    for turn in 0..count {
        let Some(lines) = best else {
            return Ok(None);
        };
        let place = count.saturating_sub(turn).saturating_sub(1);
        best = without(alloc, PairProof { formula, lines }, place, share)?;
    }
    Ok(best)
}

/// The refutation with the fewest hints of those in orders that begin at different variables, each with as few
/// lines as it does with. Of the budget each order takes as many as there are clauses, beside its entries.
fn shortest(alloc: Global, formula: &Cnf) -> Result<Option<Derivation>, NoMemory>
    ensures proof { IfOk result (λ made. IfSome made (IsProof formula.now.clauses.now.clauses)) }
    ensures over { IfOk result (λ made. IfSome made (AreOver formula.now.variables)) }
    ensures pairs { IfOk result (λ made. IfSome made (EachPasses is_pair)) }
{
    let mut budget = BUDGET;
    let mut best = None;
    for turn in 0..ORDERS {
        let first = turn * (formula.variables / ORDERS);
        let tried = literals_in_turn(alloc, formula, first)?;
        match by_literals(alloc, formula, tried.as_slice(), 2, &mut budget)? {
            None => return Ok(best),
            Some(made) => {
                let given = PairProof {
                    formula,
                    lines: made,
                };
                if let Some(fewer) = with_fewer_lines(alloc, given)? {
                    best = shorter(best, fewer);
                }
            }
        }
        budget = budget.saturating_sub(formula.clauses.len());
    }
    Ok(best)
}

/// A refutation of the clauses in which each clause has at most two literals, by failed literals under one
/// assumption, with few hints, none of which does with one literal fewer; none where there is none, or a budget
/// is spent.
pub fn by_two(alloc: Global, formula: &Cnf) -> Result<Option<Derivation>, NoMemory>
    ensures proof { IfOk result (λ made. IfSome made (IsProof formula.now.clauses.now.clauses)) }
    ensures over { IfOk result (λ made. IfSome made (AreOver formula.now.variables)) }
    ensures paired { IfOk result (λ made. IfSome made (ArePaired formula.now.clauses.now.clauses)) }
{
    let Some(made) = shortest(alloc, formula)? else {
        return Ok(None);
    };
    if are_needed(formula.clauses, &made) {
        return Ok(Some(made));
    }
    Ok(None)
}
