//! A simpler refutation in place of a given one.

ghost use Rattle.std.specs.Prelude.{◌<◌, ◌≤◌, ◌^◌, All, IfOk, IfSome};
ghost use Rattle.cnf.specs.Fresh.{AreOver};
ghost use Rattle.simpler_proofs.specs.Made.{EachPasses, IsProof, AreSimpler, is_single};

use crate::failed_literals::{by_literals, literals_in_turn};
use crate::formula::{Cnf, Given};
use crate::leaving_out::{mark_cited, marked_clauses, shorter, with_fewer_lines};
use crate::ordering::ordered;
use crate::paired::by_two;
use crate::rebuilding::thinned;
use crate::vivification::by_vivification;
use cnf::{Clauses, Derivation};
use lists::NoMemory;
use propagate::stay_within;
use std::alloc::Global;

/// How many entries propagation may make.
const BUDGET: u32 = 10_000_000;

/// How many entries, clauses and variables the tries may take in which lines are left out.
const LINES: u32 = 1_000_000;

/// How many clauses and variables may be looked at for shorter ways to conflicts, each time.
const LOOKS: u32 = 40_000_000;

/// In how many orders literals are tried.
const ORDERS: u32 = 8;

/// The refutation with the fewest hints of those by failed literals, in orders that begin at different
/// variables. Where one order refutes nothing, no other does. Of the budget each order takes as many as there
/// are clauses, beside its entries. The clauses that one of them cites are marked.
fn shortest(
    alloc: Global,
    formula: &Cnf,
    cited: &mut Vec<bool>,
) -> Result<Option<Derivation>, NoMemory>
    ensures proof { IfOk result (λ made. IfSome made (IsProof formula.now.clauses.now.clauses)) }
    ensures over { IfOk result (λ made. IfSome made (AreOver formula.now.variables)) }
    ensures single { IfOk result (λ made. IfSome made (EachPasses is_single)) }
{
    let mut budget = BUDGET;
    let mut best = None;
    for turn in 0..ORDERS {
        let first = turn * (formula.variables / ORDERS);
        let tried = literals_in_turn(alloc, formula, first)?;
        match by_literals(alloc, formula, tried.as_slice(), 1, &mut budget)? {
            None => return Ok(best),
            Some(made) => {
                mark_cited(&made, cited);
                best = shorter(best, made);
            }
        }
        budget = budget.saturating_sub(formula.clauses.len());
    }
    Ok(best)
}

/// A refutation of the clauses by clauses that are marked alone, made of a given one: with fewer lines, and
/// with fewer hints in each. None where the marked clauses don't refute, or a budget is spent.
fn rebuilt(
    alloc: Global,
    formula: &Cnf,
    marked: &[bool],
    given: &Derivation,
) -> Result<Option<Derivation>, NoMemory>
    ensures proof { IfOk result (λ made. IfSome made (IsProof formula.now.clauses.now.clauses)) }
    ensures over { IfOk result (λ made. IfSome made (AreOver formula.now.variables)) }
    ensures single { IfOk result (λ made. IfSome made (EachPasses is_single)) }
{
    let part = marked_clauses(alloc, formula.clauses, marked)?;
    if !stay_within(&part, formula.variables) {
        return Ok(None);
    }
    let rest = Cnf {
        clauses: &part,
        variables: formula.variables,
    };
    let Some(lines) = with_fewer_lines(alloc, &rest, given, LINES)? else {
        return Ok(None);
    };
    let made = thinned(
        alloc,
        formula.clauses,
        &part,
        formula.variables,
        &lines,
        LOOKS,
    )?;
    Ok(made)
}

/// Whether all clauses and variables may be looked at once for each line.
fn can_look_at_all(clauses: &Clauses, variables: u32, lines: usize) -> bool {
    let once = u64::from(clauses.len()) + u64::from(variables);
    once.saturating_mul(lines as u64) < u64::from(LOOKS)
}

/// A refutation made of a given one, with fewer hints in its lines, which may cite any clause. None where it
/// is not accepted, and where there are too many clauses and lines to look at all clauses for each line.
fn thinned_by_all(
    alloc: Global,
    formula: &Cnf,
    given: &Derivation,
) -> Result<Option<Derivation>, NoMemory>
    ensures proof { IfOk result (λ made. IfSome made (IsProof formula.now.clauses.now.clauses)) }
    ensures over { IfOk result (λ made. IfSome made (AreOver formula.now.variables)) }
    ensures single { IfOk result (λ made. IfSome made (EachPasses is_single)) }
{
    if !can_look_at_all(formula.clauses, formula.variables, given.len()) {
        return Ok(None);
    }
    let all = vec![in alloc; true; formula.clauses.len() as usize]?;
    let whole = marked_clauses(alloc, formula.clauses, all.as_slice())?;
    let made = thinned(
        alloc,
        formula.clauses,
        &whole,
        formula.variables,
        given,
        LOOKS,
    )?;
    Ok(made)
}

/// A refutation by failed literals, the shortest that was found.
fn by_single(alloc: Global, formula: &Cnf) -> Result<Option<Derivation>, NoMemory>
    ensures proof { IfOk result (λ made. IfSome made (IsProof formula.now.clauses.now.clauses)) }
    ensures over { IfOk result (λ made. IfSome made (AreOver formula.now.variables)) }
    ensures single { IfOk result (λ made. IfSome made (EachPasses is_single)) }
{
    let mut cited = vec![in alloc; false; formula.clauses.len() as usize]?;
    let Some(given) = shortest(alloc, formula, &mut cited)? else {
        return Ok(None);
    };
    let Some(made) = rebuilt(alloc, formula, cited.as_slice(), &given)? else {
        return Ok(Some(given));
    };
    match thinned_by_all(alloc, formula, &made)? {
        None => Ok(shorter(Some(given), made)),
        Some(last) => Ok(shorter(shorter(Some(given), made), last)),
    }
}

/// A refutation by failed literals, or else by failed literals under one assumption, or else by vivification.
fn chosen(alloc: Global, given: &Given) -> Result<Option<Derivation>, NoMemory>
    ensures proof { IfOk result (λ made. IfSome made (IsProof given.now.formula.now.clauses.now.clauses)) }
    ensures over { IfOk result (λ made. IfSome made (AreOver given.now.formula.now.variables)) }
    ensures simpler { IfOk result (λ made. IfSome made
        (AreSimpler given.now.formula.now.clauses.now.clauses given.now.lines.now)) }
{
    if let Some(made) = by_single(alloc, given.formula)? {
        return Ok(Some(made));
    }
    if let Some(made) = by_two(alloc, given.formula)? {
        return Ok(Some(made));
    }
    let made = by_vivification(alloc, given, BUDGET)?;
    Ok(made)
}

/// A simpler refutation of the same clauses, by failed literals, or else by failed literals under one
/// assumption, or else by vivification, each within a budget; none where none comes to an end. Each of its
/// clauses has at most one literal, or each has at most two and needs them, or each is empty or part of one of
/// the given lines', with no more literals. The hints of a line that don't rest on the literals of its clause
/// come first; and those of one axiom, which the upper half of a clause's origin tells, stand together where
/// what follows from what allows it.
#[tactic(auto, using(crate::proofs::Reordering::over_reordered))]
pub fn simplify(
    alloc: Global,
    clauses: &Clauses,
    variables: u32,
    given: &Derivation,
) -> Result<Option<Derivation>, NoMemory>
    requires few { variables < 2 ^ 31 }
    requires range { All (λ clause. All (λ l. l.variable ≤ variables) clause) clauses.now.clauses }
    requires over { AreOver variables given.now }
    ensures proof { IfOk result (λ made. IfSome made (IsProof clauses.now.clauses)) }
    ensures over { IfOk result (λ made. IfSome made (AreOver variables)) }
    ensures simpler { IfOk result (λ made. IfSome made (AreSimpler clauses.now.clauses given.now)) }
{
    let formula = Cnf { clauses, variables };
    let lines = Given {
        formula: &formula,
        lines: given,
    };
    match chosen(alloc, &lines)? {
        None => Ok(None),
        Some(made) => {
            let last = ordered(alloc, clauses, variables, made)?;
            Ok(Some(last))
        }
    }
}
