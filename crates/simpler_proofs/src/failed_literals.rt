//! Failed literals: a literal is assumed, and where propagation then falsifies a clause, its opposite is
//! learned (Freeman, 1995).

ghost use Rattle.std.specs.Prelude.{◌≡◌, ◌<◌, ◌≤◌, ◌^◌, false, All, length, OnOk, IfOk, IfSome};
ghost use Rattle.cnf.specs.Fresh.{AreOver};
ghost use Rattle.simpler_proofs.specs.Made.{EachPasses, IsProof, has_at_most, is_single};
ghost use Rattle.simpler_proofs.specs.Search.{IsAtRoot, IsSameSearch};

use crate::formula::Cnf;
use crate::made::{Draft, finish};
use crate::search::Search;
use cnf::{Clauses, Derivation, Lit, Lits};
use lists::{Items, NoMemory};
use std::alloc::Global;

/// Both literals of each variable in turn, those of the variables after the first ones before these.
pub fn literals_in_turn(alloc: Global, formula: &Cnf, first: u32) -> Result<Lits, NoMemory> {
    let after = formula.variables.saturating_sub(first);
    let mut tried = Items::new(alloc);
    for place in 0..formula.variables {
        let variable = if place < after {
            place + first + 1
        } else {
            place - after + 1
        };
        tried.push(Lit::new(variable, true))?;
        tried.push(Lit::new(variable, false))?;
    }
    Ok(tried)
}

/// Tries each literal alone; or, where clauses of two literals may be learned, under each other one. The answer
/// is whether the clauses are refuted.
fn round(alloc: Global, search: &mut Search, tried: &[Lit]) -> Result<bool, NoMemory>
    requires root { IsAtRoot search.old }
    ensures root { IfOk result (λ ended. ended ≡ false → IsAtRoot search.new) }
    ensures same { OnOk result (IsSameSearch search.old search.new) }
{
    let ended = if search.most > 1 {
        search.each_in_turn(alloc, tried)?
    } else {
        search.each_alone(alloc, tried)?
    };
    Ok(ended)
}

/// Goes round until the clauses are refuted, or a round learns nothing.
fn rounds(alloc: Global, search: &mut Search, tried: &[Lit]) -> Result<bool, NoMemory>
    requires room { length search.old.draft.lines.items < 1000000 }
    ensures same { OnOk result (IsSameSearch search.old search.new) }
{
    if search.propagate(alloc)? {
        return Ok(true);
    }
    for _ in 0..tried.len() {
        let before = search.draft.lines.len();
        if round(alloc, search, tried)? {
            return Ok(true);
        }
        if search.draft.lines.len() == before {
            return Ok(false);
        }
    }
    Ok(false)
}

/// A refutation of the clauses by failed literals, round after round, in which each clause has at most so many
/// literals, one or two. For one, each literal is tried alone; for two, each under each other one, and where
/// one failed alone then, each alone again. A literal of a variable above the number of variables is not tried.
/// `budget` is how many entries propagation may make, and becomes how many are left; where it is spent, or
/// nothing is left that fails, there is no refutation.
pub fn by_literals(
    alloc: Global,
    formula: &Cnf,
    tried: &[Lit],
    most: usize,
    budget: &mut u32,
) -> Result<Option<Derivation>, NoMemory>
    requires least { 1 ≤ most }
    ensures proof { IfOk result (λ made. IfSome made (IsProof formula.now.clauses.now.clauses)) }
    ensures over { IfOk result (λ made. IfSome made (AreOver formula.now.variables)) }
    ensures short { IfOk result (λ made. IfSome made (EachPasses (has_at_most most))) }
{
    let mut search = Search {
        draft: Draft::new(alloc, formula, *budget)?,
        most,
    };
    let ended = rounds(alloc, &mut search, tried)?;
    let Search { draft, most: _ } = search;
    *budget = draft.budget;
    if ended {
        let made = finish(alloc, formula.clauses, &draft.into_lines())?;
        return Ok(made);
    }
    Ok(None)
}

/// A refutation of the clauses in which each clause has at most one literal, by failed literals: those of
/// the variables after the first ones are tried before these, and where all are first ones, all in their
/// order. No variable of a clause is above the number of variables. `budget` is how many entries
/// propagation may make, and becomes how many are left; where it is spent, or no literal is left that
/// fails, there is no refutation.
pub fn by_failed_literals(
    alloc: Global,
    clauses: &Clauses,
    variables: u32,
    first: u32,
    budget: &mut u32,
) -> Result<Option<Derivation>, NoMemory>
    requires few { variables < 2 ^ 31 }
    requires range { All (λ clause. All (λ l. l.variable ≤ variables) clause) clauses.now.clauses }
    ensures proof { IfOk result (λ made. IfSome made (IsProof clauses.now.clauses)) }
    ensures over { IfOk result (λ made. IfSome made (AreOver variables)) }
    ensures single { IfOk result (λ made. IfSome made (EachPasses is_single)) }
{
    let formula = Cnf { clauses, variables };
    let tried = literals_in_turn(alloc, &formula, first)?;
    let made = by_literals(alloc, &formula, tried.as_slice(), 1, budget)?;
    Ok(made)
}
