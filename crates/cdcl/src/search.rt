//! The search.

ghost use Rattle.std.specs.Prelude.{◌≡◌, ◌≢◌, ℕ, ◌<◌, ◌≤◌, ◌^◌, [], length, All, IfOk, IfSome, IfNone, slice_index_or};
ghost use Rattle.cnf.specs.Derived.{IsAccepted};
ghost use Rattle.cnf.specs.Fresh.{AreOver};
ghost use Rattle.cdcl.specs.Search.{IsSearching, AreNumbered};
ghost use Rattle.cdcl.specs.Answer.{IsSearchAnswer, IsConclusive, IsFirstEmpty, citing};

use crate::lines::line;
use crate::restarts::Restarts;
use crate::solver::Solver;
use cnf::{Bits, Clauses, Derivation};
use lists::{Items, NoMemory};
use std::alloc::Global;

/// What a search came to: an assignment that satisfies the clauses; a derivation of the empty clause from
/// them; or the clauses that it learned, as many as it was allowed.
#[derive(Drop)]
pub enum Search {
    Found(Bits),
    Refuted(Derivation),
    Spent(Derivation),
}

/// Searches for an assignment of the variables that satisfies the clauses, and learns a clause from each
/// conflict, up to a limit of at most 1,000,000. No variable of a clause is above the number of variables,
/// which is at most 2,147,483,647. It decides the variable without a value that has the greatest activity,
/// and of those the least, with the sign that it last had, false at first, and goes back to the assertion
/// level of the clause of the first unique implication point (Marques-Silva and Sakallah, 1999), or to level
/// 0 when a restart is due.
///
/// `Found` has exactly these variables and satisfies each clause. `Refuted` is accepted. `Spent` has as many
/// lines as the limit allows, each of which learns a clause that follows by its hints and is fresh; it never
/// comes where the limit is at least 3 to the number of variables. Where a clause is empty, `Refuted` is the
/// one line that cites the first such clause.
pub fn solve(
    alloc: Global,
    clauses: &Clauses,
    variables: u32,
    limit: u32,
) -> Result<Search, NoMemory>
    requires few { variables < 2 ^ 31 }
    requires range { All (λ clause. All (λ l. l.variable ≤ variables) clause) clauses.now.clauses }
    requires limit { limit ≤ 1000000 }
    ensures answers { IfOk result (IsSearchAnswer clauses.now.clauses variables limit) }
    ensures conclusive { 3 ^ variables ≤ limit → IfOk result IsConclusive }
    ensures empty { (k : ℕ) → IsFirstEmpty clauses.now.clauses k →
        IfOk result (λ search. search ≡ Search.Refuted (citing clauses.now.clauses k)) }
{
    match first_empty(clauses) {
        Some(k) => Ok(Search::Refuted(cite(alloc, clauses, variables, k)?)),
        None => search_clauses(alloc, clauses, variables, limit),
    }
}

/// The place of the first empty clause.
fn first_empty(clauses: &Clauses) -> Option<u32>
    ensures some { IfSome result (IsFirstEmpty clauses.now.clauses) }
    ensures none { IfNone result
        ((k : ℕ) → k < length clauses.now.clauses → slice_index_or clauses.now.clauses k [] ≢ []) }
{
    for k in 0..clauses.len() {
        if clauses.get(k).is_empty() {
            return Some(k);
        }
    }
    None
}

/// The one line that cites an empty clause.
fn cite(alloc: Global, clauses: &Clauses, variables: u32, k: u32) -> Result<Derivation, NoMemory>
    requires { IsFirstEmpty clauses.now.clauses k }
    ensures line { IfOk result (λ lines. lines ≡ citing clauses.now.clauses k) }
    ensures accepted { IfOk result (IsAccepted clauses.now.clauses) }
    ensures over { IfOk result (AreOver variables) }
    ensures numbered { IfOk result AreNumbered }
    ensures few { IfOk result (λ lines. length lines ≤ 1000000) }
{
    let _variables = variables;
    let id = clauses.len() as u64 + 1;
    let mut hints = Vec::new(alloc);
    hints.push(k)?;
    let only = line(alloc, 1, id, Items::new(alloc), hints.as_slice())?;
    let mut lines = Items::new(alloc);
    lines.push(only)?;
    Ok(lines)
}

/// The search, where no clause is empty.
fn search_clauses(
    alloc: Global,
    clauses: &Clauses,
    variables: u32,
    limit: u32,
) -> Result<Search, NoMemory>
    requires few { variables < 2 ^ 31 }
    requires range { All (λ clause. All (λ l. l.variable ≤ variables) clause) clauses.now.clauses }
    requires limit { limit ≤ 1000000 }
    ensures { IfOk result (IsSearchAnswer clauses.now.clauses variables limit) }
{
    let mut solver = Solver::new(alloc, clauses, variables)?;
    let search = search_from(alloc, clauses, &mut solver, limit)?;
    Ok(search)
}

/// The search from where nothing is learned yet.
fn search_from(
    alloc: Global,
    clauses: &Clauses,
    solver: &mut Solver,
    limit: u32,
) -> Result<Search, NoMemory>
    requires searching { IsSearching clauses.now.clauses solver.old.trail.variables solver.old.trail [] }
    requires limit { limit ≤ 1000000 }
    ensures { IfOk result (IsSearchAnswer clauses.now.clauses solver.old.trail.variables limit) }
{
    let mut restarts = Restarts::new();
    let mut lines = Items::new(alloc);
    for _ in 0..limit {
        match solver.propagate_and_decide() {
            None => return Ok(Search::Found(solver.values(alloc)?)),
            Some(conflict) => {
                if solver.is_at_root() {
                    solver.refute(alloc, clauses, conflict, &mut lines)?;
                    return Ok(Search::Refuted(lines));
                }
                solver.learn(alloc, clauses, conflict, &mut lines)?;
                solver.restart_if_due(&mut restarts);
            }
        }
    }
    Ok(Search::Spent(lines))
}
