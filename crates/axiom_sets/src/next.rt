//! The next set of axioms that a map does not cover.

ghost use Rattle.std.specs.Prelude.{◌<◌, ◌^◌, IfOk};
ghost use Rattle.axiom_sets.specs.Maps.{IsTidy};
ghost use Rattle.axiom_sets.specs.Next.{IsNextSet};

use crate::asking::{chosen, uncovered_clauses};
use crate::maps::AxiomMap;
use cdcl::{Search, solve};
use cnf::PushFault;
use lists::NoMemory;
use std::alloc::Global;
use vocab::Places;

/// The most conflicts of a search for a set.
const MOST_CONFLICTS: u32 = 1_000_000;

/// A set that a map does not cover; or it covers all; or the search for one was cut short.
#[derive(Drop)]
pub enum Next {
    Uncovered(Places),
    Whole,
    Cut,
}

impl AxiomMap {
    /// A set of some of so many axioms that the map does not cover, by a search over the clauses of such sets; or
    /// that it covers all, which a refutation of these clauses shows; or that the search spent its limit, or
    /// its clauses are too many for a list. The only error is want of memory.
    pub fn next(&self, alloc: Global, count: u32) -> Result<Next, NoMemory>
        requires few { count < 2 ^ 31 }
        requires tidy { IsTidy count self.now }
        ensures { IfOk result (IsNextSet count self.now) }
    {
        let clauses = match uncovered_clauses(alloc, count, self) {
            Ok(clauses) => clauses,
            Err(PushFault::Full) => return Ok(Next::Cut),
            Err(PushFault::NoMemory) => return Err(NoMemory),
        };
        match solve(alloc, &clauses, count, MOST_CONFLICTS)? {
            Search::Found(bits) => {
                let set = chosen(alloc, &bits, count)?;
                Ok(Next::Uncovered(set))
            }
            Search::Refuted(_) => Ok(Next::Whole),
            Search::Spent(_) => Ok(Next::Cut),
        }
    }
}
