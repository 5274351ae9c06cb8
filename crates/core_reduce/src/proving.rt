//! A search over the clauses of all axioms, and the refutation that it found.

ghost use Rattle.std.specs.Prelude.{◌≡◌, IfOk};
ghost use Rattle.meaning.specs.StudyClauses.{study_clauses};
ghost use Rattle.search_logs.specs.Spent.{all_places};
ghost use Rattle.core_reduce.specs.Proofs.{IsProvedRight};

use crate::answers::{Proved, Shown};
use crate::reduction::search;
use crate::tables::rule_of;
use cdcl::Search;
use clause_form::Ground;
use lists::{Items, NoMemory};
use lrat_check::trim;
use outcomes::OutcomeKind;
use search_logs::{SearchLog, all_places};
use std::alloc::Global;
use vocab::Study;

/// Searches over the clauses of all axioms of a study: a rule that satisfies all axioms; a trimmed refutation
/// of the clauses; or neither, where the search spent its limit.
pub fn prove<K: OutcomeKind>(
    alloc: Global,
    kind: &K,
    study: &Study,
    clauses: &Ground,
) -> Result<Proved, NoMemory>
    requires size { study.now.size ≡ K.size kind.now }
    requires clauses { clauses.now ≡ study_clauses study.now.size study.now.axioms (all_places study.now) }
    ensures { IfOk result (IsProvedRight study.now) }
{
    let all = all_places(alloc, study)?;
    match search(alloc, kind, study, &all, clauses)? {
        Search::Found(bits) => {
            let table = rule_of(alloc, kind, study, &all, &bits)?;
            Ok(Proved {
                shown: Shown::Possible(table),
                logs: Items::new(alloc),
            })
        }
        Search::Refuted(lines) => {
            let refutation = trim(alloc, clauses.clauses(), &lines)?;
            Ok(Proved {
                shown: Shown::Refuted(refutation),
                logs: Items::new(alloc),
            })
        }
        Search::Spent(lines) => {
            let mut logs = Items::new(alloc);
            logs.push(SearchLog { chosen: all, lines })?;
            Ok(Proved {
                shown: Shown::Undecided,
                logs,
            })
        }
    }
}
