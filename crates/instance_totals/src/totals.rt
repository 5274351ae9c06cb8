//! The total of a study, and whether it is within the limits of a list of clauses.

ghost use Rattle.std.specs.Prelude.{◌≡◌, None, IfErr, IfOk, OnOk};
ghost use Rattle.vocab.specs.Study.{HasFewAxioms};
ghost use Rattle.clause_form.specs.Refusals.{first_wide};
ghost use Rattle.search_logs.specs.Spent.{all_places};
ghost use Rattle.sharp_verdicts.specs.Totals.{IsWithinTotal, passes_clause_limits, total};
ghost use Rattle.instance_totals.specs.Sums.{AreAllNarrow, AreFrameCounts};
ghost use Rattle.instance_totals.specs.Totals.{IsTotalFault};

use crate::bounds::are_bounded;
use crate::frames::counts_of_frames;
use crate::pieces::sum_of_axiom;
use crew::Crew;
use edge::Gate;
use lists::NoMemory;
use meaning::Counts;
use outcomes::{OutcomeKind, Setting};
use std::alloc::Global;
use std::thread::Threads;

/// The most clauses of a list.
const MOST_CLAUSES: u64 = 4_000_000;

/// The most literals of a list.
const MOST_LITERALS: u64 = 60_000_000;

/// Why the instances of a study are refused.
#[derive(Clone, Copy, Debug, PartialEq, Eq)]
pub enum TotalFault {
    /// The frames and all instances have together so many clauses and literals: more than 4,000,000 clauses,
    /// or more than 60,000,000 literals.
    Over(Counts),
    /// There is not enough memory.
    NoMemory,
}

/// Whether counts pass a limit of a list of clauses.
pub(crate) fn passes_clause_limits(counts: Counts) -> bool
    ensures { result ≡ passes_clause_limits counts }
{
    counts.clauses > MOST_CLAUSES || counts.literals > MOST_LITERALS
}

/// The counts of the frames together with those of all instances.
pub(crate) fn with_instances<R: Threads + Sync, K: OutcomeKind, G: Gate>(
    alloc: Global,
    crew: &Crew<R, G>,
    setting: &Setting<K>,
    frames: Counts,
) -> Result<Counts, NoMemory>
    requires listed { HasFewAxioms setting.now.study.now }
    requires narrow { AreAllNarrow setting.now.study.now }
    requires frames { AreFrameCounts setting.now.study.now frames }
    ensures { IfOk result (λ counts. counts ≡ total setting.now.study.now) }
{
    let count = setting.study.axioms().len() as u32;
    let mut clauses = frames.clauses;
    let mut literals = frames.literals;
    for place in 0..count {
        let sum = sum_of_axiom(alloc, crew, setting, place)?;
        clauses += sum.clauses;
        literals += sum.literals;
    }
    Ok(Counts { clauses, literals })
}

/// Whether the frames of a study together with the clauses of all instances of all its axioms, before any is
/// left out, are within the limits of a list of clauses; else how many they are. No instance is too wide, and
/// the study has at most 40 axioms. Where the shapes of the axioms tell that they are within, nothing is
/// counted; else the instances are counted in pieces of 4,096, which are shared among the workers. The answer
/// is the same for every number of workers.
pub fn check_total<R: Threads + Sync, K: OutcomeKind, G: Gate>(
    alloc: Global,
    crew: &Crew<R, G>,
    setting: &Setting<K>,
) -> Result<(), TotalFault>
    requires listed { HasFewAxioms setting.now.study.now }
    requires narrow { first_wide setting.now.study.now.size setting.now.study.now.axioms
        (all_places setting.now.study.now) ≡ None }
    ensures ok { OnOk result (IsWithinTotal setting.now.study.now) }
    ensures err { IfErr result (IsTotalFault setting.now.study.now) }
{
    let Ok(frames) = counts_of_frames(alloc, crew, setting) else {
        return Err(TotalFault::NoMemory);
    };
    if are_bounded(setting, frames) {
        return Ok(());
    }
    let Ok(counts) = with_instances(alloc, crew, setting, frames) else {
        return Err(TotalFault::NoMemory);
    };
    if passes_clause_limits(counts) {
        return Err(TotalFault::Over(counts));
    }
    Ok(())
}
