//! The counts of the frames of a study.

ghost use Rattle.std.specs.Prelude.{◌≡◌, IfOk, length, sum_by};
ghost use Rattle.instance_totals.specs.Sums.{AreFrameCounts};

use clause_form::GroundFault;
use cnf::Clauses;
use crew::Crew;
use edge::Gate;
use grounding::ground;
use lists::NoMemory;
use meaning::Counts;
use outcomes::{OutcomeKind, Setting};
use std::alloc::Global;
use std::thread::Threads;
use vocab::Places;

/// How many literals stand in the clauses of a list.
fn literals_of(clauses: &Clauses) -> u64
    ensures { result ≡ sum_by length clauses.now.clauses }
{
    let mut literals = 0;
    for place in 0..clauses.len() {
        literals += clauses.get(place).len() as u64;
    }
    literals
}

/// The counts of the frames of all profiles.
pub(crate) fn counts_of_frames<R: Threads + Sync, K: OutcomeKind, G: Gate>(
    alloc: Global,
    crew: &Crew<R, G>,
    setting: &Setting<K>,
) -> Result<Counts, NoMemory>
    ensures { IfOk result (AreFrameCounts setting.now.study.now) }
{
    let none = Places::new(alloc);
    match ground(alloc, crew, setting.kind, setting.study, &none) {
        Ok(ground) => {
            let clauses = ground.clauses();
            Ok(Counts {
                clauses: u64::from(clauses.len()),
                literals: literals_of(clauses),
            })
        }
        Err(GroundFault::NoMemory) => Err(NoMemory),
        Err(GroundFault::Wide { .. } | GroundFault::Full { .. }) => unreachable!(),
    }
}
