//! A refutation with the story that its proof tells.

ghost use Rattle.std.specs.Prelude.{◌≡◌, IfOk};
ghost use Rattle.core_reduce.specs.Answers.{IsRefutation};
ghost use Rattle.search_logs.specs.Spent.{AreSpentLogs};
ghost use Rattle.adopt.specs.Told.{IsToldRight};

use core_reduce::{Reduced, Refutation, Witnesses};
use lists::NoMemory;
use outcomes::{OutcomeKind, Setting};
use retell::retell_simply;
use search_logs::Logs;
use std::alloc::Global;
use story::Story;
use vocab::Places;

/// A core that no rule satisfies, with the story of it, a witness for each of its axioms, and the searches
/// that spent their limit.
#[derive(Drop)]
pub struct Adopted {
    pub core: Places,
    pub story: Story,
    pub witnesses: Witnesses,
    pub logs: Logs,
}

/// Tells the story of a refutation of a core, or `NoMemory`. The core, its witnesses and the logs stay.
pub fn tell<K: OutcomeKind>(
    alloc: Global,
    setting: &Setting<K>,
    reduced: Reduced,
) -> Result<Adopted, NoMemory>
    requires refutation { IsRefutation setting.now.study.now reduced.logs reduced.refutation }
    requires logs { AreSpentLogs setting.now.study.now reduced.logs }
    ensures told { IfOk result (IsToldRight setting.now.study.now) }
    ensures core { IfOk result (λ told. told.core ≡ reduced.refutation.core) }
    ensures witnesses { IfOk result (λ told. told.witnesses ≡ reduced.refutation.witnesses) }
    ensures logs { IfOk result (λ told. told.logs ≡ reduced.logs) }
{
    let Reduced { refutation, logs } = reduced;
    let Refutation {
        core,
        clauses,
        proof,
        witnesses,
    } = refutation;
    let story = retell_simply(alloc, setting, &core, &clauses, &proof)?;
    Ok(Adopted {
        core,
        story,
        witnesses,
        logs,
    })
}
