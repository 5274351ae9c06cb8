//! What a refutation needs.

ghost use Rattle.std.specs.Prelude.{◌≡◌, ◌<◌, ◌-◌, ◌^◌, length, IfOk};
ghost use Rattle.cnf.specs.Derived.{IsAccepted};
ghost use Rattle.clause_form.specs.Sources.{clauses_in};
ghost use Rattle.core_reduce.specs.Reducing.{IsFocus};

use crate::citing::uncited;
use crate::leaving::restrict;
use crate::moving::renumber;
use crate::reduction::Reduction;
use clause_form::Ground;
use cnf::Derivation;
use lists::NoMemory;
use lrat_check::trim;
use meaning::Witness;
use search_logs::Logs;
use std::alloc::Global;
use vocab::Places;

/// The axioms that a refutation does not need, the clauses without theirs, and a trimmed proof over these.
pub struct Focus {
    pub gone: Vec<bool>,
    pub clauses: Ground,
    pub proof: Derivation,
}

/// Written out, so that letting go of a focus is one call.
impl Drop for Focus {
    fn drop(self) {
        let Focus {
            gone: _,
            clauses: _,
            proof: _,
        } = self;
    }
}

impl Focus {
    /// A reduction to these clauses and this proof.
    pub fn into_reduction(self, core: Places, witnesses: Vec<Witness>, logs: Logs) -> Reduction
        ensures { result ≡
            record {
              core = core;
              clauses = self.clauses;
              proof = self.proof;
              witnesses = witnesses;
              logs = logs;
            } }
    {
        let Focus {
            gone: _,
            clauses,
            proof: needed,
        } = self;
        Reduction {
            core,
            clauses,
            proof: needed,
            witnesses,
            logs,
        }
    }
}

/// Trims an accepted derivation, and leaves out the axioms that it then does not cite.
pub fn focus_on(
    alloc: Global,
    clauses: &Ground,
    lines: &Derivation,
    count: usize,
) -> Result<Focus, NoMemory>
    requires accepted { IsAccepted (clauses_in clauses.now) lines.now }
    requires few { length lines.now < 2 ^ 32 - 1 }
    ensures { IfOk result (IsFocus clauses.now lines.now count) }
{
    let trimmed = trim(alloc, clauses.clauses(), lines)?;
    let gone = uncited(alloc, clauses, trimmed.as_slice(), count)?;
    let rest = restrict(alloc, clauses, gone.as_slice())?;
    let proof = renumber(alloc, clauses, gone.as_slice(), trimmed.as_slice())?;
    Ok(Focus {
        gone,
        clauses: rest,
        proof,
    })
}
