//! The adoption of a proof: checked, reduced to a core, and told.

ghost use Rattle.std.specs.Prelude.{IfOk, IfErr, OnOk};
ghost use Rattle.cnf.specs.Derived.{IsAccepted, first_fault};
ghost use Rattle.meaning.specs.StudyClauses.{clauses_for};
ghost use Rattle.search_logs.specs.Spent.{all_places};
ghost use Rattle.core_reduce.specs.Answers.{IsReduced};
ghost use Rattle.adopt.specs.Given.{IsProofOverAll, IsAcceptedProof};
ghost use Rattle.adopt.specs.Told.{IsAdopted};
ghost use Rattle.adopt.specs.Refused.{IsAdoptFault};

use crate::telling::{Adopted, tell};
use clause_form::Ground;
use cnf::{Derivation, LineFault};
use core_reduce::{Reduced, reduce};
use lists::NoMemory;
use lrat_check::{CheckFault, check};
use outcomes::{OutcomeKind, Setting};
use search_logs::all_places;
use std::alloc::Global;

/// Why a proof is not adopted: it is refused at its first faulty line, by its number; or for want of memory.
#[derive(Clone, Copy, Debug, PartialEq, Eq)]
pub enum AdoptFault {
    Proof { at: u32, fault: LineFault },
    NoMemory,
}

/// Reduces a refutation of the clauses of all axioms to a core that its hints name.
fn reduce_all<K: OutcomeKind>(
    alloc: Global,
    setting: &Setting<K>,
    clauses: Ground,
    proof: &Derivation,
) -> Result<Reduced, NoMemory>
    requires { IsAcceptedProof setting.now.study.now clauses proof.now }
    ensures { IfOk result
        (IsReduced setting.now.study.now (all_places setting.now.study.now) proof.now) }
{
    let all = all_places(alloc, setting.study)?;
    let reduced = reduce(alloc, setting.kind, setting.study, &all, clauses, proof)?;
    Ok(reduced)
}

/// Adopts a proof that is accepted.
fn adopt_accepted<K: OutcomeKind>(
    alloc: Global,
    setting: &Setting<K>,
    clauses: Ground,
    proof: &Derivation,
) -> Result<Adopted, NoMemory>
    requires { IsAcceptedProof setting.now.study.now clauses proof.now }
    ensures { IfOk result (IsAdopted setting.now.study.now proof.now) }
{
    let reduced = reduce_all(alloc, setting, clauses, proof)?;
    let adopted = tell(alloc, setting, reduced)?;
    Ok(adopted)
}

/// Makes a story of a refutation of the clauses of all axioms of a study, whoever found it: of a core of
/// axioms that its hints name, with a witness for each of these. A proof that is not accepted is refused at
/// its first faulty line.
///
/// `clauses` are those of all axioms, in their order, and the proof is a derivation over them in the form of
/// LRAT, with no variable above those of the study. Each of its lines has the number of a line of a text,
/// after which there is a further number; so there are fewer than 2^32 - 1. It may take clauses away, add
/// tautologies, and leave out ids.
pub fn adopt<K: OutcomeKind>(
    alloc: Global,
    setting: &Setting<K>,
    clauses: Ground,
    proof: &Derivation,
) -> Result<Adopted, AdoptFault>
    requires { IsProofOverAll setting.now.study.now clauses proof.now }
    ensures adopted { IfOk result (IsAdopted setting.now.study.now proof.now) }
    ensures accepted { OnOk result (IsAccepted
        (clauses_for setting.now.study.now.size setting.now.study.now.axioms
        (all_places setting.now.study.now)) proof.now) }
    ensures refused { IfErr result (λ fault. IsAdoptFault fault
        (first_fault (clauses_for setting.now.study.now.size setting.now.study.now.axioms
        (all_places setting.now.study.now)) proof.now)) }
{
    match check(alloc, clauses.clauses(), proof) {
        Ok(()) => match adopt_accepted(alloc, setting, clauses, proof) {
            Ok(adopted) => Ok(adopted),
            Err(NoMemory) => Err(AdoptFault::NoMemory),
        },
        Err(CheckFault::Line { at, fault }) => Err(AdoptFault::Proof { at, fault }),
        Err(CheckFault::NoMemory) => Err(AdoptFault::NoMemory),
    }
}
