//! The derivation of the file of a proof.

ghost use Rattle.std.specs.Prelude.{◌≤◌, IfOk, IsErrOf};
ghost use Rattle.edge.specs.Faults.{Rose};
ghost use Rattle.edge.specs.Shelf.{OthersStay};
ghost use Rattle.command_parts.specs.GivenProof.{IsGivenProof};

use crate::answer::{Answer, Stop};
use clause_text::{LratFault, read_lrat};
use cnf::Derivation;
use edge::{ReadFault, Shelf, read_all};
use std::alloc::Global;

/// The most bytes of a proof.
const MOST_PROOF_BYTES: u32 = 536_870_912;

/// The derivation of a file, or the answer that refuses it.
#[derive(Drop)]
pub enum GivenProof {
    /// The derivation that the bytes give.
    Lines(Derivation),
    /// The answer that refuses them, of status 1.
    Refused(Answer),
}

/// Reads the derivation of a file, over so many variables, at most 10,000,000. Errors: `Stop::ReadFault`
/// where the shelf fails, and `Stop::NoMemory`.
pub fn open_derivation<S: Shelf>(
    alloc: Global,
    shelf: &mut S,
    name: &str,
    variables: u32,
) -> Result<GivenProof, Stop>
    requires { variables ≤ 10000000 }
    ensures derived { IfOk result (IsGivenProof (S.files shelf.old) name.now variables) }
    ensures fault { IsErrOf result Stop.ReadFault →
        Rose (S.faults shelf.old name.now) (S.faults shelf.new name.now) }
    ensures others { OthersStay (S.left shelf.old) (S.left shelf.new) name.now }
{
    let bytes = match read_all(alloc, shelf, name, MOST_PROOF_BYTES) {
        Ok(bytes) => bytes,
        Err(ReadFault::TooLong) => return Ok(GivenProof::Refused(Answer::LongProof)),
        Err(ReadFault::Failed) => return Err(Stop::ReadFault),
        Err(ReadFault::NoMemory) => return Err(Stop::NoMemory),
    };
    match read_lrat(alloc, bytes.as_slice(), variables) {
        Ok(lines) => Ok(GivenProof::Lines(lines)),
        Err(LratFault::NoMemory) => Err(Stop::NoMemory),
        Err(fault) => Ok(GivenProof::Refused(Answer::NoProof(fault))),
    }
}
