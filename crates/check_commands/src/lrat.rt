//! The command `lrat`: reads clauses, and then a refutation of them.

ghost use Rattle.std.specs.Prelude.{◌≡◌, ◌≢◌, ◌≤◌, Some, Ok, Err, IfOk, IsErrOf, IsTrue};
ghost use Rattle.std.specs.List.{list_all};
ghost use Rattle.lrat_check.specs.Ranges.{has_next};
ghost use Rattle.edge.specs.Faults.{Rose};
ghost use Rattle.edge.specs.Shelf.{Files, NoneFell, OthersStay};
ghost use Rattle.words.specs.Words.{Lrat};
ghost use Rattle.answers.specs.Lrat.{of_reading};
ghost use Rattle.command_parts.specs.Answers.{HasText, run_of, answer_status, text_of};
ghost use Rattle.command_parts.specs.Answered.{Answers};
ghost use Rattle.command_parts.specs.GivenProof.{IsProofSaid};
ghost use Rattle.check_commands.specs.Given.{IsGiven, AnswerSays, without_origins};

use clause_text::{CnfFault, Formulas, read_dimacs};
use cnf::Derivation;
use command_parts::{Answer, GivenProof, Stop, open_derivation};
use edge::{ReadFault, Shelf, read_all};
use lrat_check::{CheckFault, check};
use std::alloc::Global;

/// The most bytes of a text of clauses.
const MOST_CNF_BYTES: u32 = 536_870_912;

/// The clauses of a file, or the answer that refuses them.
#[derive(Drop)]
pub enum Given {
    /// The clauses that the bytes give.
    Clauses(Formulas),
    /// The answer that refuses them, of status 3.
    Refused(Answer),
}

/// Reads the clauses of a file.
fn open_clauses<S: Shelf>(alloc: Global, shelf: &mut S, name: &str) -> Result<Given, Stop>
    ensures given { IfOk result (IsGiven (S.files shelf.old) name.now) }
    ensures fault { IsErrOf result Stop.ReadFault →
        Rose (S.faults shelf.old name.now) (S.faults shelf.new name.now) }
    ensures same { S.files shelf.new ≡ S.files shelf.old }
    ensures others { OthersStay (S.left shelf.old) (S.left shelf.new) name.now }
    ensures none_fell { NoneFell (S.faults shelf.old) (S.faults shelf.new) }
{
    let bytes = match read_all(alloc, shelf, name, MOST_CNF_BYTES) {
        Ok(bytes) => bytes,
        Err(ReadFault::TooLong) => return Ok(Given::Refused(Answer::LongCnf)),
        Err(ReadFault::Failed) => return Err(Stop::ReadFault),
        Err(ReadFault::NoMemory) => return Err(Stop::NoMemory),
    };
    match read_dimacs(alloc, bytes.as_slice()) {
        Ok(formulas) => Ok(Given::Clauses(formulas)),
        Err(CnfFault::NoMemory) => Err(Stop::NoMemory),
        Err(fault) => Ok(Given::Refused(Answer::NoCnf(fault))),
    }
}

/// What is said of a derivation from some clauses.
fn checked(alloc: Global, formulas: &Formulas, lines: &Derivation) -> Result<Answer, Stop>
    requires { IsTrue (list_all has_next lines.now) }
    ensures said { IfOk result
        (λ answer. AnswerSays answer (of_reading (without_origins formulas.now) (Ok lines.now))) }
    ensures status { IfOk result (λ answer. answer_status answer ≤ 1) }
    ensures has_text { IfOk result HasText }
    ensures read { result ≢ Err Stop.ReadFault }
{
    match check(alloc, &formulas.clauses, lines) {
        Ok(()) => Ok(Answer::GoodProof),
        Err(CheckFault::Line { at, fault }) => Ok(Answer::BadProof { line: at, fault }),
        Err(CheckFault::NoMemory) => Err(Stop::NoMemory),
    }
}

/// Reads the proof of a file, and judges it.
fn judge_proof<S: Shelf>(
    alloc: Global,
    shelf: &mut S,
    formulas: &Formulas,
    proof: &str,
) -> Result<Answer, Stop>
    requires { formulas.now.variables ≤ 10000000 }
    ensures judged { IfOk result (λ answer. (files : Files) → S.files shelf.old ≡ Some files →
        IsProofSaid files proof.now (without_origins formulas.now) (run_of answer) (text_of answer)) }
    ensures status { IfOk result (λ answer. answer_status answer ≤ 1) }
    ensures has_text { IfOk result HasText }
    ensures fault { IsErrOf result Stop.ReadFault →
        Rose (S.faults shelf.old proof.now) (S.faults shelf.new proof.now) }
    ensures others { OthersStay (S.left shelf.old) (S.left shelf.new) proof.now }
{
    match open_derivation(alloc, shelf, proof, formulas.variables) {
        Ok(GivenProof::Lines(lines)) => checked(alloc, formulas, &lines),
        Ok(GivenProof::Refused(answer)) => Ok(answer),
        Err(stop) => Err(stop),
    }
}

/// Reads the clauses, and then a proof from them. Where the clauses are refused, what the shelf has left
/// under the proof's name stays as it was. Errors: `Stop::ReadFault` where the shelf fails, and
/// `Stop::NoMemory`.
pub fn lrat<S: Shelf>(alloc: Global, shelf: &mut S, cnf: &str, proof: &str) -> Result<Answer, Stop>
    ensures { Answers (Some (Lrat cnf.now proof.now)) (S.files shelf.old)
        (S.left shelf.old) (S.left shelf.new) (S.faults shelf.old) (S.faults shelf.new) result }
{
    match open_clauses(alloc, shelf, cnf) {
        Ok(Given::Clauses(formulas)) => judge_proof(alloc, shelf, &formulas, proof),
        Ok(Given::Refused(answer)) => Ok(answer),
        Err(stop) => Err(stop),
    }
}
