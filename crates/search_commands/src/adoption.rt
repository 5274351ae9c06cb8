//! The command `adopt`: reads a study, and then a refutation of its clauses, which becomes a story.

ghost use Rattle.std.specs.Prelude.{◌≡◌, ◌≢◌, ◌≤◌, Some, Err, IfOk, IsErrOf};
ghost use Rattle.edge.specs.Faults.{Rose};
ghost use Rattle.edge.specs.Shelf.{Files, OthersStay};
ghost use Rattle.meaning.specs.StudyClauses.{study_clauses};
ghost use Rattle.search_logs.specs.Spent.{all_places};
ghost use Rattle.adopt.specs.Given.{IsProofOverAll};
ghost use Rattle.adopt.specs.Told.{IsAdopted};
ghost use Rattle.words.specs.Words.{Adopt};
ghost use Rattle.answers.specs.Adopt.{Adopts, IsRetold};
ghost use Rattle.command_parts.specs.Answers.{HasText, run_of, answer_status, text_of};
ghost use Rattle.command_parts.specs.Answered.{Answers};
ghost use Rattle.search_commands.specs.Retold.{IsDerivationJudged};

use crate::decide::impossible;
use adopt::{AdoptFault, Adopted};
use clause_form::{Ground, GroundFault};
use cnf::Derivation;
use command_parts::{
    Answer, GivenProof, Opened, Stop, WholeSetting, WholeStudy, ground_study, open_derivation,
    open_study, over_whole,
};
use core_reduce::variables;
use crew::Crew;
use edge::{Gate, Shelf};
use kinds::over_kind;
use outcomes::{OutcomeKind, Setting};
use std::alloc::Global;
use std::thread::Threads;

/// The report of a proof that was adopted.
fn report_of<K: OutcomeKind>(whole: WholeSetting<K>, adopted: Adopted, lines: &Derivation) -> Answer
    requires { IsAdopted whole.study lines.now adopted }
    ensures retold { IsRetold whole.entry.study lines.now (run_of result) (text_of result) }
    ensures has_text { HasText result }
{
    let _ = lines;
    let found = impossible(adopted);
    Answer::Report(whole.study, found.verdict, found.logs)
}

/// The report of a derivation from the clauses of a study of a kind, or what is said of its first faulty
/// line.
fn judge_lines<K: OutcomeKind>(
    alloc: Global,
    whole: WholeSetting<K>,
    clauses: Ground,
    lines: &Derivation,
) -> Result<Answer, Stop>
    requires { IsProofOverAll whole.study clauses lines.now }
    ensures judged { IfOk result (IsDerivationJudged whole.entry.study lines.now) }
    ensures has_text { IfOk result HasText }
    ensures read { result ≢ Err Stop.ReadFault }
{
    let setting = Setting {
        kind: whole.kind,
        study: &whole.study,
    };
    match adopt::adopt(alloc, &setting, clauses, lines) {
        Ok(adopted) => Ok(report_of(whole, adopted, lines)),
        Err(AdoptFault::Proof { at, fault }) => Ok(Answer::BadProof { line: at, fault }),
        Err(AdoptFault::NoMemory) => Err(Stop::NoMemory),
    }
}

/// Reads the proof of a file, and judges it over the clauses of a study of a kind.
fn judge_over<S: Shelf, K: OutcomeKind>(
    alloc: Global,
    shelf: &mut S,
    whole: WholeSetting<K>,
    clauses: Ground,
    proof: &str,
) -> Result<Answer, Stop>
    requires { clauses ≡ study_clauses whole.study.size whole.study.axioms (all_places whole.study) }
    ensures row { IfOk result (λ answer. (files : Files) → S.files shelf.old ≡ Some files →
        Adopts files proof.now whole.entry.study (run_of answer) (text_of answer)) }
    ensures status { IfOk result (λ answer. answer_status answer ≤ 1) }
    ensures has_text { IfOk result HasText }
    ensures fault { IsErrOf result Stop.ReadFault →
        Rose (S.faults shelf.old proof.now) (S.faults shelf.new proof.now) }
    ensures others { OthersStay (S.left shelf.old) (S.left shelf.new) proof.now }
{
    match open_derivation(alloc, shelf, proof, variables(whole.kind)) {
        Ok(GivenProof::Lines(lines)) => judge_lines(alloc, whole, clauses, &lines),
        Ok(GivenProof::Refused(answer)) => Ok(answer),
        Err(stop) => Err(stop),
    }
}

/// Reads the proof of a file, and judges it over the clauses of a study.
fn judge_proof<S: Shelf>(
    alloc: Global,
    shelf: &mut S,
    whole: WholeStudy,
    clauses: Ground,
    proof: &str,
) -> Result<Answer, Stop>
    requires { clauses ≡ study_clauses whole.study.size whole.study.axioms (all_places whole.study) }
    ensures row { IfOk result (λ answer. (files : Files) → S.files shelf.old ≡ Some files →
        Adopts files proof.now whole.study (run_of answer) (text_of answer)) }
    ensures status { IfOk result (λ answer. answer_status answer ≤ 1) }
    ensures has_text { IfOk result HasText }
    ensures fault { IsErrOf result Stop.ReadFault →
        Rose (S.faults shelf.old proof.now) (S.faults shelf.new proof.now) }
    ensures others { OthersStay (S.left shelf.old) (S.left shelf.new) proof.now }
{
    over_whole!(
        whole,
        setting,
        judge_over(alloc, shelf, setting, clauses, proof)
    )
}

/// Reads the study and makes its clauses, and then reads a refutation of them, whoever found it: this becomes
/// the report of an impossibility, or is refused at its first faulty line. Where the study or its clauses are
/// refused, what the shelf has left under the proof's name stays as it was. The clauses are made among 1 to
/// 16 workers, which changes none; the gate is told of each piece of that work. Errors: `Stop::ReadFault`
/// where the shelf fails, and `Stop::NoMemory`.
pub fn adopt<R: Threads + Sync, S: Shelf, G: Gate>(
    alloc: Global,
    crew: &Crew<R, G>,
    shelf: &mut S,
    study: &str,
    proof: &str,
) -> Result<Answer, Stop>
    ensures { Answers (Some (Adopt study.now proof.now crew.now.workers)) (S.files shelf.old)
        (S.left shelf.old) (S.left shelf.new) (S.faults shelf.old) (S.faults shelf.new) result }
{
    let whole = match open_study(alloc, shelf, study) {
        Ok(Opened::Study(whole)) => whole,
        Ok(Opened::Refused(answer)) => return Ok(answer),
        Err(stop) => return Err(stop),
    };
    match ground_study(alloc, crew, &whole.study) {
        Ok(clauses) => judge_proof(alloc, shelf, whole, clauses, proof),
        Err(GroundFault::NoMemory) => Err(Stop::NoMemory),
        Err(fault) => Ok(Answer::NoClauses(whole.study, fault)),
    }
}
