//! Answers, a variant for each row of the table, and why there may be none.

ghost use Rattle.std.specs.Prelude.{◌≡◌, None, Some, IsTrue};
ghost use Rattle.verdicts.specs.Report.{has_text, report_text};
ghost use Rattle.texts.specs.Page.{Pours};
ghost use Rattle.sharp_verdicts.specs.Right.{pointed};
ghost use Rattle.sharp_verdicts.specs.SharpLines.{sharp_text};
ghost use Rattle.sharp_text.specs.Conditions.{has_sharp_text};
ghost use Rattle.command_parts.specs.Answers.{HasText, judged_worth_status, report_status, run_of, sharp_status, text_of, worth_status};

use answer_text::{
    ClaimLine, CnfLine, GainLine, GainWords, GroundLine, JudgedLine, LibraryLines, LratLine,
    ProofLine, StudyLine, SummaryLine, TotalLine,
};
use answers::Run;
use clause_form::{Ground, GroundFault};
use clause_text::{CnfFault, DimacsText, LratFault, LratText, SizeText};
use cnf::{Derivation, LineFault};
use edge::{Failed, Sink};
use kinds::over_kind;
use lists::NoMemory;
use meaning::Counts;
use report_files::{FileFault, JudgedWorth, SharpWorth, Worth};
use report_text::pour_verdict;
use search_logs::Logs;
use sharp_text::pour_sharp;
use sharp_verdicts::Sharp;
use std::alloc::Global;
use study::StudyFault;
use texts::{Page, Text};
use verdicts::Verdict;
use vocab::{Kind, Size, Study};

/// What is said to words that are no command.
const USAGE: &[u8] =
    b"usage: bench decide STUDY | check STUDY REPORT | export STUDY | proof STUDY | lrat CNF PROOF | axioms KIND | sample N | adopt STUDY PROOF | gain STUDY REPORT | sharpen STUDY [--workers K]\n";

/// What is answered: a row of the table, with what its text names.
#[derive(Drop)]
pub enum Answer {
    /// The words are no command.
    Usage,
    /// The file of the study is longer than a study may be.
    LongStudy,
    /// The file holds no study.
    NoStudy(StudyFault),
    /// The clauses of the study are refused.
    NoClauses(Study, GroundFault),
    /// The verdict of a search on the study, with the searches that spent their limit.
    Report(Study, Verdict, Logs),
    /// The instances of the axioms of the study have together too many clauses or literals, with the frames.
    OverTotal(Counts),
    /// What an impossibility was sharpened to, with the searches of the decision that spent their limit.
    Sharp(Study, Sharp, Logs),
    /// The report, or the sharp text, was judged.
    Judged(JudgedWorth),
    /// The study is not one of set-valued rules.
    OtherKind,
    /// The confirmed report has no rule.
    NoRule,
    /// No voter gains in the rule of the confirmed report.
    NoGain,
    /// A voter gains in it.
    Gain(GainWords),
    /// The clauses of all axioms of a study of this size, over so many variables.
    Clauses {
        size: Size,
        variables: u32,
        clauses: Ground,
    },
    /// A refutation of the clauses of a study.
    Refutation(Derivation),
    /// The verdict of a search over the clauses of a study that refuted nothing, with the searches that spent
    /// their limit.
    Claim(Verdict, Logs),
    /// The file of the clauses is longer than such a file may be.
    LongCnf,
    /// The file holds no clauses.
    NoCnf(CnfFault),
    /// The file of the proof is longer than such a file may be.
    LongProof,
    /// The file holds no derivation.
    NoProof(LratFault),
    /// The derivation is refused at a line, by its number from 1.
    BadProof {
        line: u32,
        fault: LineFault,
    },
    /// The derivation is accepted.
    GoodProof,
    /// The library of a kind was asked for.
    Library(Kind),
    /// The verdict of a search on the study of a number, which has so many clauses, with the searches that
    /// spent their limit.
    Summary {
        number: u32,
        study: Study,
        clauses: u32,
        verdict: Verdict,
        logs: Logs,
    },
}

/// The status of the report of a verdict: 4 where the search spent its limit.
fn report_status(verdict: &Verdict) -> u8
    ensures { result ≡ report_status verdict.now }
{
    match verdict {
        Verdict::Undecided => 4,
        _ => 0,
    }
}

/// The status of what a report is worth: 0 where it is confirmed, and 1 where it is refused.
fn worth_status(worth: &Worth) -> u8
    ensures { result ≡ worth_status worth.now }
{
    match worth {
        Worth::Confirmed(_) => 0,
        Worth::Faulty {
            line: _,
            refusal: _,
        } => 1,
        Worth::TooLong => 1,
    }
}

/// The status of what a sharp text is worth: 0 where it is confirmed, and 1 where it is refused.
fn sharp_status(worth: &SharpWorth) -> u8
    ensures { result ≡ sharp_status worth.now }
{
    match worth {
        SharpWorth::Confirmed => 0,
        SharpWorth::Faulty {
            line: _,
            refusal: _,
        } => 1,
        SharpWorth::TooLong => 1,
    }
}

/// The status of what a text is worth that was judged.
fn judged_worth_status(worth: &JudgedWorth) -> u8
    ensures { result ≡ judged_worth_status worth.now }
{
    match worth {
        JudgedWorth::Report(report) => worth_status(report),
        JudgedWorth::Sharp(sharp) => sharp_status(sharp),
    }
}

/// The run of a verdict.
fn found_run(verdict: Verdict, logs: Logs) -> Run
    ensures { result ≡
        record { status = report_status verdict; verdict = Some verdict; logs = logs; sharp = None } }
{
    Run {
        status: report_status(&verdict),
        verdict: Some(verdict),
        logs,
        sharp: None,
    }
}

impl Answer {
    /// The run, where the text was written: its status is below 5.
    pub fn into_run(self, alloc: Global) -> Run
        ensures { result ≡ run_of self }
    {
        match self {
            Answer::Usage => Run::bare(alloc, 2),
            Answer::LongStudy => Run::bare(alloc, 3),
            Answer::NoStudy(_) => Run::bare(alloc, 3),
            Answer::NoClauses(_, _) => Run::bare(alloc, 3),
            Answer::Report(_, verdict, logs) => found_run(verdict, logs),
            Answer::OverTotal(_) => Run::bare(alloc, 3),
            Answer::Sharp(_, sharp, logs) => Run {
                status: 0,
                verdict: None,
                logs,
                sharp: Some(sharp),
            },
            Answer::Judged(worth) => Run::bare(alloc, judged_worth_status(&worth)),
            Answer::OtherKind => Run::bare(alloc, 3),
            Answer::NoRule => Run::bare(alloc, 0),
            Answer::NoGain => Run::bare(alloc, 0),
            Answer::Gain(_) => Run::bare(alloc, 0),
            Answer::Clauses {
                size: _,
                variables: _,
                clauses: _,
            } => Run::bare(alloc, 0),
            Answer::Refutation(_) => Run::bare(alloc, 0),
            Answer::Claim(verdict, logs) => found_run(verdict, logs),
            Answer::LongCnf => Run::bare(alloc, 3),
            Answer::NoCnf(_) => Run::bare(alloc, 3),
            Answer::LongProof => Run::bare(alloc, 1),
            Answer::NoProof(_) => Run::bare(alloc, 1),
            Answer::BadProof { line: _, fault: _ } => Run::bare(alloc, 1),
            Answer::GoodProof => Run::bare(alloc, 0),
            Answer::Library(_) => Run::bare(alloc, 0),
            Answer::Summary {
                number: _,
                study: _,
                clauses: _,
                verdict,
                logs,
            } => found_run(verdict, logs),
        }
    }
}

/// Adds the report of a verdict on a study.
fn pour_report<O: Sink>(
    study: &Study,
    verdict: &Verdict,
    page: &mut Page,
    out: &mut O,
) -> Result<(), Failed>
    requires has_text { IsTrue (has_text study.now verdict.now) }
    ensures { Pours (O.taken out.old) (O.taken out.new) page.old page.new
        (O.faults out.old) (O.faults out.new) result (report_text study.now verdict.now) }
{
    over_kind!(
        study.size(),
        kind,
        pour_verdict(&kind, study, verdict, page, out)
    )
}

/// Adds the text of what an impossibility of a study was sharpened to.
fn pour_sharpened<O: Sink>(
    study: &Study,
    sharp: &Sharp,
    page: &mut Page,
    out: &mut O,
) -> Result<(), Failed>
    requires has_text { IsTrue (has_sharp_text study.now (pointed sharp.now)) }
    ensures { Pours (O.taken out.old) (O.taken out.new) page.old page.new
        (O.faults out.old) (O.faults out.new) result (sharp_text study.now (pointed sharp.now)) }
{
    over_kind!(
        study.size(),
        kind,
        pour_sharp(&kind, study, sharp, page, out)
    )
}

impl Text for Answer {
    ghost can = { λ answer. HasText answer };

    ghost text = { λ answer. text_of answer };

    fn pour<O: Sink>(&self, page: &mut Page, out: &mut O) -> Result<(), Failed> {
        match self {
            Answer::Usage => page.put(out, USAGE),
            Answer::LongStudy => page.put(out, b"study: too long\n"),
            Answer::NoStudy(fault) => StudyLine(fault).pour(page, out),
            Answer::NoClauses(study, fault) => GroundLine {
                study,
                fault: *fault,
            }
            .pour(page, out),
            Answer::Report(study, verdict, _) => pour_report(study, verdict, page, out),
            Answer::OverTotal(counts) => TotalLine(*counts).pour(page, out),
            Answer::Sharp(study, sharp, _) => pour_sharpened(study, sharp, page, out),
            Answer::Judged(worth) => JudgedLine(worth).pour(page, out),
            Answer::OtherKind => page.put(out, b"study: kind not sets\n"),
            Answer::NoRule => page.put(out, b"no rule\n"),
            Answer::NoGain => page.put(out, b"none\n"),
            Answer::Gain(words) => GainLine(words).pour(page, out),
            Answer::Clauses {
                size,
                variables,
                clauses,
            } => DimacsText {
                head: SizeText(*size),
                clauses: clauses.clauses(),
                variables: *variables,
            }
            .pour(page, out),
            Answer::Refutation(lines) => LratText(lines).pour(page, out),
            Answer::Claim(verdict, _) => ClaimLine(verdict).pour(page, out),
            Answer::LongCnf => page.put(out, b"cnf: too long\n"),
            Answer::NoCnf(fault) => CnfLine(fault).pour(page, out),
            Answer::LongProof => page.put(out, b"proof: too long\n"),
            Answer::NoProof(fault) => LratLine(fault).pour(page, out),
            Answer::BadProof { line, fault } => ProofLine {
                line: *line,
                fault: *fault,
            }
            .pour(page, out),
            Answer::GoodProof => page.put(out, b"confirmed\n"),
            Answer::Library(kind) => LibraryLines(*kind).pour(page, out),
            Answer::Summary {
                number,
                study,
                clauses,
                verdict,
                logs: _,
            } => SummaryLine {
                number: *number,
                study,
                clauses: *clauses,
                verdict,
            }
            .pour(page, out),
        }
    }
}

/// Why there is no answer: a file could not be read, or no memory was found.
#[derive(Clone, Copy, Debug, PartialEq, Eq)]
pub enum Stop {
    /// The shelf failed, and has counted the fault under the name that was read.
    ReadFault,
    /// No memory was found.
    NoMemory,
}

impl From<NoMemory> for Stop {
    ghost use Rattle.std.specs.Prelude.{◌≡◌};
    ghost use Rattle.command_parts.specs.declared.answer.Stop.TheVariants.{NoMemory as OutOfMemory};

    ghost from_gives = { λ _ stop. stop ≡ OutOfMemory };

    fn from(_: NoMemory) -> Self {
        Stop::NoMemory
    }
}

impl From<FileFault> for Stop {
    ghost use Rattle.std.specs.Prelude.{◌≡◌};
    ghost use Rattle.command_parts.specs.Answers.{stop_of};

    ghost from_gives = { λ fault stop. stop ≡ stop_of fault };

    fn from(fault: FileFault) -> Self {
        match fault {
            FileFault::Failed => Stop::ReadFault,
            FileFault::NoMemory => Stop::NoMemory,
        }
    }
}
