//! What a report or a sharp text is worth.

ghost use Rattle.std.specs.Prelude.{◌≡◌, Ok, Err, IfOk, OnErr};
ghost use Rattle.verdicts.specs.declared.refusals.Refusal.{Refusal};
ghost use Rattle.verdicts.specs.declared.verdicts.Verdict.{Verdict};
ghost use Rattle.verdicts.specs.FirstFault.{Judgement};
ghost use Rattle.report.specs.Answers.{Concludes};
ghost use Rattle.sharp_verdicts.specs.declared.refusals.SharpRefusal.{SharpRefusal};
ghost use Rattle.sharp_verdicts.specs.Right.{Pointed};
ghost use Rattle.sharp_report.specs.SharpAnswers.{SharpConcludes};
ghost use Rattle.report_files.specs.Files.{IsWorth, IsSharpWorth};

use lists::NoMemory;
use report::ReportFault;
use sharp_report::SharpFault;
use sharp_verdicts::SharpRefusal;
use verdicts::{Confirmed, Refusal};

/// What a report is worth: it is confirmed; a line, from 1, is its first faulty one; or it has more than
/// 268,435,456 bytes, and no line that ends within them is faulty.
#[derive(Clone, Copy, Debug, PartialEq, Eq)]
pub enum Worth {
    Confirmed(Confirmed),
    Faulty { line: u32, refusal: Refusal },
    TooLong,
}

impl Worth {
    /// What a report is worth of which this is answered, unless memory was wanting.
    pub(crate) fn of(answer: Result<Confirmed, ReportFault>) -> Result<Worth, NoMemory>
        ensures worth { IfOk result (λ worth.
            (a : Judgement Verdict Refusal) → Concludes a answer → IsWorth a worth) }
        ensures claimed { (claim : Confirmed) → result ≡ Ok (Worth.Confirmed claim) → answer ≡ Ok claim }
        ensures wanting { OnErr result (answer ≡ Err ReportFault.NoMemory) }
    {
        match answer {
            Ok(claim) => Ok(Worth::Confirmed(claim)),
            Err(ReportFault::Line { line, refusal }) => Ok(Worth::Faulty { line, refusal }),
            Err(ReportFault::NoMemory) => Err(NoMemory),
        }
    }
}

/// What a sharp text is worth: it is confirmed; a line, from 1, is its first faulty one; or it has more than
/// 268,435,456 bytes, and no line that ends within them is faulty.
#[derive(Clone, Copy, Debug, PartialEq, Eq)]
pub enum SharpWorth {
    Confirmed,
    Faulty { line: u32, refusal: SharpRefusal },
    TooLong,
}

impl SharpWorth {
    /// What a sharp text is worth of which this is answered, unless memory was wanting.
    pub(crate) fn of(answer: Result<(), SharpFault>) -> Result<SharpWorth, NoMemory>
        ensures worth { IfOk result (λ worth.
            (a : Judgement Pointed SharpRefusal) → SharpConcludes a answer → IsSharpWorth a worth) }
        ensures confirmed { result ≡ Ok SharpWorth.Confirmed → answer ≡ Ok tt }
        ensures wanting { OnErr result (answer ≡ Err SharpFault.NoMemory) }
    {
        match answer {
            Ok(()) => Ok(SharpWorth::Confirmed),
            Err(SharpFault::Line { line, refusal }) => Ok(SharpWorth::Faulty { line, refusal }),
            Err(SharpFault::NoMemory) => Err(NoMemory),
        }
    }
}

/// What a text is worth that may be a report or a sharp text, as its first line says.
#[derive(Clone, Copy, Debug, PartialEq, Eq)]
pub enum JudgedWorth {
    Report(Worth),
    Sharp(SharpWorth),
}
