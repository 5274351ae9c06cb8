//! Why a report is not confirmed.

use lists::NoMemory;
use verdicts::Refusal;

/// The first faulty line, from 1, with its refusal, or want of memory, which may come in place of any other
/// answer.
#[derive(Clone, Copy, Debug, PartialEq, Eq)]
pub enum ReportFault {
    Line { line: u32, refusal: Refusal },
    NoMemory,
}

impl From<NoMemory> for ReportFault {
    ghost use Rattle.std.specs.Prelude.{◌≡◌};
    ghost use Rattle.report.specs.declared.faults.ReportFault.TheVariants.{NoMemory as WantOfMemory};

    ghost from_gives = { λ _ fault. fault ≡ WantOfMemory };

    fn from(_: NoMemory) -> Self {
        ReportFault::NoMemory
    }
}
