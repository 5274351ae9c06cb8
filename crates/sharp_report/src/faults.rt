//! Why a sharp text is not confirmed.

use lists::NoMemory;
use sharp_verdicts::SharpRefusal;

/// The first faulty line, from 1, with its refusal, or want of memory, which may come in place of any other
/// answer.
#[derive(Clone, Copy, Debug, PartialEq, Eq)]
pub enum SharpFault {
    Line { line: u32, refusal: SharpRefusal },
    NoMemory,
}

impl From<NoMemory> for SharpFault {
    ghost use Rattle.std.specs.Prelude.{◌≡◌};
    ghost use Rattle.sharp_report.specs.declared.faults.SharpFault.TheVariants.{NoMemory as WantOfMemory};

    ghost from_gives = { λ _ fault. fault ≡ WantOfMemory };

    fn from(_: NoMemory) -> Self {
        SharpFault::NoMemory
    }
}
