//! Why a text is no sentence.

ghost use Rattle.std.specs.Prelude.{◌≡◌};

use crate::parser::Stop;
use lists::NoMemory;

/// Why a text is no sentence. Of several reasons the first in this order counts.
#[derive(Clone, Copy, Debug, PartialEq, Eq)]
pub enum SyntaxFault {
    /// The offset, from 0, of the first byte outside blanks at which no lexeme begins.
    Lexeme(u64),
    /// There are more than 600 lexemes: so many.
    Long(u64),
    /// The lexemes are no sentence.
    NoReading,
    /// The depth is above 64.
    Deep,
    /// More than 12 quantifiers stand on one path.
    Variables,
    /// No memory was found. It may come in place of any other answer.
    NoMemory,
}

impl From<NoMemory> for SyntaxFault {
    ghost use Rattle.syntax.specs.declared.faults.SyntaxFault.TheVariants.{NoMemory as no_memory};

    ghost from_gives = { λ _ fault. fault ≡ no_memory };

    fn from(_: NoMemory) -> Self {
        SyntaxFault::NoMemory
    }
}

impl From<Stop> for SyntaxFault {
    ghost use Rattle.syntax.specs.Stops.{stop_fault};

    ghost from_gives = { λ stop fault. fault ≡ stop_fault stop };

    fn from(stop: Stop) -> Self {
        match stop {
            Stop::NoReading => SyntaxFault::NoReading,
            Stop::NoMemory => SyntaxFault::NoMemory,
        }
    }
}
