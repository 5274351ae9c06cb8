//! Why bytes are no study.

ghost use Rattle.std.specs.Prelude.{◌≡◌};
ghost use Rattle.study.specs.declared.faults.StudyFault.TheVariants.{NoMemory as OutOfMemory};

use lists::{Items, NoMemory};
use sorts::SortFault;
use syntax::SyntaxFault;
use thiserror::Error;
use vocab::{Name, SizeFault};

/// The bytes of a string.
pub type Text = Items<u8>;

/// Why bytes are no study. Of several reasons the first in this order counts, but that a fault of the ballots
/// as a whole or of the profiles comes after `Ballot`. Each goes over all axioms, in the order in which the
/// study lists them, before the next.
#[derive(Debug, Drop, Error)]
pub enum StudyFault {
    /// The bytes are no TOML document, or no UTF-8.
    #[error("the bytes are no TOML document")]
    Toml,
    /// This key is missing, or has not its form, or is no key of a study.
    #[error("a key is missing, or has not its form, or is no key of a study")]
    Key(Text),
    /// The numbers of voters and alternatives are no size, or are none with these ballots.
    #[error("the numbers of voters and alternatives are no size, or are none with these ballots")]
    Size(SizeFault),
    /// This entry of `ballots` is no ranking of the alternatives, or stands earlier in the list.
    #[error("a ballot is no ranking of the alternatives, or is listed twice")]
    Ballot(Text),
    /// The most clauses that a search may learn are not from 1 to 1,000,000.
    #[error("the limit on learned clauses is out of its range")]
    Conflicts(i64),
    /// There are more than 40 axioms: so many.
    #[error("there are more axioms than a study takes")]
    Many(u64),
    /// This axiom is neither in the library for the kind nor among the study's own sentences.
    #[error("an axiom is neither in the library nor among the study's own sentences")]
    Unknown(Text),
    /// This axiom stands earlier in the list, or is both in the library for the kind and among the study's
    /// own sentences.
    #[error("a name stands for two axioms, or an axiom is listed twice")]
    Twice(Name),
    /// The axiom's text is no sentence.
    #[error("an axiom's text is no sentence")]
    Syntax(Name, SyntaxFault),
    /// The axiom's sentence is none of the size.
    #[error("an axiom's sentence is none of the size")]
    Sort(Name, SortFault),
    /// The axiom's sentence exchanges alternatives in a profile, and not every ranking may be cast.
    #[error("an axiom exchanges alternatives, and not every ranking may be cast")]
    Open(Name),
    /// The axiom has more than 40,000,000 instances: so many, or 2^64 - 1 where there are more.
    #[error("an axiom has more instances than a study takes")]
    Instances(Name, u64),
    /// The body of the axiom has more than 1,000,000 atoms: so many, or 2^64 - 1 where there are more.
    #[error("the body of an axiom has more atoms than a study takes")]
    Body(Name, u64),
    /// The whole axiom has more than 200,000,000 atoms: so many, or 2^64 - 1 where there are more.
    #[error("a whole axiom has more atoms than a study takes")]
    Work(Name, u64),
    /// No memory was found. It may come in place of any other answer.
    #[error("no memory was found")]
    NoMemory,
}

impl From<NoMemory> for StudyFault {
    ghost from_gives = { λ _ fault. fault ≡ OutOfMemory };

    fn from(_: NoMemory) -> Self {
        StudyFault::NoMemory
    }
}
