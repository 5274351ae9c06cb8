//! The size of a study among words.

ghost use Rattle.std.specs.Prelude.{◌≡◌};
ghost use Rattle.meaning.specs.Texts.{kind_text};
ghost use Rattle.clause_text.specs.Dimacs.{size_text};

use crate::literals::Numeral;
use edge::{Failed, Sink};
use texts::{Page, Raw, Text, Two};
use vocab::{Kind, Size};

/// The word of a kind.
fn kind_word(kind: Kind) -> &'static [u8]
    ensures { result.now ≡ kind_text kind }
{
    match kind {
        Kind::Choice => b"choice",
        Kind::Ranking => b"ranking",
        Kind::Sets => b"sets",
    }
}

/// A size, as the second comment of exported clauses tells it: the kind, and the numbers of voters and
/// alternatives.
#[derive(Drop)]
pub struct SizeText(pub Size);

impl Text for SizeText {
    ghost can = { λ _. Unit {0} };

    ghost text = { λ size. size_text size.0 };

    fn pour<O: Sink>(&self, page: &mut Page, out: &mut O) -> Result<(), Failed> {
        let size = self.0;
        let kind = Two(Raw(b"kind "), Raw(kind_word(size.kind())));
        let voters = Numeral(u64::from(size.voters()));
        let alternatives = Numeral(u64::from(size.alternatives()));
        let front = Two(Two(kind, Raw(b" voters ")), voters);
        Two(Two(front, Raw(b" alternatives ")), alternatives).pour(page, out)
    }
}
