//! Numbers among words.

ghost use Rattle.std.specs.Prelude.{◌+◌, ◌++◌};
ghost use Rattle.texts.specs.Page.{Pours};
ghost use Rattle.verdicts.specs.Numbers.{number_text};
ghost use Rattle.report_text.specs.Pieces.{count_text};

use edge::{Failed, Sink};
use texts::{Number, Page, Raw, Text, Two};

/// Adds words, and the number of a place, the first being 1.
pub(crate) fn pour_place<O: Sink>(
    words: &[u8],
    place: u32,
    page: &mut Page,
    out: &mut O,
) -> Result<(), Failed>
    ensures { Pours (O.taken out.old) (O.taken out.new) page.old page.new
        (O.faults out.old) (O.faults out.new) result (words.now ++ number_text (place + 1)) }
{
    Two(Raw(words), Number(u64::from(place) + 1)).pour(page, out)
}

/// Adds a line of a key, which ends with a blank, and a number.
fn pour_count<O: Sink>(key: &[u8], count: u64, page: &mut Page, out: &mut O) -> Result<(), Failed>
    ensures { Pours (O.taken out.old) (O.taken out.new) page.old page.new
        (O.faults out.old) (O.faults out.new) result (count_text key.now count) }
{
    Two(Raw(key), Two(Number(count), Raw(b"\n"))).pour(page, out)
}

/// A line of a key, which ends with a blank, and a number.
#[derive(Drop)]
pub struct Count<'a> {
    pub key: &'a [u8],
    pub count: u64,
}

impl Text for Count<'_> {
    ghost can = { λ _. Unit {0} };

    ghost text = { λ line. count_text line.key.now line.count };

    fn pour<O: Sink>(&self, page: &mut Page, out: &mut O) -> Result<(), Failed> {
        pour_count(self.key, self.count, page, out)
    }
}
