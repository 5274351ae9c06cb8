//! The library of axioms, as `axioms KIND` writes it.

ghost use Rattle.std.specs.Prelude.{◌≡◌, ◌<◌, length, IsSomeAnd, slice_get};
ghost use Rattle.axiom_library.specs.Library.{library};
ghost use Rattle.texts.specs.Page.{Pours};
ghost use Rattle.answers.specs.Axioms.{entry_line, library_text};

use axiom_library::{count, name_at, text_at};
use edge::{Failed, Sink};
use texts::{Page, Raw, Text, Two};
use vocab::Kind;

/// Adds the line of the axiom at a place.
fn pour_entry<O: Sink>(kind: Kind, place: u32, page: &mut Page, out: &mut O) -> Result<(), Failed>
    requires { place < length (library kind) }
    ensures { IsSomeAnd (slice_get (library kind) place) (λ e.
        Pours (O.taken out.old) (O.taken out.new) page.old page.new
        (O.faults out.old) (O.faults out.new) result (entry_line e)) }
{
    let name = name_at(kind, place).unwrap();
    let text = text_at(kind, place).unwrap();
    let rest = Two(Raw(b": "), Two(Raw(text), Raw(b"\n")));
    Two(Raw(name.bytes()), rest).pour(page, out)
}

/// A line for each axiom that the library has for a kind: its name, a colon, a blank and its text.
#[derive(Drop)]
pub struct LibraryLines(pub Kind);

impl Text for LibraryLines {
    ghost can = { λ _. Unit {0} };

    ghost text = { λ lines. library_text lines.0 };

    fn pour<O: Sink>(&self, page: &mut Page, out: &mut O) -> Result<(), Failed> {
        for place in 0..count(self.0) {
            pour_entry(self.0, place, page, out)?;
        }
        Ok(())
    }
}
