//! The texts of numbers, literals and clauses.

ghost use Rattle.std.specs.Prelude.{◌++◌, ◌∷◌, [], if◌then◌else◌};
ghost use Rattle.std.specs.List.{flat_map};
ghost use Rattle.texts.specs.Page.{Pours};
ghost use Rattle.verdicts.specs.Numbers.{number_text};
ghost use Rattle.clause_text.specs.Dimacs.{signed_text, clause_text};

use cnf::Lit;
use edge::{Failed, Sink};
use itoa::write_digits;
use texts::{Number, Page, Raw, Text, Two};

/// How many places a number takes at most: 20 digits, and a minus before them.
const PLACES: usize = 21;

/// A number in decimal, as `number_text` has it.
#[derive(Drop)]
pub(crate) struct Numeral(pub(crate) u64);

/// Adds a number in decimal.
fn pour_number<O: Sink>(number: u64, page: &mut Page, out: &mut O) -> Result<(), Failed>
    ensures { Pours (O.taken out.old) (O.taken out.new) page.old page.new
        (O.faults out.old) (O.faults out.new) result (number_text number) }
{
    Number(number).pour(page, out)
}

impl Text for Numeral {
    ghost can = { λ _. Unit {0} };

    ghost text = { λ numeral. number_text numeral.0 };

    fn pour<O: Sink>(&self, page: &mut Page, out: &mut O) -> Result<(), Failed> {
        pour_number(self.0, page, out)
    }
}

/// Adds a number in decimal, after a minus where it is negated, and a blank after it, in one piece.
fn pour_spaced<O: Sink>(
    is_plain: bool,
    number: u64,
    page: &mut Page,
    out: &mut O,
) -> Result<(), Failed>
    ensures { Pours (O.taken out.old) (O.taken out.new) page.old page.new
        (O.faults out.old) (O.faults out.new) result
        ((if is_plain then number_text number else 45 ∷ number_text number) ++ 32 ∷ []) }
{
    let mut bytes = [b' '; PLACES + 1];
    let start = write_digits(number, &mut bytes, PLACES);
    if is_plain {
        return page.put(out, &bytes[start..]);
    }
    bytes[start - 1] = b'-';
    page.put(out, &bytes[start - 1..])
}

/// A number in decimal, with a blank after it.
#[derive(Drop)]
pub(crate) struct SpacedNumber(pub(crate) u64);

impl Text for SpacedNumber {
    ghost can = { λ _. Unit {0} };

    ghost text = { λ spaced. number_text spaced.0 ++ 32 ∷ [] };

    fn pour<O: Sink>(&self, page: &mut Page, out: &mut O) -> Result<(), Failed> {
        pour_spaced(true, self.0, page, out)
    }
}

/// A literal, with a blank after it: the number of its variable, after a minus where it is negated.
#[derive(Drop)]
struct SpacedLiteral(Lit);

impl Text for SpacedLiteral {
    ghost can = { λ _. Unit {0} };

    ghost text = { λ spaced. signed_text spaced.0 ++ 32 ∷ [] };

    fn pour<O: Sink>(&self, page: &mut Page, out: &mut O) -> Result<(), Failed> {
        pour_spaced(self.0.positive(), u64::from(self.0.variable()), page, out)
    }
}

/// The literals of a clause, each with a blank after it.
#[derive(Drop)]
pub(crate) struct Literals<'a>(pub(crate) &'a [Lit]);

impl Text for Literals<'_> {
    ghost can = { λ _. Unit {0} };

    ghost text = { λ literals. flat_map (λ l. signed_text l ++ 32 ∷ []) literals.0.now };

    fn pour<O: Sink>(&self, page: &mut Page, out: &mut O) -> Result<(), Failed> {
        for lit in self.0 {
            SpacedLiteral(*lit).pour(page, out)?;
        }
        Ok(())
    }
}

/// A clause: its literals, each with a blank after it, and 0.
#[derive(Drop)]
pub(crate) struct ClauseText<'a>(pub(crate) &'a [Lit]);

impl Text for ClauseText<'_> {
    ghost can = { λ _. Unit {0} };

    ghost text = { λ clause. clause_text clause.0.now };

    fn pour<O: Sink>(&self, page: &mut Page, out: &mut O) -> Result<(), Failed> {
        Two(Literals(self.0), Raw(b"0")).pour(page, out)
    }
}
