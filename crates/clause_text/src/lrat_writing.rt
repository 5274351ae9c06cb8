//! Writes derivations in the form of LRAT.

ghost use Rattle.std.specs.Prelude.{◌≡◌, ◌++◌, ◌∷◌, [], OnOk, OnErr};
ghost use Rattle.std.specs.Io.KnownBytes.{Appends};
ghost use Rattle.std.specs.List.{flat_map};
ghost use Rattle.edge.specs.Faults.{HasCause};
ghost use Rattle.edge.specs.Told.{AppendsPrefix, TellsAsBefore};
ghost use Rattle.verdicts.specs.Numbers.{number_text};
ghost use Rattle.clause_text.specs.Lrat.{step_text, lrat_text};

use crate::literals::{ClauseText, Numeral, SpacedNumber};
use cnf::{Derivation, Line, Step};
use edge::{Failed, Sink};
use texts::{Page, Raw, Text, Two, put_text};

/// Hints, each with a blank after it.
#[derive(Drop)]
struct Hints<'a>(&'a [u64]);

impl Text for Hints<'_> {
    ghost can = { λ _. Unit {0} };

    ghost text = { λ hints. flat_map (λ id. number_text id ++ 32 ∷ []) hints.0.now };

    fn pour<O: Sink>(&self, page: &mut Page, out: &mut O) -> Result<(), Failed> {
        for id in self.0 {
            SpacedNumber(*id).pour(page, out)?;
        }
        Ok(())
    }
}

/// A step: the line of an added clause, and nothing of what is taken away.
#[derive(Drop)]
struct StepLine<'a>(&'a Step);

impl Text for StepLine<'_> {
    ghost can = { λ _. Unit {0} };

    ghost text = { λ step. step_text step.0.now };

    fn pour<O: Sink>(&self, page: &mut Page, out: &mut O) -> Result<(), Failed> {
        match self.0 {
            Step::Add { id, clause, hints } => {
                let clause = Two(Raw(b" "), ClauseText(clause.as_slice()));
                let hints = Two(Raw(b" "), Two(Hints(hints.as_slice()), Raw(b"0")));
                Two(Two(Two(Numeral(*id), clause), hints), Raw(b"\n")).pour(page, out)
            }
            Step::Drop { .. } => Raw(b"").pour(page, out),
        }
    }
}

/// The lines of steps.
#[derive(Drop)]
struct Steps<'a>(&'a [Line]);

impl Text for Steps<'_> {
    ghost can = { λ _. Unit {0} };

    ghost text = { λ lines. flat_map (λ line. step_text line.step) lines.0.now };

    fn pour<O: Sink>(&self, page: &mut Page, out: &mut O) -> Result<(), Failed> {
        for line in self.0 {
            StepLine(&line.step).pour(page, out)?;
        }
        Ok(())
    }
}

/// A derivation in the form of LRAT: a line for each added clause, with its id, its literals, 0, its hints
/// and 0.
#[derive(Drop)]
pub struct LratText<'a>(pub &'a Derivation);

impl Text for LratText<'_> {
    ghost can = { λ _. Unit {0} };

    ghost text = { λ text. lrat_text text.0.now };

    fn pour<O: Sink>(&self, page: &mut Page, out: &mut O) -> Result<(), Failed> {
        Steps(self.0.as_slice()).pour(page, out)
    }
}

/// Writes the text of a derivation. Where the sink fails, a prefix of the text was written. No memory is
/// taken.
pub fn write_lrat<O: Sink>(derivation: &Derivation, out: &mut O) -> Result<(), Failed>
    ensures ok { OnOk result (Appends (O.taken out.old) (O.taken out.new) (lrat_text derivation.now)) }
    ensures err { OnErr result
        (AppendsPrefix (O.taken out.old) (O.taken out.new) (lrat_text derivation.now)) }
    ensures tells { TellsAsBefore (O.taken out.old) (O.taken out.new) }
    ensures cause { HasCause (O.faults out.old) (O.faults out.new) result }
{
    put_text(&LratText(derivation), out)
}
