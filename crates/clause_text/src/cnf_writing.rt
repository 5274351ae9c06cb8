//! Writes clauses in the form of DIMACS.

ghost use Rattle.std.specs.Prelude.{◌≡◌, ◌++◌, ◌∷◌, [], OnOk, OnErr};
ghost use Rattle.std.specs.Io.KnownBytes.{Appends};
ghost use Rattle.std.specs.List.{flat_map};
ghost use Rattle.edge.specs.Faults.{HasCause};
ghost use Rattle.edge.specs.Told.{AppendsPrefix, TellsAsBefore};
ghost use Rattle.texts.specs.Page.{Pours};
ghost use Rattle.clause_text.specs.Dimacs.{clause_text, dimacs_text};

use crate::literals::{Literals, Numeral};
use cnf::{Clauses, Lit};
use edge::{Failed, Sink};
use texts::{Page, Raw, Text, Two, put_text};

/// Adds the line of a clause.
fn pour_line<O: Sink>(clause: &[Lit], page: &mut Page, out: &mut O) -> Result<(), Failed>
    ensures { Pours (O.taken out.old) (O.taken out.new) page.old page.new
        (O.faults out.old) (O.faults out.new) result (clause_text clause.now ++ 10 ∷ []) }
{
    Two(Literals(clause), Raw(b"0\n")).pour(page, out)
}

/// The line of a clause.
#[derive(Drop)]
struct ClauseLine<'a>(&'a [Lit]);

impl Text for ClauseLine<'_> {
    ghost can = { λ _. Unit {0} };

    ghost text = { λ line. clause_text line.0.now ++ 10 ∷ [] };

    fn pour<O: Sink>(&self, page: &mut Page, out: &mut O) -> Result<(), Failed> {
        pour_line(self.0, page, out)
    }
}

/// A line for each clause.
#[derive(Drop)]
struct ClauseLines<'a>(&'a Clauses);

impl Text for ClauseLines<'_> {
    ghost can = { λ _. Unit {0} };

    ghost text = { λ lines. flat_map (λ clause. clause_text clause ++ 10 ∷ []) lines.0.now.clauses };

    fn pour<O: Sink>(&self, page: &mut Page, out: &mut O) -> Result<(), Failed> {
        for place in 0..self.0.len() {
            ClauseLine(self.0.get(place)).pour(page, out)?;
        }
        Ok(())
    }
}

/// A text that is lent.
#[derive(Drop)]
struct Lent<'a, H>(&'a H);

impl<H: Text> Text for Lent<'_, H> {
    ghost can = { λ lent. H.can lent.0.now };

    ghost text = { λ lent. H.text lent.0.now };

    fn pour<O: Sink>(&self, page: &mut Page, out: &mut O) -> Result<(), Failed> {
        self.0.pour(page, out)
    }
}

/// Clauses over so many variables in the form of DIMACS: two comments, of which `head` is what the second
/// says, the header `p cnf VARIABLES CLAUSES`, and a line for each clause.
#[derive(Drop)]
pub struct DimacsText<'a, H> {
    pub head: H,
    pub clauses: &'a Clauses,
    pub variables: u32,
}

/// Adds the text of some clauses.
fn pour_dimacs<H: Text, O: Sink>(
    head: &H,
    clauses: &Clauses,
    variables: u32,
    page: &mut Page,
    out: &mut O,
) -> Result<(), Failed>
    requires { H.can head.now }
    ensures { Pours (O.taken out.old) (O.taken out.new) page.old page.new
        (O.faults out.old) (O.faults out.new) result
        (dimacs_text (H.text head.now) variables clauses.now.clauses) }
{
    let head = Two(Raw(b"c bench export 1\nc "), Lent(head));
    let head = Two(head, Raw(b"\np cnf "));
    let size = Two(Two(head, Numeral(u64::from(variables))), Raw(b" "));
    let header = Two(Two(size, Numeral(u64::from(clauses.len()))), Raw(b"\n"));
    Two(header, ClauseLines(clauses)).pour(page, out)
}

impl<H: Text> Text for DimacsText<'_, H> {
    ghost can = { λ text. H.can text.head };

    ghost text = { λ text. dimacs_text (H.text text.head) text.variables text.clauses.now.clauses };

    fn pour<O: Sink>(&self, page: &mut Page, out: &mut O) -> Result<(), Failed> {
        pour_dimacs(&self.head, self.clauses, self.variables, page, out)
    }
}

/// Writes the text of some clauses over so many variables; `head` is what the second comment says. Where the
/// sink fails, a prefix of the text was written. No memory is taken.
pub fn write_dimacs<O: Sink>(
    head: &[u8],
    clauses: &Clauses,
    variables: u32,
    out: &mut O,
) -> Result<(), Failed>
    ensures ok { OnOk result (Appends (O.taken out.old) (O.taken out.new)
        (dimacs_text head.now variables clauses.now.clauses)) }
    ensures err { OnErr result (AppendsPrefix (O.taken out.old) (O.taken out.new)
        (dimacs_text head.now variables clauses.now.clauses)) }
    ensures tells { TellsAsBefore (O.taken out.old) (O.taken out.new) }
    ensures cause { HasCause (O.faults out.old) (O.faults out.new) result }
{
    let text = DimacsText {
        head: Raw(head),
        clauses,
        variables,
    };
    put_text(&text, out)
}
