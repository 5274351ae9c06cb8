//! The lines of clauses and of proofs that are refused.

ghost use Rattle.std.specs.Prelude.{◌++◌};
ghost use Rattle.texts.specs.Page.{Pours};
ghost use Rattle.answers.specs.Lrat.{cnf_fault_text, cnf_line, line_fault_text, proof_line, reading_text};

use clause_text::{CnfFault, LratFault};
use cnf::LineFault;
use edge::{Failed, Sink};
use texts::{Number, Page, Raw, Text, Two};

/// Why a text gives no clauses. Want of memory has no words.
#[derive(Drop)]
struct CnfWords<'a>(&'a CnfFault);

impl Text for CnfWords<'_> {
    ghost can = { λ _. Unit {0} };

    ghost text = { λ words. cnf_fault_text words.0.now };

    fn pour<O: Sink>(&self, page: &mut Page, out: &mut O) -> Result<(), Failed> {
        match self.0 {
            CnfFault::Header => page.put(out, b"header"),
            CnfFault::Literal(line) => {
                Two(Raw(b"literal "), Number(u64::from(*line))).pour(page, out)
            }
            CnfFault::Count(found) => {
                Two(Raw(b"count "), Number(u64::from(*found))).pour(page, out)
            }
            CnfFault::Full => page.put(out, b"full"),
            CnfFault::NoMemory => page.put(out, b""),
        }
    }
}

/// The line of a text of clauses that is refused. Want of memory, which is never told, has no words.
#[derive(Drop)]
pub struct CnfLine<'a>(pub &'a CnfFault);

impl Text for CnfLine<'_> {
    ghost can = { λ _. Unit {0} };

    ghost text = { λ line. cnf_line line.0.now };

    fn pour<O: Sink>(&self, page: &mut Page, out: &mut O) -> Result<(), Failed> {
        Two(Raw(b"cnf: "), Two(CnfWords(self.0), Raw(b"\n"))).pour(page, out)
    }
}

/// Adds what is said of a line of a proof, by its number from 1.
fn pour_of_line<W: Text + Drop, O: Sink>(
    line: u32,
    words: W,
    page: &mut Page,
    out: &mut O,
) -> Result<(), Failed>
    requires { W.can words }
    ensures { Pours (O.taken out.old) (O.taken out.new) page.old page.new
        (O.faults out.old) (O.faults out.new) result (proof_line line (W.text words)) }
{
    let words = Two(Raw(b": "), Two(words, Raw(b"\n")));
    Two(Raw(b"proof line "), Two(Number(u64::from(line)), words)).pour(page, out)
}

/// Why a line of a derivation is refused.
#[derive(Drop)]
struct LineWords(LineFault);

impl Text for LineWords {
    ghost can = { λ _. Unit {0} };

    ghost text = { λ words. line_fault_text words.0 };

    fn pour<O: Sink>(&self, page: &mut Page, out: &mut O) -> Result<(), Failed> {
        match self.0 {
            LineFault::Id => page.put(out, b"id"),
            LineFault::Hint(id) => Two(Raw(b"hint "), Number(id)).pour(page, out),
            LineFault::NotUnit(id) => Two(Raw(b"not_unit "), Number(id)).pour(page, out),
            LineFault::NoConflict => page.put(out, b"no_conflict"),
            LineFault::NotEmpty => page.put(out, b"not_empty"),
        }
    }
}

/// What is said of a proof whose first faulty line has this number, from 1.
#[derive(Drop)]
pub struct ProofLine {
    pub line: u32,
    pub fault: LineFault,
}

impl Text for ProofLine {
    ghost can = { λ _. Unit {0} };

    ghost text = { λ said. proof_line said.line (line_fault_text said.fault) };

    fn pour<O: Sink>(&self, page: &mut Page, out: &mut O) -> Result<(), Failed> {
        pour_of_line(self.line, LineWords(self.fault), page, out)
    }
}

/// What is said of a text that gives no derivation. Want of memory, which is never told, has no words.
#[derive(Drop)]
pub struct LratLine<'a>(pub &'a LratFault);

impl Text for LratLine<'_> {
    ghost can = { λ _. Unit {0} };

    ghost text = { λ line. reading_text line.0.now };

    fn pour<O: Sink>(&self, page: &mut Page, out: &mut O) -> Result<(), Failed> {
        match self.0 {
            LratFault::Line(line) => pour_of_line(*line, Raw(b"line"), page, out),
            LratFault::Rat(line) => pour_of_line(*line, Raw(b"rat"), page, out),
            LratFault::NoMemory => page.put(out, b""),
        }
    }
}
