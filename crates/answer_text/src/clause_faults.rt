//! The line of a study whose clauses are refused.

ghost use Rattle.std.specs.Prelude.{◌≡◌, ◌++◌, [], None, IfSome};
ghost use Rattle.answers.specs.Grounding.{wide_text, clause_refusal_text, refusal_line};
ghost use Rattle.answers.specs.StudyLines.{of_axiom};
ghost use Rattle.texts.specs.Page.{Pours};
ghost use Rattle.verdicts.specs.Lines.{name_at};

use clause_form::GroundFault;
use edge::{Failed, Sink};
use meaning::Counts;
use texts::{Number, Page, Raw, Text, Two};
use vocab::{Name, Study};

/// An instance that is too wide, with its counts.
#[derive(Drop)]
struct WideWords(u64, Counts);

impl Text for WideWords {
    ghost can = { λ _. Unit {0} };

    ghost text = { λ words. wide_text words.0 words.1 };

    fn pour<O: Sink>(&self, page: &mut Page, out: &mut O) -> Result<(), Failed> {
        let counts = self.1;
        let counts = Two(
            Number(counts.clauses),
            Two(Raw(b" "), Number(counts.literals)),
        );
        Two(Raw(b"wide "), Two(Number(self.0), Two(Raw(b" "), counts))).pour(page, out)
    }
}

/// The name of the axiom at a place of a study.
fn name_of(study: &Study, place: u32) -> Option<Name>
    ensures some { IfSome result (λ name. name_at study.now.axioms place ≡ name) }
    ensures none { result ≡ None → name_at study.now.axioms place ≡ [] }
{
    let axioms = study.axioms();
    if (place as usize) < axioms.len() {
        Some(axioms.get(place as usize).name())
    } else {
        None
    }
}

/// Adds the name of the axiom at a place of a study, a colon and words. Where there is no axiom, the name is
/// empty.
fn pour_of_place<W: Text + Drop, O: Sink>(
    study: &Study,
    place: u32,
    words: W,
    page: &mut Page,
    out: &mut O,
) -> Result<(), Failed>
    requires { W.can words }
    ensures { Pours (O.taken out.old) (O.taken out.new) page.old page.new
        (O.faults out.old) (O.faults out.new) result
        (of_axiom (name_at study.now.axioms place) (W.text words)) }
{
    match name_of(study, place) {
        Some(name) => Two(Raw(name.bytes()), Two(Raw(b": "), words)).pour(page, out),
        None => Two(Raw(b": "), words).pour(page, out),
    }
}

/// Why clauses are refused. Want of memory has no words.
#[derive(Drop)]
struct FaultWords<'a>(&'a Study, GroundFault);

impl Text for FaultWords<'_> {
    ghost can = { λ _. Unit {0} };

    ghost text = { λ words. clause_refusal_text words.0.now words.1 };

    fn pour<O: Sink>(&self, page: &mut Page, out: &mut O) -> Result<(), Failed> {
        match self.1 {
            GroundFault::Wide {
                axiom,
                instance,
                measure,
            } => pour_of_place(self.0, axiom, WideWords(instance, measure), page, out),
            GroundFault::Full { axiom } => pour_of_place(self.0, axiom, Raw(b"full"), page, out),
            GroundFault::NoMemory => page.put(out, b""),
        }
    }
}

/// The line of a study whose clauses are refused: the axiom at fault, and which of its instances is too wide,
/// with its counts, or that the list is full. Want of memory, which is never told, has no words.
#[derive(Drop)]
pub struct GroundLine<'a> {
    pub study: &'a Study,
    pub fault: GroundFault,
}

impl Text for GroundLine<'_> {
    ghost can = { λ _. Unit {0} };

    ghost text = { λ line. refusal_line line.study.now line.fault };

    fn pour<O: Sink>(&self, page: &mut Page, out: &mut O) -> Result<(), Failed> {
        let words = FaultWords(self.study, self.fault);
        Two(Raw(b"study: "), Two(words, Raw(b"\n"))).pour(page, out)
    }
}
