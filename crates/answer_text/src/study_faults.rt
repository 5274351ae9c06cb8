//! The line of a study that is refused.

ghost use Rattle.std.specs.Prelude.{◌++◌, codes};
ghost use Rattle.answers.specs.StudyLines.{size_fault_text, syntax_text, sort_text, of_axiom, fault_text, study_line};

use edge::{Failed, Sink};
use sorts::SortFault;
use study::StudyFault;
use syntax::SyntaxFault;
use texts::{Integer, Number, Page, Raw, Text, Two};
use vocab::{Name, SizeFault};

/// Numbers that are no size.
#[derive(Drop)]
struct SizeWords(SizeFault);

impl Text for SizeWords {
    ghost can = { λ _. Unit {0} };

    ghost text = { λ words. size_fault_text words.0 };

    fn pour<O: Sink>(&self, page: &mut Page, out: &mut O) -> Result<(), Failed> {
        match self.0 {
            SizeFault::Voters(n) => Two(Raw(b"voters "), Integer(n)).pour(page, out),
            SizeFault::Alternatives(m) => Two(Raw(b"alternatives "), Integer(m)).pour(page, out),
            SizeFault::Profiles(count) => Two(Raw(b"profiles "), Number(count)).pour(page, out),
            SizeFault::Domain => page.put(out, b"no ballots"),
        }
    }
}

/// A text that is no sentence.
#[derive(Drop)]
struct SyntaxWords(SyntaxFault);

impl Text for SyntaxWords {
    ghost can = { λ _. Unit {0} };

    ghost text = { λ words. syntax_text words.0 };

    fn pour<O: Sink>(&self, page: &mut Page, out: &mut O) -> Result<(), Failed> {
        match self.0 {
            SyntaxFault::Lexeme(offset) => Two(Raw(b"lexeme "), Number(offset)).pour(page, out),
            SyntaxFault::Long(count) => Two(Raw(b"long "), Number(count)).pour(page, out),
            SyntaxFault::NoReading => page.put(out, b"no reading"),
            SyntaxFault::Deep => page.put(out, b"deep"),
            SyntaxFault::Variables => page.put(out, b"variables"),
            SyntaxFault::NoMemory => page.put(out, b""),
        }
    }
}

/// A sentence that is none of the size.
#[derive(Drop)]
struct SortWords<'a>(&'a SortFault);

impl Text for SortWords<'_> {
    ghost can = { λ _. Unit {0} };

    ghost text = { λ words. sort_text words.0.now };

    fn pour<O: Sink>(&self, page: &mut Page, out: &mut O) -> Result<(), Failed> {
        match self.0 {
            SortFault::Unbound(name) => Two(Raw(b"unbound "), Raw(name.bytes())).pour(page, out),
            SortFault::Symbol(name) => Two(Raw(b"symbol "), Raw(name.bytes())).pour(page, out),
            SortFault::Arity(symbol) => Two(Raw(b"arity "), Raw(symbol.bytes())).pour(page, out),
            SortFault::Sort(symbol, place) => {
                let place = Two(Raw(b" "), Number(u64::from(*place)));
                Two(Raw(b"sort "), Two(Raw(symbol.bytes()), place)).pour(page, out)
            }
            SortFault::Kind(symbol) => Two(Raw(b"kind "), Raw(symbol.bytes())).pour(page, out),
            SortFault::Constant(constant) => {
                Two(Raw(b"constant "), Raw(constant.bytes())).pour(page, out)
            }
            SortFault::NoMemory => page.put(out, b""),
        }
    }
}

/// The name of an axiom, a colon and words.
#[derive(Drop)]
struct OfAxiom<'a, W>(&'a Name, W);

impl<W: Text> Text for OfAxiom<'_, W> {
    ghost can = { λ of. W.can of.1 };

    ghost text = { λ of. of_axiom of.0.now (W.text of.1) };

    fn pour<O: Sink>(&self, page: &mut Page, out: &mut O) -> Result<(), Failed> {
        page.put(out, self.0.bytes())?;
        page.put(out, b": ")?;
        self.1.pour(page, out)
    }
}

/// Why a study is refused. Want of memory has no words.
#[derive(Drop)]
struct FaultWords<'a>(&'a StudyFault);

impl Text for FaultWords<'_> {
    ghost can = { λ _. Unit {0} };

    ghost text = { λ words. fault_text words.0.now };

    fn pour<O: Sink>(&self, page: &mut Page, out: &mut O) -> Result<(), Failed> {
        match self.0 {
            StudyFault::Toml => page.put(out, b"not toml"),
            StudyFault::Key(key) => Two(Raw(b"key "), Raw(key.as_slice())).pour(page, out),
            StudyFault::Size(fault) => SizeWords(*fault).pour(page, out),
            StudyFault::Ballot(text) => Two(Raw(b"ballot "), Raw(text.as_slice())).pour(page, out),
            StudyFault::Conflicts(n) => Two(Raw(b"conflicts "), Integer(*n)).pour(page, out),
            StudyFault::Many(count) => Two(Raw(b"axioms "), Number(*count)).pour(page, out),
            StudyFault::Unknown(text) => {
                Two(Raw(b"unknown axiom "), Raw(text.as_slice())).pour(page, out)
            }
            StudyFault::Twice(name) => Two(Raw(b"twice "), Raw(name.bytes())).pour(page, out),
            StudyFault::Syntax(name, fault) => OfAxiom(name, SyntaxWords(*fault)).pour(page, out),
            StudyFault::Sort(name, fault) => OfAxiom(name, SortWords(fault)).pour(page, out),
            StudyFault::Open(name) => OfAxiom(name, Raw(b"open")).pour(page, out),
            StudyFault::Instances(name, count) => {
                OfAxiom(name, Two(Raw(b"instances "), Number(*count))).pour(page, out)
            }
            StudyFault::Body(name, count) => {
                OfAxiom(name, Two(Raw(b"body "), Number(*count))).pour(page, out)
            }
            StudyFault::Work(name, count) => {
                OfAxiom(name, Two(Raw(b"work "), Number(*count))).pour(page, out)
            }
            StudyFault::NoMemory => page.put(out, b""),
        }
    }
}

/// The line of a study that is refused. Want of memory, which is never told, has no words between `study: `
/// and the line end.
#[derive(Drop)]
pub struct StudyLine<'a>(pub &'a StudyFault);

impl Text for StudyLine<'_> {
    ghost can = { λ _. Unit {0} };

    ghost text = { λ line. study_line line.0.now };

    fn pour<O: Sink>(&self, page: &mut Page, out: &mut O) -> Result<(), Failed> {
        Two(Raw(b"study: "), Two(FaultWords(self.0), Raw(b"\n"))).pour(page, out)
    }
}
