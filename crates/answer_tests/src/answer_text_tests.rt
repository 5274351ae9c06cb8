//! The lines of answers by example, from docs/FORMATS.md.

use answer_text::{JudgedLine, LibraryLines, StudyLine, TotalLine, WorthLine, laws};
use edge::{Failed, MemorySink, Sink};
use lists::Items;
use meaning::Counts;
use report_files::{JudgedWorth, SharpWorth, Worth};
use sharp_verdicts::SharpRefusal;
use sorts::SortFault;
use std::alloc::Global;
use std::test::Fail;
use study::StudyFault;
use syntax::SyntaxFault;
use texts::{Text, write_text};
use verdicts::{Confirmed, Refusal};
use vocab::{Kind, Name, SizeFault};

fn written<T: Text>(text: &T, alloc: Global) -> Result<Vec<u8>, Fail>
    requires { T.can text.now }
{
    let mut out = MemorySink::new(alloc, 2000, &[])?;
    write_text(text, &mut out).ok().ok_or("no room")?;
    Ok(out.bytes().to_vec(alloc)?)
}

/// Whether a text is this line.
fn is_line<T: Text>(text: &T, alloc: Global, wanted: &str) -> Result<bool, Fail>
    requires { T.can text.now }
{
    let line = written(text, alloc)?;
    Ok(line.as_slice() == wanted.as_bytes())
}

fn string(alloc: Global, bytes: &[u8]) -> Result<Items<u8>, Fail> {
    let mut string = Items::new(alloc);
    string.append(bytes)?;
    Ok(string)
}

/// Whether the line of a fault of a study is this. The fault goes into a box, so that it is dropped by one call.
fn is_refused(alloc: Global, fault: StudyFault, wanted: &str) -> Result<bool, Fail> {
    let fault = Box::new(alloc, fault)?;
    is_line(&StudyLine(&*fault), alloc, wanted)
}

/// Whether the faults that name no axiom have these lines.
fn plain_faults(alloc: Global) -> Result<bool, Fail> {
    let fair = Name::new(b"fair").ok_or("name")?;
    let found = [
        is_refused(alloc, StudyFault::Toml, "study: not toml\n")?,
        is_refused(
            alloc,
            StudyFault::Key(string(alloc, b"kind")?),
            "study: key kind\n",
        )?,
        is_refused(
            alloc,
            StudyFault::Size(SizeFault::Voters(-1)),
            "study: voters -1\n",
        )?,
        is_refused(
            alloc,
            StudyFault::Size(SizeFault::Profiles(1_728_000)),
            "study: profiles 1728000\n",
        )?,
        is_refused(
            alloc,
            StudyFault::Size(SizeFault::Domain),
            "study: no ballots\n",
        )?,
        is_refused(
            alloc,
            StudyFault::Ballot(string(alloc, b"ab")?),
            "study: ballot ab\n",
        )?,
        is_refused(alloc, StudyFault::Conflicts(0), "study: conflicts 0\n")?,
        is_refused(alloc, StudyFault::Many(41), "study: axioms 41\n")?,
        is_refused(
            alloc,
            StudyFault::Unknown(string(alloc, b"Fair")?),
            "study: unknown axiom Fair\n",
        )?,
        is_refused(alloc, StudyFault::Twice(fair), "study: twice fair\n")?,
    ];
    Ok(found == [true; 10])
}

/// Whether the faults of an axiom have these lines.
fn axiom_faults(alloc: Global) -> Result<bool, Fail> {
    let fair = Name::new(b"fair").ok_or("name")?;
    let unbound = Name::new(b"x").ok_or("name")?;
    let found = [
        is_refused(
            alloc,
            StudyFault::Syntax(fair, SyntaxFault::Lexeme(7)),
            "study: fair: lexeme 7\n",
        )?,
        is_refused(
            alloc,
            StudyFault::Syntax(fair, SyntaxFault::NoReading),
            "study: fair: no reading\n",
        )?,
        is_refused(
            alloc,
            StudyFault::Syntax(fair, SyntaxFault::Deep),
            "study: fair: deep\n",
        )?,
        is_refused(
            alloc,
            StudyFault::Sort(fair, SortFault::Unbound(unbound)),
            "study: fair: unbound x\n",
        )?,
        is_refused(alloc, StudyFault::Open(fair), "study: fair: open\n")?,
        is_refused(
            alloc,
            StudyFault::Instances(fair, 40_000_001),
            "study: fair: instances 40000001\n",
        )?,
        is_refused(
            alloc,
            StudyFault::Body(fair, 1_000_001),
            "study: fair: body 1000001\n",
        )?,
        is_refused(
            alloc,
            StudyFault::Work(fair, 18_446_744_073_709_551_615),
            "study: fair: work 18446744073709551615\n",
        )?,
    ];
    Ok(found == [true; 8])
}

#[test]
fn studies_are_refused(rt: HostRuntime) -> Result<(), Fail> {
    let plain = plain_faults(rt.alloc())?;
    let of_axioms = axiom_faults(rt.alloc())?;
    assert!(rt; plain && of_axioms);
    Ok(())
}

/// A kind, the front of the first line of its library, and how many lines that has.
static LIBRARIES: [(Kind, &str, usize); 3] = [
    (Kind::Choice, "unanimity: all p: profile. ", 10),
    (Kind::Ranking, "pareto: all p: profile. ", 5),
    (Kind::Sets, "pareto: all p: profile. ", 6),
];

// The table is handed out as a slice, so that the proof of a test need not read it.
fn libraries() -> &'static [(Kind, &'static str, usize)] {
    &LIBRARIES
}

/// Whether the line of what a report is worth is this.
fn is_judged(alloc: Global, worth: Worth, wanted: &str) -> Result<bool, Fail> {
    is_line(&WorthLine(&worth), alloc, wanted)
}

/// A report whose first faulty line is this.
fn faulty(line: u32, refusal: Refusal) -> Worth {
    Worth::Faulty { line, refusal }
}

/// That the axiom `unanimity` fails at its third instance.
fn third_fails() -> Result<Refusal, Fail> {
    let axiom = Name::new(b"unanimity").ok_or("name")?;
    Ok(Refusal::Fails { axiom, instance: 3 })
}

#[test]
fn reports_are_judged(rt: HostRuntime) -> Result<(), Fail> {
    laws::lines_are_of_answers();
    let alloc = rt.alloc();
    let fails = faulty(9, third_fails()?);
    let found = [
        is_judged(
            alloc,
            Worth::Confirmed(Confirmed::Possible),
            "confirmed possible\n",
        )?,
        is_judged(
            alloc,
            Worth::Confirmed(Confirmed::Impossible),
            "confirmed impossible\n",
        )?,
        is_judged(alloc, Worth::TooLong, "refused: too long\n")?,
        is_judged(alloc, faulty(1, Refusal::Form), "refused line 1: form\n")?,
        is_judged(
            alloc,
            faulty(11, Refusal::NotInCore),
            "refused line 11: not_in_core\n",
        )?,
        is_judged(
            alloc,
            faulty(20, Refusal::OpenMark),
            "refused line 20: open\n",
        )?,
        is_judged(alloc, fails, "refused line 9: fails unanimity 3\n")?,
    ];
    assert!(rt; found == [true; 7]);
    Ok(())
}

/// Whether the line of what a report or a sharp text is worth is this.
fn is_told(alloc: Global, worth: JudgedWorth, wanted: &str) -> Result<bool, Fail> {
    is_line(&JudgedLine(&worth), alloc, wanted)
}

/// A sharp text whose first faulty line is this.
fn unsharp(line: u32, refusal: SharpRefusal) -> JudgedWorth {
    JudgedWorth::Sharp(SharpWorth::Faulty { line, refusal })
}

#[test]
fn sharp_texts_are_judged(rt: HostRuntime) -> Result<(), Fail> {
    laws::lines_are_of_judged();
    let alloc = rt.alloc();
    let possible = JudgedWorth::Report(Worth::Confirmed(Confirmed::Possible));
    let fails = unsharp(24, SharpRefusal::Report(third_fails()?));
    let found = [
        is_told(alloc, possible, "confirmed possible\n")?,
        is_told(
            alloc,
            JudgedWorth::Sharp(SharpWorth::Confirmed),
            "confirmed sharp\n",
        )?,
        is_told(
            alloc,
            JudgedWorth::Sharp(SharpWorth::TooLong),
            "refused: too long\n",
        )?,
        is_told(
            alloc,
            unsharp(19, SharpRefusal::Instance),
            "refused line 19: instance\n",
        )?,
        is_told(alloc, fails, "refused line 24: fails unanimity 3\n")?,
    ];
    assert!(rt; found == [true; 5]);
    Ok(())
}

#[test]
fn totals_are_told(rt: HostRuntime) -> Result<(), Fail> {
    let total = TotalLine(Counts {
        clauses: 4_000_001,
        literals: 18_446_744_073_709_551_615,
    });
    let wanted = "study: total 4000001 18446744073709551615\n";
    assert!(rt; is_line(&total, rt.alloc(), wanted)?);
    Ok(())
}

/// Whether the library of a kind has so many lines, and this front.
fn has_lines(alloc: Global, kind: Kind, first: &str, lines: usize) -> Result<bool, Fail> {
    let text = written(&LibraryLines(kind), alloc)?;
    let count = text.iter().filter(|c| **c == b'\n').count();
    Ok(text.starts_with(first.as_bytes()) && count == lines)
}

#[test]
fn libraries_have_a_line_an_axiom(rt: HostRuntime) -> Result<(), Fail> {
    for (kind, first, lines) in libraries() {
        assert!(rt; has_lines(rt.alloc(), *kind, first, *lines)?);
    }
    Ok(())
}
