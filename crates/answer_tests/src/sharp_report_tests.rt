//! Anonymity and neutrality, for two voters and two alternatives: a sharp text with one line changed at a time.

ghost use Rattle.std.specs.Prelude.{◌≡◌, length, IfOk};
ghost use Rattle.sharp_report.specs.SharpStands.{IsSharpReady};

use edge::Open;
use outcomes::ChoiceKind;
use profiles::Space;
use sharp_report::{SharpChecker, SharpFault, SharpRefusal};
use std::alloc::Global;
use std::test::Fail;
use std::thread::Threads;
use study::read_study;
use verdicts::Refusal;
use vocab::{Kind, Study};

static STUDY: &str =
    "kind = \"choice\"\nvoters = 2\nalternatives = 2\naxioms = [\"anonymity\", \"neutrality\"]\n";

/// The lines of a sharp text of the study.
static LINES: [&[u8]; 30] = [
    b"bench sharp 1",
    b"kind choice",
    b"voters 2",
    b"alternatives 2",
    b"axioms anonymity neutrality",
    b"verdict impossible",
    b"core anonymity neutrality",
    b"lemmas 2",
    b"lemma 1",
    b"suppose a@ab|ba",
    b"so a@ba|ab by axiom anonymity ab|ba 1 2 a",
    b"so b@ba|ab by axiom neutrality ab|ba a b a",
    b"clash by outcome ba|ab",
    b"lemma 2",
    b"so !a@ab|ba by lemma 1",
    b"so !a@ba|ab by axiom anonymity ab|ba 1 2 a",
    b"so !b@ba|ab by axiom neutrality ab|ba a b a",
    b"clash by outcome ba|ab",
    b"instances 2",
    b"needs anonymity ab|ba 1 2 a rule 4",
    b"ab|ab a",
    b"ab|ba a",
    b"ba|ab b",
    b"ba|ba b",
    b"needs neutrality ab|ba a b a rule 4",
    b"ab|ab a",
    b"ab|ba a",
    b"ba|ab a",
    b"ba|ba a",
    b"end",
];

/// A line that is changed, from 1, the text that stands there instead, the first faulty line, and its word.
static ROWS: [(u32, &[u8], u32, &[u8]); 26] = [
    (1, b"bench sharp 1", 0, b""),
    (1, b"bench sharp 2", 1, b"form"),
    (1, b"bench report 1", 1, b"form"),
    (2, b"kind ranking", 2, b"study"),
    (5, b"axioms anonymity", 5, b"study"),
    (6, b"verdict possible", 6, b"form"),
    (6, b"verdict undecided", 6, b"undecided"),
    (7, b"core neutrality anonymity", 7, b"core"),
    (
        11,
        b"so a@ab|ba by axiom anonymity ab|ba 1 2 a",
        11,
        b"known",
    ),
    (
        12,
        b"so b@ba|ab by axiom anonymity ab|ba 1 2 a",
        12,
        b"not_forced",
    ),
    (15, b"so !a@ab|ba by lemma 2", 15, b"later"),
    (19, b"instances 3", 19, b"instance"),
    (19, b"instances 02", 19, b"form"),
    (19, b"needs anonymity ab|ba 1 2 a rule 4", 19, b"form"),
    (20, b"needs neutrality ab|ba a b a rule 3", 20, b"instance"),
    (20, b"needs anonymity ab|ba 1 2 b open 7", 20, b"instance"),
    (20, b"needs anonymity ab|ba 1 2 a rule 3", 20, b"row"),
    (20, b"needs anonymity ab|ba 1 2 a open 7", 20, b"open"),
    (20, b"needs anonymity ab|ba 1 2 a open 100000", 21, b"form"),
    (20, b"needs anonymity ab|ba 1 2 rule 4", 20, b"form"),
    (22, b"ba|ab a", 22, b"row"),
    (23, b"ba|ab a", 24, b"fails neutrality 10"),
    (25, b"end", 25, b"form"),
    (28, b"ba|ab b", 29, b"fails anonymity 10"),
    (29, b"ba|ba ab", 29, b"form"),
    (30, b"End", 30, b"form"),
];

// The text and each table is handed out by a function, so that the proof of a test need not read it.
fn study_text() -> &'static str {
    STUDY
}

fn lines() -> &'static [&'static [u8]] {
    &LINES
}

fn rows() -> &'static [(u32, &'static [u8], u32, &'static [u8])] {
    &ROWS
}

/// The study. In a box, so that a test drops it by one call.
fn symmetric(alloc: Global) -> Result<Box<Study>, Fail>
    ensures kind { IfOk result (λ study. study.value.size.kind ≡ Kind.Choice) }
    ensures axioms { IfOk result (λ study. length study.value.axioms ≡ 2) }
{
    let study = Box::new(
        alloc,
        read_study(alloc, study_text().as_bytes())
            .ok()
            .ok_or("study")?,
    )?;
    if study.size().kind() != Kind::Choice || study.axioms().len() != 2 {
        return Err(Fail::from("another study"));
    }
    Ok(study)
}

/// The word of a refusal. The two axioms have names of 9 and 10 letters.
fn word_of(refusal: &SharpRefusal) -> &[u8] {
    match refusal {
        SharpRefusal::Instance => b"instance",
        SharpRefusal::Report(Refusal::Form) => b"form",
        SharpRefusal::Report(Refusal::StudyDiffers) => b"study",
        SharpRefusal::Report(Refusal::Undecided) => b"undecided",
        SharpRefusal::Report(Refusal::Core) => b"core",
        SharpRefusal::Report(Refusal::Row) => b"row",
        SharpRefusal::Report(Refusal::Known) => b"known",
        SharpRefusal::Report(Refusal::NotForced) => b"not_forced",
        SharpRefusal::Report(Refusal::Later) => b"later",
        SharpRefusal::Report(Refusal::OpenMark) => b"open",
        SharpRefusal::Report(Refusal::Fails { axiom, instance }) => {
            match (axiom.bytes().len(), *instance) {
                (9, 10) => b"fails anonymity 10",
                (10, 10) => b"fails neutrality 10",
                _ => b"fails",
            }
        }
        SharpRefusal::Report(_) => b"other",
    }
}

/// Whether the first faulty line and its word are these; line 0 stands for none.
fn is_fault(answer: Result<(), SharpFault>, wanted: u32, word: &[u8]) -> bool {
    match answer {
        Ok(()) => wanted == 0,
        Err(SharpFault::Line { line, refusal }) => line == wanted && word_of(&refusal) == word,
        Err(SharpFault::NoMemory) => false,
    }
}

/// What is answered of the lines, of which one is changed.
fn checked<R: Threads + Sync>(
    checker: &mut SharpChecker<ChoiceKind>,
    rt: &R,
    changed: u32,
    text: &[u8],
) -> Result<(), SharpFault>
    requires ready { IsSharpReady checker.old.subject.setting.study.now checker.old.progress }
    requires none { checker.old.progress.lines ≡ 0 }
{
    for number in 1..31u32 {
        let Some(line) = lines().get(number as usize - 1) else {
            return Ok(());
        };
        let said = if number == changed { text } else { *line };
        checker.line(rt, &Open, said)?;
    }
    checker.finish()
}

/// Whether a row tells what is answered.
fn is_right<R: Threads + Sync>(
    alloc: Global,
    rt: &R,
    kind: &ChoiceKind,
    study: &Study,
    row: &(u32, &[u8], u32, &[u8]),
) -> Result<bool, Fail>
    requires size { study.now.size ≡ kind.now.space }
    requires few { length study.now.axioms ≡ 2 }
{
    let (changed, text, line, word) = row;
    let mut checker = SharpChecker::new(alloc, kind, study, 2)?;
    Ok(is_fault(checked(&mut checker, rt, *changed, text), *line, word))
}

#[test]
fn first_faulty_lines_are_named(rt: HostRuntime) -> Result<(), Fail> {
    let study = symmetric(rt.alloc())?;
    let kind = ChoiceKind::new(Space::new(study.size()));
    let mut wrong = 0;
    for row in rows() {
        if !is_right(rt.alloc(), &rt, &kind, &study, row)? {
            wrong = row.0;
        }
    }
    assert!(rt; wrong == 0);
    Ok(())
}
