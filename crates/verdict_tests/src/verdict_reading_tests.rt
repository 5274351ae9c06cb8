//! Verdicts that are read whole, of a report and of a sharp text, in memory and in files.

ghost use Rattle.std.specs.Prelude.{◌≤◌};

use crate::symmetry::{pieces, symmetric, symmetric_sharp, symmetric_story};
use crew::Crew;
use edge::{MemoryShelf, Open};
use meaning::{Lemma, Witness};
use outcomes::ChoiceKind;
use profiles::Space;
use report::Topic;
use report_files::FileFault;
use sharp_report::SharpRefusal;
use sharp_verdicts::Cited;
use std::alloc::Global;
use std::test::Fail;
use std::thread::Threads;
use verdict_reading::{Reading, SharpVerdict, read_verdict, read_verdict_file};
use verdicts::{Refusal, Verdict};
use vocab::Literal;

/// Texts that are refused, whether each is read as a sharp text, and its first faulty line.
static REFUSED: [(&str, bool, u32); 9] = [
    ("", false, 1),
    ("bench sharp 1", false, 1),
    ("bench sharp 2\nkind choice\n", false, 1),
    ("bench report 1\nkind ranking\n", false, 2),
    ("bench report 1\nkind choice\nvoters 2", false, 3),
    ("bench sharp 1\n", true, 2),
    ("bench sharp 1\nkind choice", true, 2),
    ("bench sharp 1\nkind ranking\nx\n", true, 2),
    ("bench sharp 1\nkind choice\nvoters 2\nx\n", true, 4),
];

// The table is handed out as a slice, so that the proof of a test need not read it.
fn refused() -> &'static [(&'static str, bool, u32)] {
    &REFUSED
}

/// What is read of a text in memory.
fn read<R: Threads + Sync>(rt: &R, alloc: Global, text: &[u8]) -> Result<Reading, Fail> {
    let study = symmetric(alloc)?;
    let kind = ChoiceKind::new(Space::new(study.size()));
    if text.len() > 1000 {
        return Err(Fail::from("a long text"));
    }
    let crew = Crew {
        rt,
        gate: &Open,
        workers: 1,
    };
    let topic = Topic {
        kind: &kind,
        study: &study,
    };
    Ok(read_verdict(alloc, &crew, &topic, text)?)
}

/// What is read of a file that holds the text, of which each read gives so many bytes, where the call of this
/// number fails.
fn read_file<R: Threads + Sync>(
    rt: &R,
    alloc: Global,
    text: &[u8],
    most: u32,
    failing: u32,
) -> Result<Result<Reading, FileFault>, Fail>
    requires { 1 ≤ most }
{
    let study = symmetric(alloc)?;
    let kind = ChoiceKind::new(Space::new(study.size()));
    let mut shelf = MemoryShelf::short(alloc, most, [failing].as_slice())?;
    shelf.hold("text", text)?;
    let crew = Crew {
        rt,
        gate: &Open,
        workers: 2,
    };
    let topic = Topic {
        kind: &kind,
        study: &study,
    };
    Ok(read_verdict_file(alloc, &crew, &topic, &mut shelf, "text"))
}

/// Whether a lemma supposes this alone, or nothing, and has so many steps.
fn is_lemma(lemma: Option<&Lemma>, suppose: Option<&Literal>, steps: usize) -> bool {
    match lemma {
        Some(lemma) => {
            let supposed = lemma.suppose.as_slice();
            supposed.first() == suppose && supposed.len() < 2 && lemma.steps.len() == steps
        }
        None => false,
    }
}

/// Whether a witness is a rule of these outcomes.
fn is_rule(witness: Option<&Witness>, outcomes: &[u8]) -> bool {
    match witness {
        Some(Witness::Rule(table)) => table.as_slice() == outcomes,
        _ => false,
    }
}

/// Whether two lemmas are those of the texts: the first supposes that a wins where the voters differ and has
/// two steps, and the second supposes nothing.
fn are_lemmas(story: &[Lemma], steps: usize) -> bool {
    let first = Literal::Wins(0, 1);
    story.len() == 2
        && is_lemma(story.first(), Some(&first), 2)
        && is_lemma(story.get(1), None, steps)
}

/// Whether two witnesses are the rules of the texts: at the profiles aa, ab, ba and bb the first chooses the
/// first voter's best, and the second always a.
fn are_rules(witnesses: &[Witness]) -> bool {
    witnesses.len() == 2
        && is_rule(witnesses.first(), [0, 0, 1, 1].as_slice())
        && is_rule(witnesses.get(1), [0, 0, 0, 0].as_slice())
}

/// Whether the verdict is that of the report, of which all is read.
fn is_story(verdict: &Verdict) -> bool {
    match verdict {
        Verdict::Impossible {
            core,
            story,
            witnesses,
        } => {
            core.as_slice() == [0, 1].as_slice()
                && are_lemmas(story.as_slice(), 4)
                && are_rules(witnesses.as_slice())
        }
        _ => false,
    }
}

/// Whether the sharp verdict is that of the sharp text, of which all is read.
fn is_sharp(verdict: &SharpVerdict) -> bool {
    let instances = [
        Cited {
            axiom: 0,
            number: 10,
        },
        Cited {
            axiom: 1,
            number: 10,
        },
    ];
    verdict.core.as_slice() == [0, 1].as_slice()
        && verdict.instances.as_slice() == instances.as_slice()
        && are_lemmas(verdict.story.as_slice(), 3)
        && are_rules(verdict.marks.as_slice())
}

/// 1 where all of the report is read, 2 where all of the sharp text is, and else 0.
fn which(reading: Reading) -> u32 {
    match reading {
        Reading::Confirmed(verdict) => { if is_story(&verdict) { 1 } else { 0 } }
        Reading::SharpConfirmed(verdict) => { if is_sharp(&verdict) { 2 } else { 0 } }
        _ => 0,
    }
}

/// The same of a file, and 3 where the shelf failed.
fn which_of(answer: Result<Reading, FileFault>) -> u32 {
    match answer {
        Ok(reading) => which(reading),
        Err(FileFault::Failed) => 3,
        Err(FileFault::NoMemory) => 4,
    }
}

#[test]
fn verdicts_in_memory_are_read_whole(rt: HostRuntime) -> Result<(), Fail> {
    let alloc = rt.alloc();
    let report = read(&rt, alloc, symmetric_story().as_bytes())?;
    let sharp = read(&rt, alloc, symmetric_sharp())?;
    assert!(rt; [which(report), which(sharp)] == [1, 2]);
    Ok(())
}

#[test]
fn verdicts_in_files_are_read_whole_in_any_pieces(rt: HostRuntime) -> Result<(), Fail> {
    let alloc = rt.alloc();
    for most in pieces() {
        assert!(rt; *most >= 1);
        let report = read_file(&rt, alloc, symmetric_story().as_bytes(), *most, u32::MAX)?;
        let sharp = read_file(&rt, alloc, symmetric_sharp(), *most, u32::MAX)?;
        assert!(rt; [which_of(report), which_of(sharp)] == [1, 2]);
    }
    Ok(())
}

/// Whether a text that is refused as not of the form is read as a sharp text, and its first faulty line; a
/// study that differs counts as a fault of the form.
fn refused_at(reading: Reading) -> Option<(bool, u32)> {
    match reading {
        Reading::Faulty {
            line,
            refusal: Refusal::Form,
        } => Some((false, line)),
        Reading::Faulty {
            line,
            refusal: Refusal::StudyDiffers,
        } => Some((false, line)),
        Reading::SharpFaulty {
            line,
            refusal: SharpRefusal::Report(Refusal::Form),
        } => Some((true, line)),
        Reading::SharpFaulty {
            line,
            refusal: SharpRefusal::Report(Refusal::StudyDiffers),
        } => Some((true, line)),
        _ => None,
    }
}

#[test]
fn first_line_tells_as_what_a_text_is_read(rt: HostRuntime) -> Result<(), Fail> {
    let alloc = rt.alloc();
    for (text, is_sharp, line) in refused() {
        let reading = read(&rt, alloc, text.as_bytes())?;
        assert!(rt; refused_at(reading) == Some((*is_sharp, *line)));
    }
    Ok(())
}

/// What comes of the sharp text in a file, read whole at once, where the call of this number fails.
fn failing_at<R: Threads + Sync>(rt: &R, alloc: Global, failing: u32) -> Result<u32, Fail> {
    let answer = read_file(rt, alloc, symmetric_sharp(), 4096, failing)?;
    Ok(which_of(answer))
}

// The calls are a rewind, a read that gives the text, and one that gives nothing.
#[test]
fn failed_call_is_answered(rt: HostRuntime) -> Result<(), Fail> {
    let alloc = rt.alloc();
    let found = [
        failing_at(&rt, alloc, 0)?,
        failing_at(&rt, alloc, 1)?,
        failing_at(&rt, alloc, 2)?,
        failing_at(&rt, alloc, 3)?,
    ];
    assert!(rt; found == [3, 3, 3, 2]);
    Ok(())
}
