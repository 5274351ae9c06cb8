//! How far a text is read, and by which judge it is judged.

ghost use Rattle.std.specs.Prelude.{◌≡◌, ◌≤◌};

use crate::symmetry::{pieces, symmetric, symmetric_sharp};
use crew::Crew;
use edge::{MemoryShelf, Open};
use outcomes::ChoiceKind;
use profiles::Space;
use report::{ReportFault, Topic};
use report_files::{FileFault, JudgedWorth, SharpWorth, Worth, check_report, judge_file};
use std::alloc::Global;
use std::test::Fail;
use std::thread::Threads;
use verdicts::Refusal;

/// Texts that are refused, whether each is judged as a sharp text, and its first faulty line.
static REFUSED: [(&str, bool, u32); 11] = [
    ("", false, 1),
    ("bench", false, 1),
    ("bench sharp 1", false, 1),
    ("bench sharp 1 \nkind choice\n", false, 1),
    ("bench sharp 2\nkind choice\n", false, 1),
    ("bench report 1\nbench sharp 1\n", false, 2),
    ("bench sharp 1\n", true, 2),
    ("bench sharp 1\nkind choice", true, 2),
    ("bench sharp 1\nbench sharp 1\n", true, 2),
    ("bench sharp 1\nkind ranking\n", true, 2),
    ("bench sharp 1\nkind choice\nvoters 2\nx\n", true, 4),
];

/// Texts that are refused, and the last call of the shelf that comes before the answer.
static ANSWERED: [(&str, u32); 2] = [
    ("x\nkind choice\nvoters 2\n", 2),
    ("bench sharp 1\nkind ranking\nx\n", 27),
];

// Each table is handed out as a slice, so that the proof of a test need not read it.
fn answered() -> &'static [(&'static str, u32)] {
    &ANSWERED
}

fn refused() -> &'static [(&'static str, bool, u32)] {
    &REFUSED
}

/// What a text is worth, of which each read gives so many bytes, where the call of this number fails.
fn judged<R: Threads + Sync>(
    rt: &R,
    alloc: Global,
    text: &[u8],
    most: u32,
    failing: u32,
) -> Result<Result<JudgedWorth, FileFault>, Fail>
    requires { 1 ≤ most }
{
    let study = symmetric(alloc)?;
    let kind = ChoiceKind::new(Space::new(study.size()));
    let mut shelf = MemoryShelf::short(alloc, most, [failing].as_slice())?;
    shelf.hold("text", text)?;
    let crew = Crew {
        rt,
        gate: &Open,
        workers: 1,
    };
    let topic = Topic {
        kind: &kind,
        study: &study,
    };
    Ok(judge_file(alloc, &crew, &topic, &mut shelf, "text"))
}

/// Whether a text that is refused was judged as a sharp text, and its first faulty line.
fn refused_at(worth: Result<JudgedWorth, FileFault>) -> Option<(bool, u32)> {
    match worth {
        Ok(JudgedWorth::Report(Worth::Faulty { line, refusal: _ })) => Some((false, line)),
        Ok(JudgedWorth::Sharp(SharpWorth::Faulty { line, refusal: _ })) => Some((true, line)),
        _ => None,
    }
}

#[test]
fn sharp_text_is_confirmed_in_any_pieces(rt: HostRuntime) -> Result<(), Fail> {
    for most in pieces() {
        assert!(rt; *most >= 1);
        let worth = judged(&rt, rt.alloc(), symmetric_sharp(), *most, u32::MAX)?;
        assert!(rt; worth == Ok(JudgedWorth::Sharp(SharpWorth::Confirmed)));
    }
    Ok(())
}

/// Whether a text of which each read gives so many bytes is refused as a sharp text, and its first faulty line.
fn refused_by<R: Threads + Sync>(
    rt: &R,
    alloc: Global,
    text: &[u8],
    most: u32,
) -> Result<Option<(bool, u32)>, Fail>
    requires { 1 ≤ most }
{
    let worth = judged(rt, alloc, text, most, u32::MAX)?;
    Ok(refused_at(worth))
}

#[test]
fn first_line_tells_by_which_judge_a_text_is_judged(rt: HostRuntime) -> Result<(), Fail> {
    let alloc = rt.alloc();
    for (text, is_sharp, line) in refused() {
        let wanted = Some((*is_sharp, *line));
        let by_byte = refused_by(&rt, alloc, text.as_bytes(), 1)?;
        let whole = refused_by(&rt, alloc, text.as_bytes(), 4096)?;
        assert!(rt; [by_byte, whole] == [wanted, wanted]);
    }
    Ok(())
}

/// Whether the first faulty line of a text is answered where the call of this number fails.
fn is_answered<R: Threads + Sync>(
    rt: &R,
    alloc: Global,
    text: &[u8],
    failing: u32,
) -> Result<bool, Fail> {
    let worth = judged(rt, alloc, text, 1, failing)?;
    Ok(refused_at(worth).is_some())
}

// The calls are a rewind and then a read for each byte. The first line of the one text has two, and the first
// two lines of the other have 27: the faulty line is answered though the next read would fail. A failed call
// before it is what is answered.
#[test]
fn first_faulty_line_is_answered_though_a_later_read_fails(rt: HostRuntime) -> Result<(), Fail> {
    let alloc = rt.alloc();
    for (text, last) in answered() {
        let bytes = text.as_bytes();
        let found = [
            is_answered(&rt, alloc, bytes, 0)?,
            is_answered(&rt, alloc, bytes, 1)?,
            is_answered(&rt, alloc, bytes, *last)?,
            is_answered(&rt, alloc, bytes, last.saturating_add(1))?,
            is_answered(&rt, alloc, bytes, last.saturating_add(2))?,
        ];
        assert!(rt; found == [false, false, false, true, true]);
    }
    Ok(())
}

#[test]
fn reader_of_reports_refuses_the_title_of_a_sharp_text(rt: HostRuntime) -> Result<(), Fail> {
    let study = symmetric(rt.alloc())?;
    let kind = ChoiceKind::new(Space::new(study.size()));
    let refused = Err(ReportFault::Line {
        line: 1,
        refusal: Refusal::Form,
    });
    let text = symmetric_sharp();
    assert!(rt; text.len() < 1000);
    let answer = check_report(&rt, rt.alloc(), &Open, 1, &kind, &study, text);
    assert!(rt; answer == refused);
    Ok(())
}
