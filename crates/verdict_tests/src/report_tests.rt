//! A report in memory that is checked by one call, and one that is checked line by line. The program calls
//! neither.

ghost use Rattle.std.specs.Prelude.{◌≤◌};
ghost use Rattle.report.specs.Stands.{StandsForSome};

use crate::symmetry::{symmetric, symmetric_story};
use edge::Open;
use outcomes::{ChoiceKind, OutcomeKind};
use profiles::Space;
use report::{Checker, ReportFault};
use report_files::check_report;
use std::test::Fail;
use std::thread::Threads;
use verdicts::{Confirmed, Refusal};

#[test]
fn texts_are_checked_by_one_call(rt: HostRuntime) -> Result<(), Fail> {
    let alloc = rt.alloc();
    let study = symmetric(alloc)?;
    let kind = ChoiceKind::new(Space::new(study.size()));
    let story = symmetric_story().as_bytes();
    let front = story.get(..100).ok_or("front")?;
    assert!(rt; story.len() < 1000 && front.len() < 1000);
    let confirmed = check_report(&rt, alloc, &Open, 1, &kind, &study, story);
    assert!(rt; confirmed == Ok(Confirmed::Impossible));
    let cut = check_report(&rt, alloc, &Open, 16, &kind, &study, front);
    assert!(rt; cut.is_err());
    Ok(())
}

/// Gives a checker the lines of a text, up to a hundred lines in all, and tells how many are faultless.
fn faultless_lines<R: Threads + Sync, K: OutcomeKind>(
    rt: &R,
    checker: &mut Checker<K>,
    text: &str,
) -> u32
    requires few { checker.old.progress.lines ≤ 101 }
    requires ready { StandsForSome checker.old.subject.setting.study.now checker.old.progress }
    ensures few { checker.new.progress.lines ≤ 101 }
    ensures ready { StandsForSome checker.new.subject.setting.study.now checker.new.progress }
{
    let mut count: u32 = 0;
    for line in text.split('\n') {
        if line.is_empty() || checker.progress.lines > 100 {
            return count;
        }
        if checker.line(rt, &Open, line.as_bytes()).is_ok() {
            count = count.saturating_add(1);
        }
    }
    count
}

/// The fault of the line of this number.
fn unfit(line: u32) -> Result<Confirmed, ReportFault> {
    Err(ReportFault::Line {
        line,
        refusal: Refusal::Form,
    })
}

/// Whether the checker takes each line of the front and then the end, answers after each of the two, and takes
/// nothing behind the end.
fn checks_to_the_end<R: Threads + Sync, K: OutcomeKind>(
    rt: &R,
    mut checker: Checker<K>,
    front: &str,
) -> bool
    requires few { checker.progress.lines ≤ 101 }
    requires ready { StandsForSome checker.subject.setting.study.now checker.progress }
{
    let before = faultless_lines(rt, &mut checker, front);
    let open = checker.finish();
    let last = faultless_lines(rt, &mut checker, "end\n");
    let whole = checker.finish();
    let after = faultless_lines(rt, &mut checker, "end\n");
    let more = checker.finish();
    [before, last, after] == [29, 1, 0]
        && open == unfit(30)
        && whole == Ok(Confirmed::Impossible)
        && more == unfit(31)
}

#[test]
fn lines_are_checked_one_by_one(rt: HostRuntime) -> Result<(), Fail> {
    let alloc = rt.alloc();
    let front = symmetric_story().strip_suffix("end\n").ok_or("end")?;
    let study = symmetric(alloc)?;
    let kind = ChoiceKind::new(Space::new(study.size()));
    let checker = Checker::new(alloc, &kind, &study, 1)?;
    assert!(rt; checks_to_the_end(&rt, checker, front));
    Ok(())
}
