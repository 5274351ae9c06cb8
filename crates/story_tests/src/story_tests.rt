//! The story of anonymity and neutrality for two voters and two alternatives, and changes of it that are
//! refused. Profile 0 is ab|ab, 1 is ab|ba, 2 is ba|ab and 3 is ba|ba.

ghost use Rattle.std.specs.Prelude.{◌≡◌, ◌≤◌, nat_lt, length, IfOk, IsTrue};
ghost use Rattle.std.specs.List.{list_all};
ghost use Rattle.meaning.specs.Literals.{is_literal};
ghost use Rattle.meaning.specs.Stories.{has_literals};
ghost use Rattle.story.specs.Conditions.{is_short};
ghost use Rattle.meaning.proofs.WorkedExamples.{choice};

use crate::studies_by_text::of_two_axioms;
use lists::{Items, NoMemory};
use meaning::{Lemma, PlacedFault, Reason, StoryFault, StoryRefusal, StoryStep};
use outcomes::{ChoiceKind, Setting};
use profiles::Space;
use std::alloc::Global;
use std::test::Fail;
use story::{CheckableStory, Story, check_story};
use vocab::{Env, Kind, Literal, Places, Size, Study};

static SYMMETRIC: &str =
    "kind = \"choice\"\nvoters = 2\nalternatives = 2\naxioms = [\"anonymity\", \"neutrality\"]\n";

// The text is handed out by a function, so that the proof of a test need not read it.
fn symmetric() -> &'static str {
    SYMMETRIC
}

pub(crate) fn two_and_two() -> Result<Size, Fail>
    ensures { IfOk result (λ size. size ≡ choice 2 2) }
{
    Ok(Size::check(Kind::Choice, 2, 2).ok().ok_or("size")?)
}

pub(crate) fn study(alloc: Global) -> Result<Box<Study>, Fail>
    ensures size { IfOk result (λ study. study.value.size ≡ choice 2 2) }
    ensures axioms { IfOk result (λ study. length study.value.axioms ≡ 2) }
{
    of_two_axioms(alloc, symmetric(), two_and_two()?)
}

pub(crate) fn lemma(
    alloc: Global,
    suppose: &[Literal],
    steps: &[StoryStep],
    last: Reason,
) -> Result<Lemma, NoMemory>
    ensures { IfOk result (λ l. l ≡ record { suppose = suppose.now; steps = steps.now; last = last }) }
{
    let mut lemma = Lemma {
        suppose: Items::new(alloc),
        steps: Items::new(alloc),
        last,
    };
    lemma.suppose.append(suppose)?;
    lemma.steps.append(steps)?;
    Ok(lemma)
}

/// What is answered of the story of these two lemmas, told with a core.
fn answer(
    alloc: Global,
    core: &[u32],
    first: Result<Lemma, NoMemory>,
    second: Result<Lemma, NoMemory>,
) -> Result<Result<(), StoryRefusal>, Fail>
    requires core { IsTrue (list_all (λ k. nat_lt k 2) core.now) }
    requires first { IfOk first (λ l. IsTrue (has_literals (choice 2 2) l)) }
    requires second { IfOk second (λ l. IsTrue (has_literals (choice 2 2) l)) }
    requires first_short { IfOk first (λ l. IsTrue (is_short l)) }
    requires second_short { IfOk second (λ l. IsTrue (is_short l)) }
{
    let first = first?;
    let second = second?;
    let kind = ChoiceKind::new(Space::new(two_and_two()?));
    let study = study(alloc)?;
    let mut places = Places::new(alloc);
    places.append(core)?;
    let mut story = Story::new(alloc);
    story.push(first)?;
    story.push(second)?;
    let setting = Setting {
        kind: &kind,
        study: &study,
    };
    let checkable = CheckableStory {
        setting: &setting,
        core: &places,
        story: &story,
    };
    Ok(check_story(alloc, &checkable))
}

pub(crate) fn axiom_at(place: u32, x: u32) -> Reason {
    Reason::Axiom(place, Env::none().with(1).with(0).with(1).with(x))
}

pub(crate) fn so(literal: Literal, reason: Reason) -> StoryStep
    ensures { result ≡ record { literal = literal; reason = reason } }
{
    StoryStep { literal, reason }
}

/// If a won at ab|ba, then it would at ba|ab by anonymity, and b by neutrality.
pub(crate) fn a_does_not_win(alloc: Global) -> Result<Lemma, NoMemory>
    ensures literals { IfOk result (λ l. IsTrue (has_literals (choice 2 2) l)) }
    ensures short { IfOk result (λ l. IsTrue (is_short l)) }
{
    let steps = [
        so(Literal::Wins(0, 2), axiom_at(0, 0)),
        so(Literal::Wins(1, 2), axiom_at(1, 0)),
    ];
    lemma(
        alloc,
        [Literal::Wins(0, 1)].as_slice(),
        steps.as_slice(),
        Reason::Outcome(2),
    )
}

/// So b wins at ab|ba, and both at ba|ab.
pub(crate) fn nothing_wins(alloc: Global) -> Result<Lemma, NoMemory>
    ensures literals { IfOk result (λ l. IsTrue (has_literals (choice 2 2) l)) }
    ensures short { IfOk result (λ l. IsTrue (is_short l)) }
{
    let steps = [
        so(Literal::Loses(0, 1), Reason::Lemma(0)),
        so(Literal::Wins(1, 1), Reason::Outcome(1)),
        so(Literal::Wins(1, 2), axiom_at(0, 1)),
        so(Literal::Wins(0, 2), axiom_at(1, 1)),
    ];
    lemma(alloc, [].as_slice(), steps.as_slice(), Reason::Outcome(2))
}

/// A lemma of two steps.
fn short_lemma(
    alloc: Global,
    suppose: &[Literal],
    one: StoryStep,
    two: StoryStep,
) -> Result<Lemma, NoMemory>
    requires supposed { IsTrue (list_all (is_literal (choice 2 2)) suppose.now) }
    requires few { length suppose.now ≤ 1 }
    requires one { IsTrue (is_literal (choice 2 2) one.literal) }
    requires two { IsTrue (is_literal (choice 2 2) two.literal) }
    ensures literals { IfOk result (λ l. IsTrue (has_literals (choice 2 2) l)) }
    ensures short { IfOk result (λ l. IsTrue (is_short l)) }
{
    lemma(alloc, suppose, [one, two].as_slice(), Reason::Outcome(2))
}

/// That a does not win at ab|ba, by a lemma.
fn by_lemma(place: u32) -> StoryStep
    ensures { result.literal ≡ Literal.Loses 0 1 }
{
    so(Literal::Loses(0, 1), Reason::Lemma(place))
}

fn at(lemma: u32, place: u32, fault: StoryFault) -> Result<(), StoryRefusal> {
    Err(StoryRefusal::Lemma {
        lemma,
        fault: PlacedFault { place, fault },
    })
}

#[test]
fn first_faulty_lines_are_named(rt: HostRuntime) -> Result<(), Fail> {
    let alloc = rt.alloc();
    let forced = so(Literal::Wins(0, 2), axiom_at(0, 0));
    let not_forced = so(Literal::Loses(1, 2), axiom_at(1, 0));
    let found = [
        answer(alloc, &[0, 1], a_does_not_win(alloc), nothing_wins(alloc))?,
        answer(alloc, &[1], a_does_not_win(alloc), nothing_wins(alloc))?,
        answer(
            alloc,
            &[0, 1],
            a_does_not_win(alloc),
            short_lemma(alloc, &[], by_lemma(1), by_lemma(1)),
        )?,
        answer(
            alloc,
            &[0, 1],
            a_does_not_win(alloc),
            short_lemma(alloc, &[], by_lemma(0), by_lemma(0)),
        )?,
        answer(
            alloc,
            &[0, 1],
            a_does_not_win(alloc),
            short_lemma(alloc, &[Literal::Wins(1, 1)], by_lemma(0), by_lemma(0)),
        )?,
        answer(
            alloc,
            &[0, 1],
            short_lemma(alloc, &[Literal::Wins(0, 1)], forced, not_forced),
            nothing_wins(alloc),
        )?,
    ];
    // No rule is anonymous and neutral.
    let wanted = [
        Ok(()),
        at(0, 2, StoryFault::NotInCore),
        at(1, 1, StoryFault::Later),
        at(1, 2, StoryFault::Known),
        at(1, 1, StoryFault::Supposes),
        at(0, 3, StoryFault::NotForced),
    ];
    assert!(rt; found == wanted);
    Ok(())
}

#[test]
fn a_story_has_a_lemma(rt: HostRuntime) -> Result<(), Fail> {
    let alloc = rt.alloc();
    let kind = ChoiceKind::new(Space::new(two_and_two()?));
    let study = study(alloc)?;
    let (core, story) = (Places::new(alloc), Story::new(alloc));
    let setting = Setting {
        kind: &kind,
        study: &study,
    };
    let checkable = CheckableStory {
        setting: &setting,
        core: &core,
        story: &story,
    };
    let answer = check_story(alloc, &checkable);
    assert!(rt; answer == Err(StoryRefusal::Empty));
    Ok(())
}
