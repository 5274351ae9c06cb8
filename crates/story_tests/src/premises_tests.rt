//! How stories are told: that of anonymity and neutrality, with a lemma more in which one sentence says two steps
//! of one shape, or with one within another; and one in which all facts are forced.

ghost use Rattle.std.specs.Prelude.{◌≡◌, ◌≤◌, length, IfOk, IsTrue};
ghost use Rattle.std.specs.List.{list_all};
ghost use Rattle.meaning.specs.Stories.{has_literals};
ghost use Rattle.story.specs.Conditions.{is_short};
ghost use Rattle.meaning.proofs.WorkedExamples.{choice};

use crate::story_tests::{a_does_not_win, axiom_at, lemma, nothing_wins, so, study, two_and_two};
use crate::studies_by_text::of_two_axioms;
use lists::NoMemory;
use meaning::{Lemma, Reason};
use outcomes::{ChoiceKind, Setting};
use premises::{AcceptedStory, tell_story};
use profiles::Space;
use std::alloc::Global;
use std::test::Fail;
use story::{CheckableStory, Story, check_story};
use tellings::StoryTelling;
use vocab::{Env, Literal, Places, Study};

static FORCED: &str =
    "kind = \"choice\"\nvoters = 2\nalternatives = 2\naxioms = [\"pareto\", \"never_a\"]\n\
    [sentences]\nnever_a = \"all p: profile. !wins(@a, p)\"\n";

// The text is handed out by a function, so that the proof of a test need not read it.
fn forced() -> &'static str {
    FORCED
}

/// If a won at neither ab|ba nor ba|ab, then b at both, and so a by neutrality.
fn a_wins_once(alloc: Global) -> Result<Lemma, NoMemory>
    ensures literals { IfOk result (λ l. IsTrue (has_literals (choice 2 2) l)) }
    ensures short { IfOk result (λ l. IsTrue (is_short l)) }
{
    let steps = [
        so(Literal::Wins(1, 1), Reason::Outcome(1)),
        so(Literal::Wins(1, 2), Reason::Outcome(2)),
    ];
    let suppose = [Literal::Loses(0, 1), Literal::Loses(0, 2)];
    lemma(alloc, suppose.as_slice(), steps.as_slice(), axiom_at(1, 1))
}

/// If b won at ab|ba, then it would at ba|ab by anonymity, and a by neutrality. That a does not win there is said
/// by the way.
fn b_does_not_win(alloc: Global) -> Result<Lemma, NoMemory>
    ensures literals { IfOk result (λ l. IsTrue (has_literals (choice 2 2) l)) }
    ensures short { IfOk result (λ l. IsTrue (is_short l)) }
{
    let steps = [
        so(Literal::Loses(0, 1), Reason::Lemma(0)),
        so(Literal::Wins(1, 2), axiom_at(0, 1)),
        so(Literal::Wins(0, 2), axiom_at(1, 1)),
    ];
    let suppose = [Literal::Wins(1, 1)];
    lemma(
        alloc,
        suppose.as_slice(),
        steps.as_slice(),
        Reason::Outcome(2),
    )
}

/// So a wins at ab|ba, and both at ba|ab.
fn a_wins_alone(alloc: Global) -> Result<Lemma, NoMemory>
    ensures literals { IfOk result (λ l. IsTrue (has_literals (choice 2 2) l)) }
    ensures short { IfOk result (λ l. IsTrue (is_short l)) }
{
    let steps = [
        so(Literal::Loses(1, 1), Reason::Lemma(1)),
        so(Literal::Wins(0, 1), Reason::Outcome(1)),
        so(Literal::Wins(0, 2), axiom_at(0, 0)),
        so(Literal::Wins(1, 2), axiom_at(1, 0)),
    ];
    lemma(alloc, [].as_slice(), steps.as_slice(), Reason::Outcome(2))
}

/// At ab|ab an axiom forbids b, and the other one a.
fn both_are_forbidden(alloc: Global) -> Result<Lemma, NoMemory>
    ensures literals { IfOk result (λ l. IsTrue (has_literals (choice 2 2) l)) }
    ensures short { IfOk result (λ l. IsTrue (is_short l)) }
{
    let pareto = Reason::Axiom(0, Env::none().with(0).with(0).with(1));
    let never_a = Reason::Axiom(1, Env::none().with(0));
    let steps = [
        so(Literal::Loses(1, 0), pareto),
        so(Literal::Loses(0, 0), never_a),
    ];
    lemma(alloc, [].as_slice(), steps.as_slice(), Reason::Outcome(0))
}

/// At ab|ab an axiom forbids b, so that a wins, which the other one forbids.
fn a_has_to_win(alloc: Global) -> Result<Lemma, NoMemory>
    ensures literals { IfOk result (λ l. IsTrue (has_literals (choice 2 2) l)) }
    ensures short { IfOk result (λ l. IsTrue (is_short l)) }
{
    let pareto = Reason::Axiom(0, Env::none().with(0).with(0).with(1));
    let never_a = Reason::Axiom(1, Env::none().with(0));
    let steps = [
        so(Literal::Loses(1, 0), pareto),
        so(Literal::Wins(0, 0), Reason::Outcome(0)),
    ];
    lemma(alloc, [].as_slice(), steps.as_slice(), never_a)
}

/// How a story over two axioms is told, if it is accepted.
fn told(alloc: Global, study: &Study, story: &Story) -> Result<StoryTelling, Fail>
    requires size { study.now.size ≡ choice 2 2 }
    requires axioms { length study.now.axioms ≡ 2 }
    requires literals { IsTrue (list_all (has_literals (choice 2 2)) story.now) }
    requires short { IsTrue (list_all is_short story.now) }
    requires few { length story.now ≤ 3 }
{
    let kind = ChoiceKind::new(Space::new(two_and_two()?));
    let mut core = Places::new(alloc);
    core.append(&[0, 1])?;
    let setting = Setting { kind: &kind, study };
    let checkable = CheckableStory {
        setting: &setting,
        core: &core,
        story,
    };
    match check_story(alloc, &checkable) {
        Ok(()) => {}
        Err(_) => return Err(Fail::from("refused")),
    }
    let accepted = AcceptedStory {
        setting: &setting,
        core: &core,
        story,
    };
    Ok(tell_story(alloc, &accepted)?)
}

/// How a story of these two lemmas over what forces all facts is told.
fn told_of_two(alloc: Global, first: Lemma, second: Lemma) -> Result<StoryTelling, Fail>
    requires first_literals { IsTrue (has_literals (choice 2 2) first) }
    requires first_short { IsTrue (is_short first) }
    requires second_literals { IsTrue (has_literals (choice 2 2) second) }
    requires second_short { IsTrue (is_short second) }
{
    let study = of_two_axioms(alloc, forced(), two_and_two()?)?;
    let mut story = Story::new(alloc);
    story.push(first)?;
    story.push(second)?;
    told(alloc, &study, &story)
}

/// Of the facts that are forced and of each lemma how many sentences there are and how many steps, and for each
/// lemma the one within which it stands.
fn summary(told: &StoryTelling) -> ([(usize, usize); 4], [Option<usize>; 3]) {
    let mut counts = [(0, 0); 4];
    let mut homes = [None; 3];
    counts[0] = (told.forced.sentences.len(), told.forced.steps.len());
    for place in 0..told.lemmas.len().min(3) {
        let passage = &told.lemmas.get(place).passage;
        counts[place + 1] = (passage.sentences.len(), passage.steps.len());
    }
    for place in 0..told.homes.len().min(3) {
        homes[place] = *told.homes.get(place);
    }
    (counts, homes)
}

#[test]
fn steps_of_one_shape_are_one_sentence(rt: HostRuntime) -> Result<(), Fail> {
    let alloc = rt.alloc();
    let study = study(alloc)?;
    let (first, second, third) = (
        a_does_not_win(alloc)?,
        a_wins_once(alloc)?,
        nothing_wins(alloc)?,
    );
    let mut story = Story::new(alloc);
    story.push(first)?;
    story.push(second)?;
    story.push(third)?;
    let (counts, homes) = summary(&told(alloc, &study, &story)?);
    assert!(rt; counts == [(0, 0), (2, 2), (1, 2), (4, 4)]);
    assert!(rt; homes == [Some(2), None, None]);
    Ok(())
}

#[test]
fn lemmas_that_are_used_once_stand_one_within_another(rt: HostRuntime) -> Result<(), Fail> {
    let alloc = rt.alloc();
    let study = study(alloc)?;
    let (first, second, third) = (
        a_does_not_win(alloc)?,
        b_does_not_win(alloc)?,
        a_wins_alone(alloc)?,
    );
    let mut story = Story::new(alloc);
    story.push(first)?;
    story.push(second)?;
    story.push(third)?;
    let (_, homes) = summary(&told(alloc, &study, &story)?);
    assert!(rt; homes == [Some(1), Some(2), None]);
    Ok(())
}

#[test]
fn forced_facts_are_not_told_again(rt: HostRuntime) -> Result<(), Fail> {
    let alloc = rt.alloc();
    let told = told_of_two(
        alloc,
        both_are_forbidden(alloc)?,
        both_are_forbidden(alloc)?,
    )?;
    let (counts, homes) = summary(&told);
    assert!(rt; counts == [(2, 2), (0, 0), (0, 0), (0, 0)]);
    assert!(rt; homes == [None, None, None]);
    Ok(())
}

#[test]
fn what_forced_facts_force_is_not_told_again(rt: HostRuntime) -> Result<(), Fail> {
    let alloc = rt.alloc();
    let told = told_of_two(alloc, a_has_to_win(alloc)?, a_has_to_win(alloc)?)?;
    let (counts, homes) = summary(&told);
    assert!(rt; counts == [(2, 2), (0, 0), (0, 0), (0, 0)]);
    assert!(rt; homes == [None, None, None]);
    Ok(())
}

#[test]
fn facts_of_one_lemma_stand_in_it(rt: HostRuntime) -> Result<(), Fail> {
    let alloc = rt.alloc();
    let study = of_two_axioms(alloc, forced(), two_and_two()?)?;
    let only = a_has_to_win(alloc)?;
    let mut story = Story::new(alloc);
    story.push(only)?;
    let (counts, homes) = summary(&told(alloc, &study, &story)?);
    assert!(rt; counts == [(0, 0), (2, 2), (0, 0), (0, 0)]);
    assert!(rt; homes == [None, None, None]);
    Ok(())
}
