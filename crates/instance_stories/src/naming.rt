//! A story over the study of some instances, named back to their axioms and values.

ghost use Rattle.std.specs.Prelude.{◌≡◌, map, IfOk};
ghost use Rattle.instance_stories.specs.Named.{named_back, step_named, lemma_named, story_named};

use instance_studies::{StudyInstances, values_of};
use lists::{Items, NoMemory};
use meaning::{Lemma, Reason, Steps, StoryStep};
use std::alloc::Global;
use story::Story;

/// A reason by an axiom of the derived study, as one by its instance.
fn reason_named(instances: &StudyInstances, reason: &Reason) -> Reason
    ensures { result ≡ named_back instances.now.study.now instances.now.cited.now reason.now }
{
    match *reason {
        Reason::Axiom(k, _) => {
            if k as usize >= instances.cited.len() {
                return Reason::Outcome(0);
            }
            let cited = *instances.cited.get(k as usize);
            let values = values_of(instances.space, instances.study, cited);
            Reason::Axiom(cited.axiom, values)
        }
        Reason::Outcome(p) => Reason::Outcome(p),
        Reason::Lemma(j) => Reason::Lemma(j),
    }
}

/// Steps with their reasons named back.
fn steps_named(
    alloc: Global,
    instances: &StudyInstances,
    steps: &[StoryStep],
) -> Result<Steps, NoMemory>
    ensures { IfOk result
        (λ named. named ≡ map (step_named instances.now.study.now instances.now.cited.now) steps.now) }
{
    let mut named = Items::with_room(alloc, steps.len())?;
    for step in steps {
        named.push(StoryStep {
            literal: step.literal,
            reason: reason_named(instances, &step.reason),
        })?;
    }
    Ok(named)
}

/// A lemma with its reasons named back.
fn lemma_named(alloc: Global, instances: &StudyInstances, lemma: &Lemma) -> Result<Lemma, NoMemory>
    ensures { IfOk result
        (λ named. named ≡ lemma_named instances.now.study.now instances.now.cited.now lemma.now) }
{
    let mut suppose = Items::with_room(alloc, lemma.suppose.len())?;
    suppose.append(lemma.suppose.as_slice())?;
    let steps = steps_named(alloc, instances, lemma.steps.as_slice())?;
    Ok(Lemma {
        suppose,
        steps,
        last: reason_named(instances, &lemma.last),
    })
}

/// A story over the study of some instances, each of whose reasons by an axiom is named back to the axiom and
/// the values of its instance.
pub fn story_named(
    alloc: Global,
    instances: &StudyInstances,
    story: &Story,
) -> Result<Story, NoMemory>
    ensures { IfOk result
        (λ named. named ≡ story_named instances.now.study.now instances.now.cited.now story.now) }
{
    let mut named = Items::with_room(alloc, story.len())?;
    for lemma in story.as_slice() {
        named.push(lemma_named(alloc, instances, lemma)?)?;
    }
    Ok(named)
}
