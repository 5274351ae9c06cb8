//! The instances and the axioms that a story cites.

ghost use Rattle.std.specs.Prelude.{◌≡◌, ◌≤◌, ◌++◌, All, map, IfOk, OnOk, IsTrue};
ghost use Rattle.std.specs.List.{list_all};
ghost use Rattle.std.specs.List.{list_any};
ghost use Rattle.sharp_verdicts.specs.Instances.{cites_axiom, is_axiom_told, reasons_of, instances_of, core_of};
ghost use Rattle.told_instances.specs.Told.{codes_in, codes_by, codes_told, names_instance, has_reasons};

use crate::numbers::code_of_reason;
use instance_stories::rising;
use lists::{Items, NoMemory};
use meaning::{Lemma, Reason, StoryStep};
use profiles::Space;
use sharp_verdicts::Instances;
use std::alloc::Global;
use vocab::{Places, Study};

/// Appends the number of the instance that a reason cites.
fn push_reason(
    space: &Space,
    study: &Study,
    reason: &Reason,
    codes: &mut Vec<u64>,
) -> Result<(), NoMemory>
    requires size { study.now.size ≡ space.now }
    requires reason { IsTrue (names_instance study.now reason.now) }
    ensures { OnOk result (codes.new.items ≡ codes.old.items ++ codes_in study.now reason.now) }
{
    if let Some(code) = code_of_reason(space, study, reason) {
        codes.push(code)?;
    }
    Ok(())
}

/// Appends the numbers of the instances that some steps cite.
fn push_steps(
    space: &Space,
    study: &Study,
    steps: &[StoryStep],
    codes: &mut Vec<u64>,
) -> Result<(), NoMemory>
    requires size { study.now.size ≡ space.now }
    requires reasons { IsTrue (list_all (λ step. names_instance study.now step.reason) steps.now) }
    ensures { OnOk result
        (codes.new.items ≡ codes.old.items ++ codes_by study.now (map (λ step. step.reason) steps.now)) }
{
    for step in steps {
        push_reason(space, study, &step.reason, codes)?;
    }
    Ok(())
}

/// The numbers of the instances that a story cites, in its order.
fn codes_of(
    alloc: Global,
    space: &Space,
    study: &Study,
    story: &[Lemma],
) -> Result<Vec<u64>, NoMemory>
    requires size { study.now.size ≡ space.now }
    requires reasons { IsTrue (has_reasons study.now story.now) }
    ensures { IfOk result (λ codes. codes.items ≡ codes_told study.now story.now) }
{
    let mut codes = Vec::new(alloc);
    for lemma in story {
        push_steps(space, study, lemma.steps.as_slice(), &mut codes)?;
        push_reason(space, study, &lemma.last, &mut codes)?;
    }
    Ok(codes)
}

/// The instances that a story cites, by axiom and number, each once. Its reasons name what there is.
pub fn instances_told(
    alloc: Global,
    space: &Space,
    study: &Study,
    story: &[Lemma],
) -> Result<Instances, NoMemory>
    requires size { study.now.size ≡ space.now }
    requires reasons { IsTrue (has_reasons study.now story.now) }
    ensures { IfOk result (λ instances. instances ≡ instances_of study.now story.now) }
{
    // Its contract says that the study is one.
    let _axioms = study.axioms();
    let mut codes = codes_of(alloc, space, study, story)?;
    let instances = rising(alloc, &mut codes)?;
    Ok(instances)
}

fn cites_axiom(reason: &Reason, k: u32) -> bool
    ensures { result ≡ cites_axiom k reason.now }
{
    match reason {
        Reason::Axiom(j, _) => *j == k,
        Reason::Outcome(_) | Reason::Lemma(_) => false,
    }
}

fn steps_cite(steps: &[StoryStep], k: u32) -> bool
    ensures { result ≡ list_any (λ step. cites_axiom k step.reason) steps.now }
{
    steps.iter().any(|step| cites_axiom(&step.reason, k))
}

fn lemma_cites(lemma: &Lemma, k: u32) -> bool
    ensures { result ≡ list_any (cites_axiom k) (reasons_of lemma.now) }
{
    steps_cite(lemma.steps.as_slice(), k) || cites_axiom(&lemma.last, k)
}

/// Whether a story cites the axiom at a place.
fn is_told(story: &[Lemma], k: u32) -> bool
    ensures { result ≡ is_axiom_told story.now k }
{
    for lemma in story {
        if lemma_cites(lemma, k) {
            return true;
        }
    }
    false
}

/// The axioms that a story cites, in the order of the study.
pub fn axioms_told(alloc: Global, study: &Study, story: &[Lemma]) -> Result<Places, NoMemory>
    ensures { IfOk result (λ core. core ≡ core_of study.now story.now) }
{
    let mut core = Items::new(alloc);
    for k in 0..study.axioms().len() {
        if is_told(story, k as u32) {
            core.push(k as u32)?;
        }
    }
    Ok(core)
}
