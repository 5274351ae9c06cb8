//! Sharpening.

ghost use Rattle.std.specs.Prelude.{IfOk};
ghost use Rattle.sharp_verdicts.specs.Sharpened.{IsSharpened};
ghost use Rattle.instance_stories.specs.Derived.{IsDerivedFrom};
ghost use Rattle.instance_cores.specs.Cores.{IsReducedTo};

use crate::marking::marks_of;
use core_reduce::Reduced;
use crew::Crew;
use edge::Gate;
use instance_cores::{RefutedStudy, instances_cited, reduce_instances};
use instance_stories::story_named;
use instance_studies::{StudyInstances, derive};
use lists::NoMemory;
use outcomes::{OutcomeKind, Setting};
use retell::retell_simply;
use sharp_verdicts::{Instances, Sharp};
use std::alloc::Global;
use std::thread::Threads;
use told_instances::{axioms_told, instances_told};
use vocab::Study;

/// The story of a refutation of instances, named back, with the instances that it cites and their marks.
///
/// `derived` is the study of `instances`, over which the refutation is.
fn tell<K: OutcomeKind>(
    alloc: Global,
    setting: &Setting<K>,
    derived: &Study,
    instances: Instances,
    reduced: Reduced,
) -> Result<Sharp, NoMemory>
    requires derived { IsDerivedFrom setting.now.study.now instances derived.now }
    requires reduced { IsReducedTo derived.now reduced }
    ensures { IfOk result (IsSharpened setting.now.study.now) }
{
    let kind = setting.kind;
    let study = setting.study;
    // Its contract says that the study is one.
    let _axioms = study.axioms();
    let Reduced { refutation, logs } = reduced;
    let derived_setting = Setting {
        kind,
        study: derived,
    };
    let told = retell_simply(
        alloc,
        &derived_setting,
        &refutation.core,
        &refutation.clauses,
        &refutation.proof,
    )?;
    let cited = StudyInstances {
        space: kind.space(),
        study,
        cited: &instances,
    };
    let story = story_named(alloc, &cited, &told)?;
    let listed = instances_told(alloc, kind.space(), study, story.as_slice())?;
    let marks = marks_of(
        alloc,
        &instances,
        &refutation.core,
        &refutation.witnesses,
        &listed,
    )?;
    let core = axioms_told(alloc, study, story.as_slice())?;
    Ok(Sharp {
        core,
        story,
        instances: listed,
        marks,
        derived: instances,
        logs,
    })
}

/// Makes a story of a refutation in which each instance is needed, or marked open: the instances of which
/// the proof names a clause become axioms of a study of their own, over which the proof is reduced and told
/// again.
pub fn sharpen<R: Threads + Sync, K: OutcomeKind, G: Gate>(
    alloc: Global,
    crew: &Crew<R, G>,
    refuted: &RefutedStudy<K>,
) -> Result<Sharp, NoMemory>
    ensures { IfOk result (IsSharpened refuted.now.setting.now.study.now) }
{
    let setting = refuted.setting;
    let instances = instances_cited(alloc, refuted)?;
    let cited = StudyInstances {
        space: setting.kind.space(),
        study: setting.study,
        cited: &instances,
    };
    let derived = derive(alloc, &cited)?;
    let reduced = reduce_instances(alloc, crew, refuted, &instances, &derived)?;
    tell(alloc, setting, &derived, instances, reduced)
}
