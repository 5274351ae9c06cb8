//! Pages made from sharp verdicts.

ghost use Rattle.std.specs.Prelude.{◌≡◌, ◌++◌, [], IfOk, OnOk};
ghost use Rattle.tellings.specs.Tellings.{IsStoryTold};
ghost use Rattle.verdicts.specs.declared.verdicts.Verdict.TheVariants.{Impossible};
ghost use Rattle.sharp_verdicts.specs.Right.{IsSharpRight};
ghost use Rattle.sharp_pages.specs.SharpPages.{IsSharpPage, sharp_html, sharp_page_of};

use crate::instances::put_instances;
use html::Html;
use lists::{Items, NoMemory};
use meaning::{Lemma, Witnesses};
use outcomes::{OutcomeKind, Setting};
use pages::{About, Source, put_check, put_front, put_proved};
use premises::{AcceptedStory, tell_story};
use sharp_verdicts::Instances;
use std::alloc::Global;
use tellings::StoryTelling;
use verdicts::Verdict;
use vocab::Places;

/// What the page claims: that no rule satisfies the axioms of the core.
fn claim_of(alloc: Global, core: &Places) -> Result<Verdict, NoMemory>
    ensures { IfOk result (λ claim. claim ≡ Impossible core.now [] []) }
{
    let mut copy = Items::new(alloc);
    copy.append(core.as_slice())?;
    Ok(Verdict::Impossible {
        core: copy,
        story: Items::new(alloc),
        witnesses: Items::new(alloc),
    })
}

/// What a sharp text says.
#[derive(Clone, Copy)]
struct Sharp<'a> {
    core: &'a Places,
    story: &'a Items<Lemma>,
    instances: &'a Instances,
    marks: &'a Witnesses,
}

/// Adds the page that claims so, of what a sharp text says.
fn put_whole<K: OutcomeKind>(
    alloc: Global,
    out: &mut Html,
    kind: &K,
    about: &About,
    claim: &Verdict,
    source: &Source,
    told: &StoryTelling,
    sharp: &Sharp,
) -> Result<(), NoMemory>
    ensures { OnOk result (out.new ≡ out.old ++
        sharp_html (K.size kind.now) about.now.axioms.now claim.now
        source.now.study.now source.now.report.now source.now.version.now told.now (record {
          core = sharp.now.core.now;
          story = sharp.now.story.now;
          instances = sharp.now.instances.now;
          marks = sharp.now.marks.now;
        })) }
{
    put_front(out, kind.space(), about, claim)?;
    put_proved(
        alloc,
        out,
        kind.space(),
        about,
        sharp.core.as_slice(),
        sharp.story.as_slice(),
        told,
    )?;
    put_instances(
        out,
        about.axioms,
        sharp.instances.as_slice(),
        sharp.marks.as_slice(),
    )?;
    put_check(alloc, out, source)?;
    out.append(b"</body></html>\n")?;
    Ok(())
}

/// Adds the page of a sharp verdict, whose story is told so.
fn put_page<K: OutcomeKind>(
    alloc: Global,
    out: &mut Html,
    setting: &Setting<K>,
    source: &Source,
    told: &StoryTelling,
    sharp: &Sharp,
) -> Result<(), NoMemory>
    ensures { OnOk result (out.new ≡ out.old ++
        sharp_page_of setting.now.study.now source.now.study.now source.now.report.now
        source.now.version.now told.now (record {
          core = sharp.now.core.now;
          story = sharp.now.story.now;
          instances = sharp.now.instances.now;
          marks = sharp.now.marks.now;
        })) }
{
    let claim = claim_of(alloc, sharp.core)?;
    let about = About::of(setting.study.axioms().as_slice())?;
    put_whole(
        alloc,
        out,
        setting.kind,
        &about,
        &claim,
        source,
        told,
        sharp,
    )?;
    Ok(())
}

/// The page of a right sharp verdict on a study: its core, its story, the instances that the story cites, and a
/// mark for each. The only error is want of memory; what is given is whole.
pub fn sharp_page_text<K: OutcomeKind>(
    alloc: Global,
    setting: &Setting<K>,
    source: &Source,
    core: &Places,
    story: &Items<Lemma>,
    instances: &Instances,
    marks: &Witnesses,
) -> Result<Html, NoMemory>
    requires right { IsSharpRight setting.now.study.now (record {
      core = core.now;
      story = story.now;
      instances = instances.now;
      marks = marks.now;
    }) }
    ensures { IfOk result (IsSharpPage setting.now.study.now source.now.study.now source.now.report.now
        source.now.version.now
        (record {
          core = core.now;
          story = story.now;
          instances = instances.now;
          marks = marks.now;
        })) }
{
    let accepted = AcceptedStory {
        setting: &*setting,
        core,
        story,
    };
    let told = tell_story(alloc, &accepted)?;
    let sharp = Sharp {
        core,
        story,
        instances,
        marks,
    };
    let mut page = Html::new(alloc);
    put_page(alloc, &mut page, setting, source, &told, &sharp)?;
    Ok(page)
}
