//! Pages made from verdicts.

ghost use Rattle.std.specs.Prelude.{IsTrue, IfOk};
ghost use Rattle.tellings.specs.Tellings.{IsStoryTold};
ghost use Rattle.verdicts.specs.declared.verdicts.Verdict.TheVariants.{Impossible};
ghost use Rattle.verdicts.specs.Report.{is_right};
ghost use Rattle.pages.specs.Told.{IsToldBy, IsPage};

use crate::page::{Source, put_page};
use html::Html;
use lists::{Items, NoMemory};
use meaning::{Lemma, Witnesses};
use outcomes::{OutcomeKind, Setting};
use premises::{AcceptedStory, tell_story};
use std::alloc::Global;
use tellings::{Passage, StoryTelling};
use verdicts::Verdict;
use vocab::Places;

/// No story.
fn untold(alloc: Global) -> StoryTelling {
    StoryTelling {
        forced: Passage {
            sentences: Items::new(alloc),
            steps: Items::new(alloc),
        },
        lemmas: Items::new(alloc),
        homes: Items::new(alloc),
    }
}

/// How the story of a right impossibility is told.
fn tell<K: OutcomeKind>(
    alloc: Global,
    setting: &Setting<K>,
    core: &Places,
    story: &Items<Lemma>,
    witnesses: &Witnesses,
) -> Result<StoryTelling, NoMemory>
    requires right { IsTrue (is_right setting.now.study.now (Impossible core.now story.now witnesses.now)) }
    ensures { IfOk result (IsStoryTold setting.now.study.now.size setting.now.study.now.axioms
        core.now story.now) }
{
    let _marks = witnesses.len();
    let accepted = AcceptedStory {
        setting,
        core,
        story,
    };
    tell_story(alloc, &accepted)
}

/// How the story of a right verdict is told, if it has one.
fn telling_of<K: OutcomeKind>(
    alloc: Global,
    setting: &Setting<K>,
    verdict: &Verdict,
) -> Result<StoryTelling, NoMemory>
    requires right { IsTrue (is_right setting.now.study.now verdict.now) }
    ensures { IfOk result (IsToldBy setting.now.study.now.size setting.now.study.now.axioms verdict.now) }
{
    match verdict {
        Verdict::Possible(_) => Ok(untold(alloc)),
        Verdict::Impossible {
            core,
            story,
            witnesses,
        } => tell(alloc, setting, core, story, witnesses),
        Verdict::Undecided => Ok(untold(alloc)),
    }
}

/// The page of a right verdict on a study. The only error is want of memory; what is given is whole.
pub fn page_text<K: OutcomeKind>(
    alloc: Global,
    setting: &Setting<K>,
    source: &Source,
    verdict: &Verdict,
) -> Result<Html, NoMemory>
    requires right { IsTrue (is_right setting.now.study.now verdict.now) }
    ensures { IfOk result (IsPage setting.now.study.now source.now.study.now source.now.report.now
        source.now.version.now verdict.now) }
{
    let told = telling_of(alloc, setting, verdict)?;
    let mut page = Html::new(alloc);
    put_page(alloc, &mut page, setting, source, &told, verdict)?;
    Ok(page)
}
