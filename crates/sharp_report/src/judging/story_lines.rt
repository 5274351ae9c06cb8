//! Takes the title, the lines of the report, and the number of instances.

ghost use Rattle.std.specs.Prelude.{◌≡◌, IfOk, if◌then◌else◌};
ghost use Rattle.verdicts.specs.Places.{Place as WantedPlace};
ghost use Rattle.report_lines.specs.Held.{held_place};
ghost use Rattle.sharp_verdicts.specs.SharpPlaces.{SharpStanding, AtSharp, AtReport, AtInstances, is_story_read};
ghost use Rattle.sharp_report.specs.Cited.{says_possible};
ghost use Rattle.sharp_report.specs.SharpStands.{held_sharp_place, own_title, SharpStands, IsSharpRead, IsSharpTaken};

use crate::citing::{cite, have_axioms, listed};
use crate::judging::SharpJudging;
use crate::lines::SharpLine;
use crate::places::SharpPlace;
use crew::Crew;
use edge::Gate;
use lists::NoMemory;
use outcomes::OutcomeKind;
use report::Subject;
use report_lines::{Line, Place};
use sharp_lines::{is_title, read_instances};
use sharp_verdicts::SharpRefusal;
use std::thread::Threads;
use verdicts::Refusal;
use vocab::Study;

/// The title of a report of the version that is printed.
fn own_title(study: &Study) -> &[u8]
    ensures { result.now ≡ own_title study.now }
{
    if study.size().full() {
        b"bench report 1"
    } else {
        b"bench report 2"
    }
}

/// Whether a line says that some rule satisfies all axioms.
fn says_possible(line: &Line) -> bool
    ensures { result ≡ says_possible line.now }
{
    matches!(line, Line::SaysPossible)
}

/// The place after a line of the report, after which the report is at this place.
fn after_report(place: Place) -> SharpPlace
    ensures { (p : WantedPlace) → place ≡ held_place p →
        result ≡ held_sharp_place (if is_story_read p then AtInstances else AtReport) }
{
    match place {
        Place::AtWitness => SharpPlace::AtInstances,
        Place::AtEnd(_) => SharpPlace::AtInstances,
        _ => SharpPlace::AtReport,
    }
}

impl SharpJudging {
    /// Takes the title, which counts as that of the report that is printed.
    pub(crate) fn take_title<R: Threads + Sync, G: Gate, K: OutcomeKind>(
        &mut self,
        crew: &Crew<R, G>,
        subject: &Subject<K>,
        text: &[u8],
    ) -> Result<Result<SharpLine, SharpRefusal>, NoMemory>
        requires read { IsSharpRead subject.now.setting.study.now self.old }
        ensures { (s : SharpStanding) → SharpStands subject.now.setting.study.now self.old s →
            s.place ≡ AtSharp →
            IfOk result (IsSharpTaken subject.now.setting.study.now s text.now self.new) }
    {
        if !is_title(text) {
            return Ok(Err(SharpRefusal::Report(Refusal::Form)));
        }
        let own = own_title(subject.setting.study);
        let taken = self.told.take_line(crew, subject, own)?;
        match taken {
            Ok(_) => {
                self.place = SharpPlace::AtReport;
                Ok(Ok(SharpLine::Title))
            }
            Err(refusal) => Ok(Err(SharpRefusal::Report(refusal))),
        }
    }

    /// Takes a line of the report, and keeps the number of the instance that it cites.
    pub(crate) fn take_report<R: Threads + Sync, G: Gate, K: OutcomeKind>(
        &mut self,
        crew: &Crew<R, G>,
        subject: &Subject<K>,
        text: &[u8],
    ) -> Result<Result<SharpLine, SharpRefusal>, NoMemory>
        requires read { IsSharpRead subject.now.setting.study.now self.old }
        ensures { (s : SharpStanding) → SharpStands subject.now.setting.study.now self.old s →
            s.place ≡ AtReport →
            IfOk result (IsSharpTaken subject.now.setting.study.now s text.now self.new) }
    {
        let taken = self.told.take_line(crew, subject, text)?;
        match taken {
            Ok(line) => {
                if says_possible(&line) {
                    return Ok(Err(SharpRefusal::Report(Refusal::Form)));
                }
                let space = subject.setting.kind.space();
                cite(space, subject.setting.study, &line, &mut self.cited)?;
                self.place = after_report(self.told.place());
                Ok(Ok(SharpLine::Plain(line)))
            }
            Err(refusal) => Ok(Err(SharpRefusal::Report(refusal))),
        }
    }

    /// Takes the number of the instances that the story cites, each axiom of whose core has to be cited.
    pub(crate) fn take_instances<K: OutcomeKind>(
        &mut self,
        subject: &Subject<K>,
        text: &[u8],
    ) -> Result<Result<SharpLine, SharpRefusal>, NoMemory>
        requires read { IsSharpRead subject.now.setting.study.now self.old }
        requires place { self.old.place ≡ held_sharp_place AtInstances }
        ensures { (s : SharpStanding) → SharpStands subject.now.setting.study.now self.old s →
            s.place ≡ AtInstances →
            IfOk result (IsSharpTaken subject.now.setting.study.now s text.now self.new) }
    {
        let Some(count) = read_instances(text) else {
            return Ok(Err(SharpRefusal::Report(Refusal::Form)));
        };
        self.instances = listed(subject.alloc, subject.setting.study, &mut self.cited)?;
        if !have_axioms(&self.instances, self.told.core()) {
            return Ok(Err(SharpRefusal::Report(Refusal::Core)));
        }
        if count != self.instances.as_slice().len() as u64 {
            return Ok(Err(SharpRefusal::Instance));
        }
        self.after_mark(subject.alloc);
        Ok(Ok(SharpLine::InstancesAre))
    }
}
