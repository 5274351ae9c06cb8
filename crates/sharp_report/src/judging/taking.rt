//! Reads a line, and takes it.

ghost use Rattle.std.specs.Prelude.{◌≢◌, ◌+◌, ℕ, [], ◌∷◌, IfOk, Some};
ghost use Rattle.sharp_verdicts.specs.SharpJudge.{sharp_judge_from};
ghost use Rattle.sharp_verdicts.specs.SharpPlaces.{SharpStanding};
ghost use Rattle.sharp_report.specs.SharpStands.{SharpStands, IsReadWithin, IsSharpRead, IsSharpTaken, SharpStandsAs};

use crate::faults::SharpFault;
use crate::judging::SharpJudging;
use crate::lines::SharpLine;
use crate::places::SharpPlace;
use crew::Crew;
use edge::Gate;
use lists::NoMemory;
use outcomes::OutcomeKind;
use report::Subject;
use sharp_verdicts::SharpRefusal;
use std::thread::Threads;
use verdicts::Refusal;

impl SharpJudging {
    /// Reads the next line, which has this number, at the place, and takes it: None where it has no fault.
    pub(crate) fn judge<R: Threads + Sync, G: Gate, K: OutcomeKind>(
        &mut self,
        crew: &Crew<R, G>,
        subject: &Subject<K>,
        line: u32,
        text: &[u8],
    ) -> Option<SharpFault>
        requires read { IsSharpRead subject.now.setting.study.now self.old }
        ensures { (s : SharpStanding) (count : ℕ) → SharpStands subject.now.setting.study.now self.old s →
            IsReadWithin subject.now.setting.study.now count s →
            result ≢ Some SharpFault.NoMemory →
            SharpStandsAs subject.now.setting.study.now (count + 1) result self.new
            (sharp_judge_from subject.now.setting.study.now line s (text.now ∷ [])) }
    {
        match self.take_line(crew, subject, text) {
            Ok(Ok(_)) => None,
            Ok(Err(refusal)) => Some(SharpFault::Line { line, refusal }),
            Err(NoMemory) => Some(SharpFault::NoMemory),
        }
    }

    /// Reads the next line, without its line end, at the place, and takes it: what it says where it has no
    /// fault, and then its part is held with what was held; else its refusal.
    pub fn take_line<R: Threads + Sync, G: Gate, K: OutcomeKind>(
        &mut self,
        crew: &Crew<R, G>,
        subject: &Subject<K>,
        text: &[u8],
    ) -> Result<Result<SharpLine, SharpRefusal>, NoMemory>
        requires read { IsSharpRead subject.now.setting.study.now self.old }
        ensures { (s : SharpStanding) → SharpStands subject.now.setting.study.now self.old s →
            IfOk result (IsSharpTaken subject.now.setting.study.now s text.now self.new) }
    {
        match self.place {
            SharpPlace::AtSharp => self.take_title(crew, subject, text),
            SharpPlace::AtReport => self.take_report(crew, subject, text),
            SharpPlace::AtInstances => self.take_instances(subject, text),
            SharpPlace::AtNeed => Ok(self.take_need(subject, text)),
            SharpPlace::AtNeedRow => self.take_row(subject, text),
            SharpPlace::AtSharpEnd => Ok(self.take_end(subject, text)),
            SharpPlace::AtSharpNothing => Ok(Err(SharpRefusal::Report(Refusal::Form))),
        }
    }
}
