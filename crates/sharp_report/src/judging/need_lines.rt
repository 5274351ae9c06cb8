//! Takes the lines with which marks begin.

ghost use Rattle.std.specs.Prelude.{◌≡◌, ◌<◌, ℕ, IsTrue};
ghost use Rattle.verdicts.specs.Numbers.{saturated};
ghost use Rattle.sharp_verdicts.specs.SharpFaults.{next_instance, instance_fault, unless_of};
ghost use Rattle.sharp_verdicts.specs.SharpLines.{NeedsRule, NeedsOpen};
ghost use Rattle.sharp_verdicts.specs.SharpPlaces.{SharpStanding, AtNeed};
ghost use Rattle.sharp_verdicts.specs.declared.refusals.SharpRefusal.{SharpRefusal as Fault};
ghost use Rattle.sharp_report.specs.SharpStands.{SharpStands, IsSharpTaken, SharpTook};
ghost use Rattle.told_instances.specs.Told.{names_instance};

use crate::failing::is_same;
use crate::judging::SharpJudging;
use crate::lines::{SharpLine, told_unless};
use crate::places::SharpPlace;
use meaning::Reason;
use outcomes::OutcomeKind;
use report::Subject;
use sharp_lines::{Need, read_need};
use sharp_verdicts::SharpRefusal;
use told_instances::instance_of_reason;
use verdicts::Refusal;

impl SharpJudging {
    /// Takes the line with which the mark of an instance begins.
    pub(crate) fn take_need<K: OutcomeKind>(
        &mut self,
        subject: &Subject<K>,
        text: &[u8],
    ) -> Result<SharpLine, SharpRefusal>
        ensures { (s : SharpStanding) → SharpStands subject.now.setting.study.now self.old s →
            s.place ≡ AtNeed →
            IsSharpTaken subject.now.setting.study.now s text.now self.new result }
    {
        let Some(need) = read_need(&subject.indexed, subject.setting.kind.space(), text) else {
            return Err(SharpRefusal::Report(Refusal::Form));
        };
        match need {
            Need::Rule(reason, count) => {
                let fault = self.take_rule(subject, &reason, count);
                told_unless(fault, SharpLine::NeedsRule)
            }
            Need::Open(reason, limit) => {
                let fault = self.take_open(subject, &reason, limit);
                told_unless(fault, SharpLine::NeedsOpen)
            }
        }
    }

    /// Takes the first line of a mark that is a rule.
    fn take_rule<K: OutcomeKind>(
        &mut self,
        subject: &Subject<K>,
        reason: &Reason,
        count: u64,
    ) -> Option<SharpRefusal>
        requires reason { IsTrue (names_instance subject.now.setting.study.now reason.now) }
        ensures { (s : SharpStanding) (n : ℕ) → SharpStands subject.now.setting.study.now self.old s →
            s.place ≡ AtNeed → count ≡ saturated n →
            SharpTook subject.now.setting.study.now s (NeedsRule reason.now n) self.new result }
    {
        let due = self.is_next(subject, reason);
        if !due {
            return Some(SharpRefusal::Instance);
        }
        if count != subject.setting.kind.space().count() as u64 {
            return Some(SharpRefusal::Report(Refusal::Row));
        }
        self.place = SharpPlace::AtNeedRow;
        None
    }

    /// Takes an open mark.
    fn take_open<K: OutcomeKind>(
        &mut self,
        subject: &Subject<K>,
        reason: &Reason,
        limit: u64,
    ) -> Option<SharpRefusal>
        requires reason { IsTrue (names_instance subject.now.setting.study.now reason.now) }
        ensures { (s : SharpStanding) (n : ℕ) → SharpStands subject.now.setting.study.now self.old s →
            s.place ≡ AtNeed → limit ≡ saturated n →
            SharpTook subject.now.setting.study.now s (NeedsOpen reason.now n) self.new result }
    {
        if !self.is_next(subject, reason) {
            return Some(SharpRefusal::Instance);
        }
        if limit != subject.setting.study.conflicts() as u64 {
            return Some(SharpRefusal::Report(Refusal::OpenMark));
        }
        self.marks += 1;
        self.after_mark(subject.alloc);
        None
    }

    /// Whether a reason cites the instance whose mark comes next.
    fn is_next<K: OutcomeKind>(&self, subject: &Subject<K>, reason: &Reason) -> bool
        requires reason { IsTrue (names_instance subject.now.setting.study.now reason.now) }
        ensures fault { (s : SharpStanding) → SharpStands subject.now.setting.study.now self.now s →
            s.place ≡ AtNeed →
            instance_fault subject.now.setting.study.now (next_instance subject.now.setting.study.now s)
            reason.now ≡ unless_of result Fault.Instance }
        ensures few { IsTrue result → self.now.marks < 18446744073709551615 }
    {
        let Some(next) = self.next_instance() else {
            return false;
        };
        let space = subject.setting.kind.space();
        match instance_of_reason(space, subject.setting.study, reason) {
            Some(cited) => is_same(&cited, &next),
            None => false,
        }
    }
}
