//! Takes the rows of marks, and the end.

ghost use Rattle.std.specs.Prelude.{◌≡◌, IfOk, IsTrue};
ghost use Rattle.meaning.specs.Truth.{is_rule};
ghost use Rattle.sharp_verdicts.specs.SharpFaults.{instances_fault, others_asked};
ghost use Rattle.sharp_verdicts.specs.SharpPlaces.{SharpStanding, AtNeedRow, AtSharpEnd};
ghost use Rattle.sharp_report.specs.SharpStands.{held_sharp_place, SharpStands, HasMarkTable, IsSharpRead, IsSharpTaken, TakesMark};

use crate::failing::first_failing;
use crate::judging::SharpJudging;
use crate::lines::{SharpLine, told_unless};
use crate::places::SharpPlace;
use lists::NoMemory;
use outcomes::OutcomeKind;
use report::Subject;
use report_lines::Line;
use sharp_lines::{is_end, read_mark_row};
use sharp_verdicts::SharpRefusal;
use verdicts::Refusal;

impl SharpJudging {
    /// Takes a row of a mark, and the whole table where it is the last one.
    pub(crate) fn take_row<K: OutcomeKind>(
        &mut self,
        subject: &Subject<K>,
        text: &[u8],
    ) -> Result<Result<SharpLine, SharpRefusal>, NoMemory>
        requires read { IsSharpRead subject.now.setting.study.now self.old }
        requires place { self.old.place ≡ held_sharp_place AtNeedRow }
        ensures { (s : SharpStanding) → SharpStands subject.now.setting.study.now self.old s →
            s.place ≡ AtNeedRow →
            IfOk result (IsSharpTaken subject.now.setting.study.now s text.now self.new) }
    {
        let Some((profile, outcome)) = read_mark_row(subject.setting.kind, text) else {
            return Ok(Err(SharpRefusal::Report(Refusal::Form)));
        };
        if profile as usize != self.rows.len() {
            return Ok(Err(SharpRefusal::Report(Refusal::Row)));
        }
        self.rows.push(outcome)?;
        let said = SharpLine::Plain(Line::Row(profile, outcome));
        if self.rows.len() == subject.setting.kind.space().count() as usize {
            let fault = self.take_table(subject);
            Ok(told_unless(fault, said))
        } else {
            Ok(Ok(said))
        }
    }

    /// Takes a table whose last row is read: the bodies of the other instances have to be true of it.
    fn take_table<K: OutcomeKind>(&mut self, subject: &Subject<K>) -> Option<SharpRefusal>
        requires table { HasMarkTable subject.now.setting.study.now self.old }
        ensures { (s : SharpStanding) → SharpStands subject.now.setting.study.now self.old s →
            s.place ≡ AtNeedRow →
            TakesMark subject.now.setting.study.now s self.new result }
    {
        let Some(next) = self.next_instance() else {
            return Some(SharpRefusal::Instance);
        };
        let (kind, study) = (subject.setting.kind, subject.setting.study);
        let fault = first_failing(kind, study, &self.rows, self.instances.as_slice(), &next);
        if fault.is_none() {
            self.marks += 1;
            self.after_mark(subject.alloc);
        }
        fault
    }

    /// Takes the last line.
    pub(crate) fn take_end<K: OutcomeKind>(
        &mut self,
        subject: &Subject<K>,
        text: &[u8],
    ) -> Result<SharpLine, SharpRefusal>
        ensures { (s : SharpStanding) → SharpStands subject.now.setting.study.now self.old s →
            s.place ≡ AtSharpEnd →
            IsSharpTaken subject.now.setting.study.now s text.now self.new result }
    {
        let _ = subject;
        if !is_end(text) {
            return Err(SharpRefusal::Report(Refusal::Form));
        }
        self.place = SharpPlace::AtSharpNothing;
        Ok(SharpLine::Plain(Line::End))
    }
}
