//! Reads a line, and takes it.

ghost use Rattle.std.specs.Prelude.{◌≡◌, ◌≢◌, [], ◌∷◌, Some, IfOk};
ghost use Rattle.verdicts.specs.Lines.{Line as WantedLine};
ghost use Rattle.verdicts.specs.Places.{Standing};
ghost use Rattle.verdicts.specs.Judge.{read_line, judge_from};
ghost use Rattle.report_lines.specs.Held.{held_line};
ghost use Rattle.report.specs.Stands.{Stands, IsRead, StandsAs};
ghost use Rattle.report.specs.Taken.{Takes, IsLine, IsTaken};

use crate::faults::ReportFault;
use crate::judging::Judging;
use crate::subject::Subject;
use crew::Crew;
use edge::Gate;
use lists::NoMemory;
use outcomes::OutcomeKind;
use report_lines::{Line, read_line};
use std::thread::Threads;
use verdicts::Refusal;

impl Judging {
    /// Reads the next line, which has this number, at the place, and takes it: None where it has no fault.
    pub(crate) fn judge<R: Threads + Sync, G: Gate, K: OutcomeKind>(
        &mut self,
        crew: &Crew<R, G>,
        subject: &Subject<K>,
        line: u32,
        text: &[u8],
    ) -> Option<ReportFault>
        requires read { IsRead subject.now.setting.study.now self.old }
        ensures { (s : Standing) → Stands subject.now.setting.study.now self.old s →
            result ≢ Some ReportFault.NoMemory →
            StandsAs subject.now.setting.study.now result self.new
            (judge_from subject.now.setting.study.now line s (text.now ∷ [])) }
    {
        match self.take_line(crew, subject, text) {
            Ok(Ok(_)) => None,
            Ok(Err(refusal)) => Some(ReportFault::Line { line, refusal }),
            Err(NoMemory) => Some(ReportFault::NoMemory),
        }
    }

    /// Reads the next line, without its line end, at the place, and takes it: what it says where it has no
    /// fault, and then its part is held with what was held; else its refusal. A line that is not the one that
    /// the grammar wants there, or that has more than 4,096 bytes, is refused as `Form`.
    pub fn take_line<R: Threads + Sync, G: Gate, K: OutcomeKind>(
        &mut self,
        crew: &Crew<R, G>,
        subject: &Subject<K>,
        text: &[u8],
    ) -> Result<Result<Line, Refusal>, NoMemory>
        requires read { IsRead subject.now.setting.study.now self.old }
        ensures { (s : Standing) → Stands subject.now.setting.study.now self.old s →
            IfOk result (IsTaken subject.now.setting.study.now s text.now self.new) }
    {
        let number = self.earlier.len() as u64 + 1;
        let Some(said) = read_line(
            subject.setting.kind,
            &subject.indexed,
            self.place,
            number,
            text,
        ) else {
            return Ok(Err(Refusal::Form));
        };
        let fault = self.take(crew, subject, &said, text)?;
        match fault {
            None => Ok(Ok(said)),
            Some(refusal) => Ok(Err(refusal)),
        }
    }

    /// Takes a line of this text, as it was read at the place: None where it has no fault, and then its part
    /// is held with what was held.
    pub(crate) fn take<R: Threads + Sync, G: Gate, K: OutcomeKind>(
        &mut self,
        crew: &Crew<R, G>,
        subject: &Subject<K>,
        line: &Line,
        text: &[u8],
    ) -> Result<Option<Refusal>, NoMemory>
        requires read { IsRead subject.now.setting.study.now self.old }
        requires line { (s : Standing) → Stands subject.now.setting.study.now self.old s →
            IsLine subject.now.setting.study.now s text.now line.now }
        ensures { (s : Standing) (wanted : WantedLine) → Stands subject.now.setting.study.now self.old s →
            read_line subject.now.setting.study.now s text.now ≡ Some wanted →
            line.now ≡ held_line subject.now.setting.study.now wanted →
            Takes subject.now.setting.study.now s wanted self.new result }
    {
        match line {
            Line::Title(version) => Ok(self.take_title(subject.setting.study, *version)),
            Line::KindIs(kind) => Ok(self.take_kind(subject.setting.study, *kind)),
            Line::VotersAre(count) => Ok(self.take_voters(subject.setting.study, *count)),
            Line::AlternativesAre(count) => Ok(self.take_alternatives(
                subject.setting.study,
                *count,
            )),
            Line::BallotsAre(same) => Ok(self.take_ballots(*same)),
            Line::AbsentIs(absent) => Ok(self.take_absent(subject.setting.study, *absent)),
            Line::AxiomsAre(same) => Ok(self.take_axioms(*same)),
            Line::SaysPossible => Ok(self.take_possible()),
            Line::SaysImpossible => Ok(self.take_impossible()),
            Line::SaysUndecided => Ok(self.take_undecided()),
            Line::LimitIs(_) => Ok(self.take_limit()),
            Line::RuleOf(count) => Ok(self.take_rule_of(subject, *count)),
            Line::Row(profile, outcome) => self.take_row(crew, subject, *profile, *outcome),
            Line::CoreIs => self.take_core(subject, text),
            Line::LemmasAre(count) => Ok(self.take_lemmas(*count)),
            Line::Heading(_) => Ok(self.take_heading()),
            Line::Suppose(literal) => self.take_suppose(subject, literal),
            Line::So(literal, reason) => self.take_so(subject, literal, reason),
            Line::Clash(reason) => self.take_clash(subject, reason),
            Line::WithRule(name, count) => Ok(self.take_with_rule(subject, name, *count)),
            Line::WithOpen(name, limit) => Ok(self.take_with_open(subject, name, *limit)),
            Line::End => Ok(self.take_end()),
        }
    }
}
