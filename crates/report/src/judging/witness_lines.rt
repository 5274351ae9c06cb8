//! Takes the lines with which witnesses begin, and finds what the next witness is of.

ghost use Rattle.std.specs.Prelude.{◌≡◌, ◌<◌, ℕ, IsTrue};
ghost use Rattle.vocab.specs.Study.{Question};
ghost use Rattle.verdicts.specs.declared.refusals.Refusal.{Refusal as Fault};
ghost use Rattle.verdicts.specs.Lines.{WithRule, WithOpen};
ghost use Rattle.verdicts.specs.Places.{Standing, AtWitness};
ghost use Rattle.verdicts.specs.Faults.{next_core, name_fault, unless_so};
ghost use Rattle.verdicts.specs.Judge.{after_witness};
ghost use Rattle.verdicts.specs.Numbers.{saturated};
ghost use Rattle.report.specs.Stands.{Stands, IsRead};
ghost use Rattle.report.specs.Taken.{Took};

use crate::judging::Judging;
use crate::subject::Subject;
use outcomes::OutcomeKind;
use report_lines::Place;
use verdicts::{Confirmed, Refusal};
use vocab::Name;

impl Judging {
    /// The axiom of the core whose witness comes next.
    pub(crate) fn next_core(&self) -> Option<u32>
        ensures { (s : Standing) (study : Question) → Stands study self.now s → result ≡ next_core s }
    {
        if self.witnesses < self.core.len() {
            Some(*self.core.get(self.witnesses))
        } else {
            None
        }
    }

    /// Goes to the place after a witness, or after the story.
    pub(crate) fn after_witness(&mut self)
        ensures { (s : Standing) (study : Question) → Stands study self.old s →
            Stands study self.new (after_witness s) }
    {
        match self.next_core() {
            Some(_) => self.place = Place::AtWitness,
            None => self.place = Place::AtEnd(Some(Confirmed::Impossible)),
        }
    }

    /// Takes the first line of a witness that is a rule.
    pub(crate) fn take_with_rule<K: OutcomeKind>(
        &mut self,
        subject: &Subject<K>,
        name: &Name,
        count: u64,
    ) -> Option<Refusal>
        requires read { IsRead subject.now.setting.study.now self.old }
        ensures { (s : Standing) (n : ℕ) → Stands subject.now.setting.study.now self.old s →
            s.place ≡ AtWitness → count ≡ saturated n →
            Took subject.now.setting.study.now s (WithRule name.now n) self.new result }
    {
        if !self.is_next(subject, name) {
            return Some(Refusal::Core);
        }
        if count != subject.setting.kind.space().count() as u64 {
            return Some(Refusal::Row);
        }
        self.place = Place::AtWitnessRow;
        None
    }

    /// Takes the line of an open mark.
    pub(crate) fn take_with_open<K: OutcomeKind>(
        &mut self,
        subject: &Subject<K>,
        name: &Name,
        limit: u64,
    ) -> Option<Refusal>
        requires read { IsRead subject.now.setting.study.now self.old }
        ensures { (s : Standing) (n : ℕ) → Stands subject.now.setting.study.now self.old s →
            s.place ≡ AtWitness → limit ≡ saturated n →
            Took subject.now.setting.study.now s (WithOpen name.now n) self.new result }
    {
        if !self.is_next(subject, name) {
            return Some(Refusal::Core);
        }
        if limit != subject.setting.study.conflicts() as u64 {
            return Some(Refusal::OpenMark);
        }
        self.witnesses += 1;
        self.after_witness();
        None
    }

    /// Whether the axiom whose witness comes next has the name.
    fn is_next<K: OutcomeKind>(&self, subject: &Subject<K>, name: &Name) -> bool
        requires { IsRead subject.now.setting.study.now self.now }
        ensures fault { (s : Standing) → Stands subject.now.setting.study.now self.now s →
            name_fault subject.now.setting.study.now (next_core s) name.now ≡ unless_so result Fault.Core }
        ensures few { IsTrue result → self.now.witnesses < 4000000 }
    {
        match self.next_core() {
            None => false,
            Some(place) => {
                let axiom = subject.setting.study.axioms().get(place as usize);
                axiom.name().bytes() == name.bytes()
            }
        }
    }
}
