//! Takes the lines of lemmas.

ghost use Rattle.std.specs.Prelude.{◌≡◌, ◌+◌, ◌<◌, ◌∷◌, ◌++◌, [], length, IsTrue, OnOk};
ghost use Rattle.meaning.specs.Literals.{is_literal};
ghost use Rattle.meaning.specs.declared.stories.Reason.{Reason as StoryReason};
ghost use Rattle.vocab.specs.Study.{Question};
ghost use Rattle.verdicts.specs.Faults.{refusal_of, is_last_lemma};
ghost use Rattle.verdicts.specs.Judge.{after_lemma};
ghost use Rattle.verdicts.specs.Lines.{Suppose, So, Clash};
ghost use Rattle.verdicts.specs.Places.{Standing, AtStep, AtSuppose};
ghost use Rattle.report_lines.specs.Held.{held_reason};
ghost use Rattle.report.specs.Stands.{Stands, IsRead};
ghost use Rattle.report.specs.Taken.{Takes, IsInStory};

use crate::judging::Judging;
use crate::subject::Subject;
use lists::{Items, NoMemory};
use meaning::{Lemma, Reason, StoryFault, StoryStep};
use outcomes::OutcomeKind;
use report_lines::Place;
use std::alloc::Global;
use std::mem::replace;
use story::{Grounds, KnownLiterals, suppose};
use verdicts::Refusal;
use vocab::Literal;

/// The refusal of a line of a story.
fn refusal_of(fault: StoryFault) -> Refusal
    ensures { result ≡ refusal_of fault }
{
    match fault {
        StoryFault::NotInCore => Refusal::NotInCore,
        StoryFault::Later => Refusal::Later,
        StoryFault::NotForced => Refusal::NotForced,
        StoryFault::Known => Refusal::Known,
        StoryFault::Supposes => Refusal::Supposes,
    }
}

impl Judging {
    /// Takes a line that supposes a literal.
    pub(crate) fn take_suppose<K: OutcomeKind>(
        &mut self,
        subject: &Subject<K>,
        literal: &Literal,
    ) -> Result<Option<Refusal>, NoMemory>
        requires read { IsRead subject.now.setting.study.now self.old }
        requires literal { IsTrue (is_literal subject.now.setting.study.now.size literal.now) }
        ensures { (s : Standing) → Stands subject.now.setting.study.now self.old s → s.place ≡ AtSuppose →
            Takes subject.now.setting.study.now s (Suppose literal.now) self.new result }
    {
        let final_one = self.is_last_lemma();
        match suppose(final_one, &mut self.board, literal) {
            Ok(()) => {}
            Err(fault) => return Ok(Some(refusal_of(fault))),
        }
        self.suppose.push(*literal)?;
        Ok(None)
    }

    /// Takes a line with a literal that is forced, and why.
    pub(crate) fn take_so<K: OutcomeKind>(
        &mut self,
        subject: &Subject<K>,
        literal: &Literal,
        reason: &Reason,
    ) -> Result<Option<Refusal>, NoMemory>
        requires read { IsRead subject.now.setting.study.now self.old }
        requires literal { IsTrue (is_literal subject.now.setting.study.now.size literal.now) }
        ensures { (s : Standing) (wanted : StoryReason) → Stands subject.now.setting.study.now self.old s →
            IsInStory s.place →
            reason.now ≡ held_reason wanted →
            Takes subject.now.setting.study.now s (So literal.now wanted) self.new result }
    {
        let step = StoryStep {
            literal: *literal,
            reason: *reason,
        };
        let grounds = Grounds {
            setting: &subject.setting,
            core: &self.core,
            lemmas: self.earlier.as_slice(),
        };
        match grounds.take_step(&mut self.board, &step) {
            Ok(()) => {}
            Err(fault) => return Ok(Some(refusal_of(fault))),
        }
        self.place = Place::AtStep;
        Ok(None)
    }

    /// Takes the last line of a lemma, with the reason why what is known cannot be.
    pub(crate) fn take_clash<K: OutcomeKind>(
        &mut self,
        subject: &Subject<K>,
        reason: &Reason,
    ) -> Result<Option<Refusal>, NoMemory>
        requires read { IsRead subject.now.setting.study.now self.old }
        ensures { (s : Standing) (wanted : StoryReason) → Stands subject.now.setting.study.now self.old s →
            IsInStory s.place →
            reason.now ≡ held_reason wanted →
            Takes subject.now.setting.study.now s (Clash wanted) self.new result }
    {
        let grounds = Grounds {
            setting: &subject.setting,
            core: &self.core,
            lemmas: self.earlier.as_slice(),
        };
        let known = KnownLiterals {
            grounds: &grounds,
            board: &self.board,
        };
        match known.refutes(reason) {
            Ok(()) => {}
            Err(fault) => return Ok(Some(refusal_of(fault))),
        }
        self.end_lemma(subject.alloc, *reason)?;
        self.after_lemma();
        Ok(None)
    }

    /// Whether the present lemma is the last.
    fn is_last_lemma(&self) -> bool
        ensures { (s : Standing) (study : Question) → Stands study self.now s → result ≡ is_last_lemma s }
    {
        self.earlier.as_slice().len() as u64 + 1 == self.count
    }

    /// Puts the present lemma to the earlier ones, and forgets what it knew.
    fn end_lemma(&mut self, alloc: Global, last: Reason) -> Result<(), NoMemory>
        requires room { length self.old.earlier < 4294967295 }
        ensures { (s : Standing) (study : Question) (wanted : StoryReason) → Stands study self.old s →
            OnOk result (Stands study self.new (record s {
              earlier = s.earlier ++ record { suppose = s.suppose; steps = s.steps; last = wanted } ∷ [];
              suppose = [];
              steps = [];
            })) }
    {
        let suppose = replace(&mut self.suppose, Items::new(alloc));
        let steps = Items::new(alloc);
        self.earlier.push(Lemma {
            suppose,
            steps,
            last,
        })?;
        self.board.clear();
        Ok(())
    }

    /// Goes to the place after a lemma: another one, or what comes after the story.
    fn after_lemma(&mut self)
        ensures { (s : Standing) (study : Question) → Stands study self.old s →
            Stands study self.new (after_lemma s) }
    {
        if self.earlier.len() as u64 == self.count {
            self.after_witness();
        } else {
            self.place = Place::AtLemma;
        }
    }
}
