//! Takes the lines that say of which axioms no rule satisfies all, and in how many lemmas that is shown.

ghost use Rattle.std.specs.Prelude.{◌≡◌, ℕ, List, drop};
ghost use Rattle.vocab.specs.Study.{Question};
ghost use Rattle.verdicts.specs.Texts.{words_of};
ghost use Rattle.verdicts.specs.Lines.{CoreIs, LemmasAre, Heading};
ghost use Rattle.verdicts.specs.Places.{Standing};
ghost use Rattle.verdicts.specs.Numbers.{saturated};
ghost use Rattle.report.specs.Stands.{Stands};
ghost use Rattle.report.specs.Taken.{Took, Takes};

use crate::judging::Judging;
use crate::subject::Subject;
use lists::NoMemory;
use outcomes::OutcomeKind;
use report_lines::{Place, read_core};
use verdicts::Refusal;

impl Judging {
    /// Takes the line of this text, whose names are those of distinct axioms of the study in order or not.
    pub(crate) fn take_core<K: OutcomeKind>(
        &mut self,
        subject: &Subject<K>,
        text: &[u8],
    ) -> Result<Option<Refusal>, NoMemory>
        ensures { (s : Standing) (names : List (List ℕ)) → Stands subject.now.setting.study.now self.old s →
            names ≡ drop 1 (words_of text.now) →
            Takes subject.now.setting.study.now s (CoreIs names) self.new result }
    {
        let read = read_core(subject.alloc, &subject.indexed, text)?;
        let Some(core) = read else {
            return Ok(Some(Refusal::Core));
        };
        self.core = core;
        self.place = Place::AtLemmas;
        Ok(None)
    }

    /// Takes the number of lemmas.
    pub(crate) fn take_lemmas(&mut self, count: u64) -> Option<Refusal>
        ensures { (study : Question) (s : Standing) (n : ℕ) → Stands study self.old s →
            count ≡ saturated n →
            Took study s (LemmasAre n) self.new result }
    {
        self.count = count;
        self.place = Place::AtLemma;
        None
    }

    /// Takes the heading of a lemma.
    pub(crate) fn take_heading(&mut self) -> Option<Refusal>
        ensures { (study : Question) (s : Standing) (n : ℕ) → Stands study self.old s →
            Took study s (Heading n) self.new result }
    {
        self.place = Place::AtSuppose;
        None
    }
}
