//! Whether a reason refutes known literals.

ghost use Rattle.std.specs.Prelude.{◌≡◌, ◌==◌, nat_lt, drop, length, slice_get, IsTrue, IsFalse, OnErr, OnOk};
ghost use Rattle.std.specs.List.{list_any};
ghost use Rattle.std.specs.Cmp.Lexicographic.{pointwise};
ghost use Rattle.std.specs.Option.{option_or};
ghost use Rattle.vocab.specs.Limits.{bases_of};
ghost use Rattle.vocab.specs.Study.{is_sentence};
ghost use Rattle.vocab.specs.Tree.{tree_of};
ghost use Rattle.meaning.specs.Stories.{is_false, is_claim_false, is_instance_false, refutes};
ghost use Rattle.meaning.specs.StoryFaults.{unless, reason_fault};
ghost use Rattle.story.specs.Answers.{AnswersFault};

use crate::grounds::Grounds;
use meaning::{Reason, StoryFault, Three};
use outcomes::OutcomeKind;
use vocab::{Axiom, Env, Formula, Places, Size};
use worlds::laws::bodies_have_values;
use worlds::{Board, excludes, partial};

/// Literals that are known, on a board of the size, and what a reason that refutes them may cite.
#[derive(Drop)]
pub struct KnownLiterals<'a, K: OutcomeKind> {
    pub grounds: &'a Grounds<'a, K>,
    pub board: &'a Board,
    pub ghost size: { board.now.size ≡ K.size grounds.now.setting.now.kind.now },
}

impl<K: OutcomeKind> KnownLiterals<'_, K> {
    /// Whether the reason refutes the literals of the board: no rule that satisfies the core has all of them.
    /// Ok exactly there. Else `NotInCore` where it cites an axiom that the core lacks, `Later` where it cites
    /// a lemma that is not an earlier one, and `NotForced` where it may be given and does not refute. No
    /// memory is taken.
    pub fn refutes(&self, reason: &Reason) -> Result<(), StoryFault>
        ensures fault { AnswersFault result (reason_fault (K.size self.now.grounds.now.setting.now.kind.now)
            self.now.grounds.now.setting.now.study.now.axioms self.now.grounds.now.core.now
            self.now.grounds.now.lemmas.now self.now.board.now.literals reason.now) }
        ensures ok { OnOk result (IsTrue (refutes (K.size self.now.grounds.now.setting.now.kind.now)
            self.now.grounds.now.setting.now.study.now.axioms self.now.grounds.now.core.now
            self.now.grounds.now.lemmas.now self.now.board.now.literals reason.now)) }
        ensures err { OnErr result (IsFalse (refutes (K.size self.now.grounds.now.setting.now.kind.now)
            self.now.grounds.now.setting.now.study.now.axioms self.now.grounds.now.core.now
            self.now.grounds.now.lemmas.now self.now.board.now.literals reason.now)) }
    {
        self.answer(reason)
    }

    /// Ok where the reason refutes the literals of the board, and else its fault.
    fn answer(&self, reason: &Reason) -> Result<(), StoryFault>
        ensures { AnswersFault result (reason_fault (K.size self.now.grounds.now.setting.now.kind.now)
            self.now.grounds.now.setting.now.study.now.axioms self.now.grounds.now.core.now
            self.now.grounds.now.lemmas.now self.now.board.now.literals reason.now) }
    {
        match reason {
            Reason::Axiom(place, values) => self.by_axiom(*place, values),
            Reason::Outcome(p) => {
                let excluded = excludes(self.grounds.setting.kind, self.board, *p);
                unless(excluded, StoryFault::NotForced)
            }
            Reason::Lemma(place) => self.by_lemma(*place),
        }
    }

    /// Whether an instance of an axiom of the core is false.
    fn by_axiom(&self, place: u32, values: &Env) -> Result<(), StoryFault>
        ensures { AnswersFault result (reason_fault (K.size self.now.grounds.now.setting.now.kind.now)
            self.now.grounds.now.setting.now.study.now.axioms self.now.grounds.now.core.now
            self.now.grounds.now.lemmas.now self.now.board.now.literals
            (Reason.Axiom place values.now)) }
    {
        if !is_in(self.grounds.core, place) {
            return Err(StoryFault::NotInCore);
        }
        let cited = self.grounds.setting.study.axioms().get(place as usize);
        unless(self.is_instance_false(cited, values), StoryFault::NotForced)
    }

    /// Whether there is one value in range for each leading universal of the axiom, and its body is false at
    /// these values.
    fn is_instance_false(&self, cited: &Axiom, values: &Env) -> bool
        requires sentence { IsTrue (is_sentence (K.size self.now.grounds.now.setting.now.kind.now)
            cited.now) }
        ensures { result ≡ is_instance_false (K.size self.now.grounds.now.setting.now.kind.now)
            self.now.board.now.literals (Some cited.now) values.now }
    {
        let kind = self.grounds.setting.kind;
        let sentence = cited.sentence();
        if !are_in_range(kind.space().size(), sentence, values, 0) {
            return false;
        }
        bodies_have_values();
        is_false(partial(kind, self.board, sentence.body(), values))
    }

    /// Whether the lemma at a place is an earlier one whose claim is false, as it is where all that the lemma
    /// supposes is on the board.
    fn by_lemma(&self, place: u32) -> Result<(), StoryFault>
        ensures { AnswersFault result (reason_fault (K.size self.now.grounds.now.setting.now.kind.now)
            self.now.grounds.now.setting.now.study.now.axioms self.now.grounds.now.core.now
            self.now.grounds.now.lemmas.now self.now.board.now.literals (Reason.Lemma place)) }
    {
        let Some(lemma) = self.grounds.lemmas.get(place as usize) else {
            return Err(StoryFault::Later);
        };
        let literals = lemma.suppose.as_slice();
        for literal in literals {
            if !self.board.has(literal) {
                return Err(StoryFault::NotForced);
            }
        }
        Ok(())
    }
}

/// Ok where a test passes, and else the fault.
fn unless(passes: bool, fault: StoryFault) -> Result<(), StoryFault>
    ensures { AnswersFault result (unless passes fault) }
{
    if passes { Ok(()) } else { Err(fault) }
}

/// Whether a place is in the core.
fn is_in(core: &Places, place: u32) -> bool
    ensures { result ≡ list_any (λ c. c == place) core.now }
{
    core.as_slice().iter().any(|c| *c == place)
}

/// Whether what is known is that it is false.
fn is_false(known: Three) -> bool
    ensures { result ≡ is_false known }
{
    known == Three::False
}

/// Whether the values from a level on are as many as the leading universals of the formula, and in their
/// ranges.
fn are_in_range(size: Size, formula: &Formula, values: &Env, level: u8) -> bool
    ensures { result ≡ pointwise nat_lt (drop level values.now) (bases_of size (tree_of formula.now)) }
{
    match formula {
        Formula::All(sort, inner) => {
            level < values.len()
                && values.get(level) < size.sort_len(*sort)
                && are_in_range(size, inner, values, level + 1)
        }
        _ => level >= values.len(),
    }
}
