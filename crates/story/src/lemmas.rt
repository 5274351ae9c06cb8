//! Whether a lemma follows from earlier ones.

ghost use Rattle.std.specs.Prelude.{◌≡◌, ◌+◌, [], length, IsTrue, OnOk};
ghost use Rattle.meaning.specs.Stories.{has_literals};
ghost use Rattle.meaning.specs.StoryFaults.{suppose_fault, steps_fault, lemma_fault};
ghost use Rattle.story.specs.Answers.{AnswersFault};
ghost use Rattle.story.specs.Conditions.{is_short, IsClear};

use crate::grounds::Grounds;
use crate::lines::suppose;
use crate::reasons::KnownLiterals;
use meaning::{Lemma, PlacedFault};
use outcomes::OutcomeKind;
use worlds::Board;

/// A lemma that can be checked, and what its reasons may cite. Its literals are of the size, and each of its
/// lines has a number.
#[derive(Drop)]
pub struct CheckableLemma<'a, K: OutcomeKind> {
    pub grounds: &'a Grounds<'a, K>,
    pub lemma: &'a Lemma,
    pub final_one: bool,
    pub ghost literals: { IsTrue (has_literals (K.size grounds.now.setting.now.kind.now) lemma.now) },
    pub ghost short: { IsTrue (is_short lemma.now) },
}

impl<K: OutcomeKind> CheckableLemma<'_, K> {
    /// Whether the lemma follows from earlier ones, and else its first faulty line: the heading is line 0,
    /// and then come the suppositions, the steps and the last reason. The board has no literal before and
    /// none afterwards, whatever the answer. No memory is taken.
    pub fn check(&self, board: &mut Board) -> Result<(), PlacedFault>
        requires board { board.old.size ≡ K.size self.now.grounds.now.setting.now.kind.now }
        requires cleared { board.old.literals ≡ [] }
        ensures fault { AnswersFault result (lemma_fault (K.size self.now.grounds.now.setting.now.kind.now)
            self.now.grounds.now.setting.now.study.now.axioms self.now.grounds.now.core.now
            self.now.grounds.now.lemmas.now self.now.final_one self.now.lemma.now) }
        ensures size { board.new.size ≡ board.old.size }
        ensures cleared { board.new.literals ≡ [] }
    {
        let answer = self.check_lines(board);
        board.clear();
        answer
    }

    /// The lines of the lemma, whose literals come on the board.
    fn check_lines(&self, board: &mut Board) -> Result<(), PlacedFault>
        requires { IsClear (K.size self.now.grounds.now.setting.now.kind.now) board.old }
        ensures fault { AnswersFault result (lemma_fault (K.size self.now.grounds.now.setting.now.kind.now)
            self.now.grounds.now.setting.now.study.now.axioms self.now.grounds.now.core.now
            self.now.grounds.now.lemmas.now self.now.final_one self.now.lemma.now) }
        ensures size { board.new.size ≡ board.old.size }
    {
        self.suppose_all(board)?;
        self.take_steps(board)
    }

    /// The suppositions, which come on the empty board.
    fn suppose_all(&self, board: &mut Board) -> Result<(), PlacedFault>
        requires { IsClear (K.size self.now.grounds.now.setting.now.kind.now) board.old }
        ensures fault { AnswersFault result (suppose_fault self.now.final_one 1 []
            self.now.lemma.now.suppose) }
        ensures size { board.new.size ≡ board.old.size }
        ensures ok { OnOk result (board.new.literals ≡ self.now.lemma.now.suppose) }
    {
        let mut place = 1;
        let literals = self.lemma.suppose.as_slice();
        for literal in literals {
            match suppose(self.final_one, board, literal) {
                Ok(()) => {}
                Err(fault) => return Err(PlacedFault { place, fault }),
            }
            place += 1;
        }
        Ok(())
    }

    /// The steps and the last reason, after the suppositions.
    fn take_steps(&self, board: &mut Board) -> Result<(), PlacedFault>
        requires board { board.old.size ≡ K.size self.now.grounds.now.setting.now.kind.now }
        requires supposed { board.old.literals ≡ self.now.lemma.now.suppose }
        ensures fault { AnswersFault result (steps_fault (K.size self.now.grounds.now.setting.now.kind.now)
            self.now.grounds.now.setting.now.study.now.axioms self.now.grounds.now.core.now
            self.now.grounds.now.lemmas.now self.now.lemma.now.last
            (length self.now.lemma.now.suppose + 1) self.now.lemma.now.suppose self.now.lemma.now.steps) }
        ensures size { board.new.size ≡ board.old.size }
    {
        let mut place = self.lemma.suppose.len() as u32 + 1;
        let steps = self.lemma.steps.as_slice();
        for step in steps {
            match self.grounds.take_step(board, step) {
                Ok(()) => {}
                Err(fault) => return Err(PlacedFault { place, fault }),
            }
            place += 1;
        }
        let known = KnownLiterals {
            grounds: self.grounds,
            board,
        };
        match known.refutes(&self.lemma.last) {
            Ok(()) => Ok(()),
            Err(fault) => Err(PlacedFault { place, fault }),
        }
    }
}
