//! The lines of a lemma, one by one, over a board of what the lines before say.

ghost use Rattle.std.specs.Prelude.{◌≡◌, [], ◌∷◌, ◌++◌, IsTrue, OnOk, OnErr};
ghost use Rattle.meaning.specs.Literals.{is_literal};
ghost use Rattle.meaning.specs.Stories.{is_decided};
ghost use Rattle.story.specs.Answers.{AnswersFault};
ghost use Rattle.story.specs.Lines.{supposition_fault, step_fault};

use crate::grounds::Grounds;
use crate::reasons::KnownLiterals;
use meaning::{StoryFault, StoryStep};
use outcomes::OutcomeKind;
use vocab::Literal;
use worlds::Board;

/// Supposes a literal: it comes on the board. Else `Supposes` in the last lemma, which may have no
/// supposition, and `Known` where the literal or its opposite is on the board; the literals of the board then
/// stay. No memory is taken.
pub fn suppose(final_one: bool, board: &mut Board, literal: &Literal) -> Result<(), StoryFault>
    requires { IsTrue (is_literal board.old.size literal.now) }
    ensures fault { AnswersFault result (supposition_fault final_one board.old.literals literal.now) }
    ensures size { board.new.size ≡ board.old.size }
    ensures ok { OnOk result (board.new.literals ≡ board.old.literals ++ literal.now ∷ []) }
    ensures err { OnErr result (board.new.literals ≡ board.old.literals) }
{
    if final_one {
        return Err(StoryFault::Supposes);
    }
    if is_decided(board, literal) {
        return Err(StoryFault::Known);
    }
    board.add(literal);
    Ok(())
}

impl<K: OutcomeKind> Grounds<'_, K> {
    /// Takes a step: its literal comes on the board. Else `Known` where the literal or its opposite is on the
    /// board, and the fault of its reason, which has to refute the board with the opposite of the literal;
    /// the literals of the board then stay. No memory is taken.
    pub fn take_step(&self, board: &mut Board, step: &StoryStep) -> Result<(), StoryFault>
        requires board { board.old.size ≡ K.size self.now.setting.now.kind.now }
        requires literal { IsTrue (is_literal (K.size self.now.setting.now.kind.now) step.now.literal) }
        ensures fault { AnswersFault result (step_fault (K.size self.now.setting.now.kind.now)
            self.now.setting.now.study.now.axioms self.now.core.now self.now.lemmas.now
            board.old.literals step.now) }
        ensures size { board.new.size ≡ board.old.size }
        ensures ok { OnOk result (board.new.literals ≡ board.old.literals ++ step.now.literal ∷ []) }
        ensures err { OnErr result (board.new.literals ≡ board.old.literals) }
    {
        if is_decided(board, &step.literal) {
            return Err(StoryFault::Known);
        }
        let opposite = step.literal.opposite();
        board.add(&opposite);
        let known = KnownLiterals {
            grounds: self,
            board,
        };
        let answer = known.refutes(&step.reason);
        board.remove(&opposite);
        match answer {
            Ok(()) => {}
            Err(fault) => return Err(fault),
        }
        board.add(&step.literal);
        Ok(())
    }
}

/// Whether a literal or its opposite is on the board.
fn is_decided(board: &Board, literal: &Literal) -> bool
    requires { IsTrue (is_literal board.now.size literal.now) }
    ensures { result ≡ is_decided board.now.literals literal.now }
{
    board.has(literal) || board.has(&literal.opposite())
}
