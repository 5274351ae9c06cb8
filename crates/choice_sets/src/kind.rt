//! Sets: an outcome is a set of alternatives that is not empty, and a profile has a variable for each alternative.

ghost use Rattle.std.specs.Prelude.{◌≡◌, Err, OnOk};
ghost use Rattle.vocab.specs.declared.kinds.Kind.TheVariants.{Sets};
ghost use Rattle.vocab.specs.Size.{IsSize};
ghost use Rattle.outcomes.specs.Frames.{with_clauses, IsFullForAll};
ghost use Rattle.outcomes.specs.Rows.{set_rows};

use crate::elements::{is_element, set_count, set_of, set_text};
use cnf::{Clauses, Lit, PushFault};
use outcomes::winners::{push_some_wins, winner_lit, winner_of};
use outcomes::{AtProfile, OutcomeKind};
use profiles::{Space, laws};
use vocab::{Literal, Name};

/// Outcomes that are sets: 2 to the power x is a term of the code of a set and one, as a sum of different powers
/// of two, exactly where alternative x is an element.
#[derive(Clone, Copy)]
pub struct SetsKind {
    space: Space,
    ghost gives_sets: { space.kind ≡ Sets },
    ghost whole: { IsSize space },
}

impl SetsKind {
    /// The sets at the profiles of a space.
    pub fn new(space: Space) -> SetsKind
        requires { space.kind ≡ Sets }
        ensures { ⟦<SetsKind as OutcomeKind>⟧.size result ≡ space }
    {
        laws::spaces_have_sizes(&space);
        SetsKind { space }
    }
}

/// Appends the frame of sets: the clause that some alternative wins.
fn push_frame(at: AtProfile, out: &mut Clauses) -> Result<(), PushFault>
    ensures ok { OnOk result (out.new ≡ with_clauses out.old
        (set_rows at.alternatives.number at.profile) at.profile) }
    ensures full { result ≡ Err PushFault.Full →
        IsFullForAll out.old (set_rows at.alternatives.number at.profile) }
    ensures fits { OnOk result (¬ IsFullForAll out.old (set_rows at.alternatives.number at.profile)) }
{
    push_some_wins(at, out)?;
    let _within = out.len();
    Ok(())
}

impl OutcomeKind for SetsKind {
    ghost size = { λ k. k.space };

    fn space(&self) -> &Space {
        &self.space
    }

    fn outcomes(&self) -> u32 {
        set_count(self.space.alternatives())
    }

    fn bits(&self) -> u32 {
        u32::from(self.space.size().alternatives())
    }

    fn holds(&self, outcome: u32, literal: &Literal) -> bool {
        match *literal {
            Literal::Wins(x, _) => is_element(outcome, x),
            Literal::Loses(x, _) => !is_element(outcome, x),
            Literal::Above(_, _, _) => unreachable!(),
        }
    }

    fn lit(&self, literal: &Literal) -> Lit {
        match *literal {
            Literal::Wins(x, p) => winner_lit(AtProfile::new(&self.space, p), true, x),
            Literal::Loses(x, p) => winner_lit(AtProfile::new(&self.space, p), false, x),
            Literal::Above(_, _, _) => unreachable!(),
        }
    }

    fn literal(&self, lit: Lit) -> Literal {
        winner_of(self.space.alternatives(), lit)
    }

    fn frame(&self, p: u32, out: &mut Clauses) -> Result<(), PushFault> {
        push_frame(AtProfile::new(&self.space, p), out)
    }

    fn text(&self, outcome: u32) -> Name {
        set_text(self.space.alternatives(), outcome)
    }

    fn read(&self, text: &[u8]) -> Option<u32> {
        set_of(self.space.alternatives(), text)
    }

    ghost is_size = { λ k. k.whole };
}
