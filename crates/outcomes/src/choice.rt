//! Choices: an outcome is an alternative, and a profile has a variable for each.

ghost use Rattle.std.specs.Prelude.{◌≡◌};
ghost use Rattle.vocab.specs.declared.kinds.Kind.TheVariants.{Choice};
ghost use Rattle.vocab.specs.Size.{IsSize};

use crate::at_profile::AtProfile;
use crate::frames;
use crate::kind::OutcomeKind;
use crate::winners::{winner_lit, winner_of};
use cnf::{Clauses, Lit, PushFault};
use profiles::{Space, laws};
use vocab::{Literal, Name};

/// Outcomes that are alternatives: the code of an outcome is its alternative.
#[derive(Clone, Copy)]
pub struct ChoiceKind {
    space: Space,
    ghost chooses: { space.kind ≡ Choice },
    ghost whole: { IsSize space },
}

impl ChoiceKind {
    /// The choices at the profiles of a space.
    pub fn new(space: Space) -> ChoiceKind
        requires { space.kind ≡ Choice }
        ensures { ⟦<ChoiceKind as OutcomeKind>⟧.size result ≡ space }
    {
        laws::spaces_have_sizes(&space);
        ChoiceKind { space }
    }
}

impl OutcomeKind for ChoiceKind {
    ghost size = { λ k. k.space };

    fn space(&self) -> &Space {
        &self.space
    }

    fn outcomes(&self) -> u32 {
        u32::from(self.space.size().alternatives())
    }

    fn bits(&self) -> u32 {
        u32::from(self.space.size().alternatives())
    }

    fn holds(&self, outcome: u32, literal: &Literal) -> bool {
        match *literal {
            Literal::Wins(x, _) => outcome == u32::from(x),
            Literal::Loses(x, _) => outcome != u32::from(x),
            Literal::Above(_, _, _) => unreachable!(),
        }
    }

    fn lit(&self, literal: &Literal) -> Lit {
        match *literal {
            Literal::Wins(x, p) => winner_lit(AtProfile::new(&self.space, p), true, x),
            Literal::Loses(x, p) => winner_lit(AtProfile::new(&self.space, p), false, x),
            Literal::Above(_, _, _) => unreachable!(),
        }
    }

    fn literal(&self, lit: Lit) -> Literal {
        winner_of(self.space.alternatives(), lit)
    }

    fn frame(&self, p: u32, out: &mut Clauses) -> Result<(), PushFault> {
        frames::push_choice(AtProfile::new(&self.space, p), out)
    }

    fn text(&self, outcome: u32) -> Name {
        Name::new(&[b'a' + outcome as u8]).unwrap()
    }

    fn read(&self, text: &[u8]) -> Option<u32> {
        let [letter] = text else {
            return None;
        };
        if *letter < b'a' {
            return None;
        }
        let outcome = u32::from(*letter - b'a');
        if outcome < self.outcomes() {
            Some(outcome)
        } else {
            None
        }
    }

    ghost is_size = { λ k. k.whole };
}
