//! Rankings: an outcome is a strict ranking, and a profile has a variable for each pair of alternatives.

ghost use Rattle.std.specs.Prelude.{◌≡◌, ◌<◌};
ghost use Rattle.vocab.specs.declared.kinds.Kind.TheVariants as kinds;
ghost use Rattle.vocab.specs.Size.{IsSize, factorial};

use crate::at_profile::AtProfile;
use crate::kind::OutcomeKind;
use crate::{frames, places};
use cnf::{Clauses, Lit, PushFault};
use profiles::{Ranking, Space, is_above, laws, place_of, ranking_count, ranking_text};
use vocab::{Literal, Name};

/// Outcomes that are strict rankings: the code of an outcome is the place of its ranking among all rankings,
/// whatever ballots the size has.
#[derive(Clone, Copy)]
pub struct RankingKind {
    space: Space,
    ghost ranks: { space.kind ≡ kinds.Ranking },
    ghost whole: { IsSize space },
}

impl RankingKind {
    /// The rankings at the profiles of a space.
    pub fn new(space: Space) -> RankingKind
        requires { space.kind ≡ kinds.Ranking }
        ensures { ⟦<RankingKind as OutcomeKind>⟧.size result ≡ space }
    {
        laws::spaces_have_sizes(&space);
        RankingKind { space }
    }

    /// The ranking that an outcome is.
    fn ranked(&self, outcome: u32) -> Ranking
        requires { outcome < factorial self.now.space.alternatives }
        ensures number { result.alternatives.number ≡ self.now.space.alternatives }
        ensures place { result.place ≡ outcome }
    {
        Ranking {
            alternatives: self.space.alternatives(),
            place: outcome,
        }
    }
}

impl OutcomeKind for RankingKind {
    ghost size = { λ k. k.space };

    fn space(&self) -> &Space {
        &self.space
    }

    fn outcomes(&self) -> u32 {
        ranking_count(self.space.alternatives())
    }

    fn bits(&self) -> u32 {
        places::pair_count(self.space.alternatives())
    }

    fn holds(&self, outcome: u32, literal: &Literal) -> bool {
        match *literal {
            Literal::Above(x, y, _) => {
                is_above(self.ranked(outcome), u32::from(x), u32::from(y))
            }
            _ => unreachable!(),
        }
    }

    fn lit(&self, literal: &Literal) -> Lit {
        match *literal {
            Literal::Above(x, y, p) => {
                if x < y {
                    frames::pair_lit(AtProfile::new(&self.space, p), true, x, y)
                } else {
                    frames::pair_lit(AtProfile::new(&self.space, p), false, y, x)
                }
            }
            _ => unreachable!(),
        }
    }

    fn literal(&self, lit: Lit) -> Literal {
        let alternatives = self.space.alternatives();
        let count = places::pair_count(alternatives);
        let variable = lit.variable() - 1;
        let (x, y) = places::pair_at(alternatives, variable % count);
        let p = variable / count;
        if lit.positive() {
            Literal::Above(x, y, p)
        } else {
            Literal::Above(y, x, p)
        }
    }

    fn frame(&self, p: u32, out: &mut Clauses) -> Result<(), PushFault> {
        frames::push_ranking(AtProfile::new(&self.space, p), out)
    }

    fn text(&self, outcome: u32) -> Name {
        ranking_text(self.ranked(outcome))
    }

    fn read(&self, text: &[u8]) -> Option<u32> {
        place_of(self.space.alternatives(), text)
    }

    ghost is_size = { λ k. k.whole };
}
