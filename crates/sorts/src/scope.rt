//! The quantifiers around a part of a sentence.

ghost use Rattle.std.specs.Prelude.{◌≡◌, ◌≤◌, length};
ghost use Rattle.sorts.specs.Scope.{sort_in, level_in};
ghost use Rattle.sorts.specs.ScopeView.{scope_of};

use vocab::{Name, Sort};

/// The quantifiers around a part of a sentence, each with its name and its sort, and those outside it.
#[derive(Clone, Copy)]
pub enum Scope<'a> {
    Outside,
    Inside(Name, Sort, &'a Scope<'a>),
}

impl Scope<'_> {
    /// How many quantifiers there are.
    pub fn len(&self) -> u8
        requires { length (scope_of self.now) ≤ 12 }
        ensures { result ≡ length (scope_of self.now) }
    {
        match self {
            Scope::Outside => 0,
            Scope::Inside(_, _, outer) => outer.len() + 1,
        }
    }

    /// The sort of the innermost quantifier that binds the name.
    #[tactic(auto, unfolding(crate::specs::Scope::sort_in))]
    pub fn sort_of(&self, name: &Name) -> Option<Sort>
        ensures { result ≡ sort_in name.now (scope_of self.now) }
    {
        match self {
            Scope::Outside => None,
            Scope::Inside(bound, sort, outer) => {
                if name.bytes() == bound.bytes() {
                    Some(*sort)
                } else {
                    outer.sort_of(name)
                }
            }
        }
    }

    /// How many quantifiers stand outside the innermost that binds the name.
    pub fn level_of(&self, name: &Name) -> u8
        requires { length (scope_of self.now) ≤ 12 }
        ensures { result ≡ level_in name.now (scope_of self.now) }
    {
        match self {
            Scope::Outside => 0,
            Scope::Inside(bound, _, outer) => {
                if name.bytes() == bound.bytes() {
                    outer.len()
                } else {
                    outer.level_of(name)
                }
            }
        }
    }
}
