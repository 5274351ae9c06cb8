//! The values of terms.

ghost use Rattle.std.specs.Prelude.{◌≡◌, ◌<◌};
ghost use Rattle.vocab.specs.declared.kinds.Sort.{Sort};
ghost use Rattle.vocab.specs.Size.{sort_count};
ghost use Rattle.vocab.specs.Tree.{term_tree};
ghost use Rattle.meaning.specs.Truth.{value};
ghost use Rattle.worlds.specs.Conditions.{HasSort, IsTermAt};

use profiles::Space;
use vocab::{Env, Term};

/// The value of a term, where the variables have the values of the environment.
pub fn value(space: &Space, term: &Term, env: &Env) -> u32
    requires { HasSort space.now (term_tree term.now) env.now }
    ensures value { result ≡ value space.now env.now (term_tree term.now) }
    ensures in_range { (sort : Sort) → IsTermAt space.now sort (term_tree term.now) env.now →
        result < sort_count space.now sort }
{
    match term {
        Term::Var(level) => env.get(*level),
        Term::Const(number) => *number,
        Term::With(p, i, b) => {
            space.with(
                value(space, p, env),
                value(space, i, env),
                value(space, b, env),
            )
        }
        Term::SwapVoters(p, i, j) => {
            space.swap_voters(
                value(space, p, env),
                value(space, i, env),
                value(space, j, env),
            )
        }
        Term::SwapAlts(p, x, y) => {
            space.swap_alts(
                value(space, p, env),
                value(space, x, env),
                value(space, y, env),
            )
        }
        Term::Swap(x, y, z) => {
            space.swap(
                value(space, x, env),
                value(space, y, env),
                value(space, z, env),
            )
        }
    }
}
