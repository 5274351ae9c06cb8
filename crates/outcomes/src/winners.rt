//! Variables of alternatives: a profile has one for each, which is true where the alternative wins. Every kind
//! whose literals say which alternatives win has these.

ghost use Rattle.std.specs.Prelude.{◌≡◌, ◌-◌, ◌≤◌, [], ◌∷◌, true, Err, OnOk};
ghost use Rattle.meaning.specs.Variables.{winner_at};
ghost use Rattle.outcomes.specs.Frames.{with_clauses, IsFullForAll};
ghost use Rattle.outcomes.specs.Places.{winner_lit};
ghost use Rattle.outcomes.specs.Rows.{some_wins};

use crate::at_profile::AtProfile;
use cnf::{Clauses, Lit, PushFault};
use profiles::Alternatives;
use vocab::Literal;

/// The variable of an alternative at a profile, with a sign.
pub fn winner_lit(at: AtProfile, positive: bool, x: u8) -> Lit
    ensures { result ≡ winner_lit at.alternatives.number at.profile positive x }
{
    let first = at.profile * u32::from(at.alternatives.number) + 1;
    Lit::new(first + u32::from(x), positive)
}

/// The literal of a variable with a sign.
pub fn winner_of(alternatives: Alternatives, lit: Lit) -> Literal
    requires { 1 ≤ lit.variable }
    ensures { result ≡ winner_at alternatives.number (lit.variable - 1) lit.positive }
{
    let count = u32::from(alternatives.number);
    let variable = lit.variable() - 1;
    let x = (variable % count) as u8;
    let p = variable / count;
    if lit.positive() {
        Literal::Wins(x, p)
    } else {
        Literal::Loses(x, p)
    }
}

/// Appends the clause that some alternative wins.
pub fn push_some_wins(at: AtProfile, out: &mut Clauses) -> Result<(), PushFault>
    ensures ok { OnOk result (out.new ≡ with_clauses out.old
        (some_wins at.alternatives.number at.profile ∷ []) at.profile) }
    ensures full { result ≡ Err PushFault.Full →
        IsFullForAll out.old (some_wins at.alternatives.number at.profile ∷ []) }
{
    let wins = [
        winner_lit(at, true, 0),
        winner_lit(at, true, 1),
        winner_lit(at, true, 2),
        winner_lit(at, true, 3),
        winner_lit(at, true, 4),
    ];
    out.push(
        &wins[..at.alternatives.number as usize],
        u64::from(at.profile),
    )
}
