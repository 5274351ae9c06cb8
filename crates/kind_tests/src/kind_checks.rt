//! What is asked of every kind of outcomes.

ghost use Rattle.std.specs.Prelude.{◌≡◌, ◌+◌, ◌*◌, ◌<◌, length, IsTrue, IfOk};
ghost use Rattle.vocab.specs.declared.kinds.Sort.TheVariants.{Profile};
ghost use Rattle.vocab.specs.Size.{sort_count, outcome_count};
ghost use Rattle.cnf.specs.Assignment.{value_of};
ghost use Rattle.cnf.specs.Sat.{is_satisfied};
ghost use Rattle.meaning.specs.Variables.{bits};
ghost use Rattle.outcomes.specs.Frames.{frame_clauses};

use cnf::{Bits, Clauses, Lit};
use lists::NoMemory;
use outcomes::{OutcomeKind, laws};
use std::alloc::Global;
use std::process::Abort;
use vocab::Literal;

/// Takes what workers on several threads may read.
pub fn share<T: Send + Sync>(_shared: &T) {}

/// Whether the clauses are these, each followed by a 0, in which a variable without its sign is negative,
/// and each has this origin.
fn are(clauses: &Clauses, origin: u32, want: &[i64]) -> bool {
    let mut rest = want;
    for k in 0..clauses.len() {
        for lit in clauses.get(k) {
            let number = i64::from(lit.variable());
            let signed = if lit.positive() { number } else { -number };
            let Some((first, after)) = rest.split_first() else {
                return false;
            };
            if *first != signed {
                return false;
            }
            rest = after;
        }
        let Some((0, after)) = rest.split_first() else {
            return false;
        };
        if clauses.origin(k) != u64::from(origin) {
            return false;
        }
        rest = after;
    }
    rest.is_empty()
}

/// Whether the frame of a profile is these clauses, each followed by a 0.
pub fn has_frame<K: OutcomeKind>(alloc: Global, kind: &K, p: u32, want: &[i64]) -> bool {
    if p >= kind.space().count() {
        return false;
    }
    let mut clauses = Clauses::new(alloc);
    kind.frame(p, &mut clauses).is_ok() && are(&clauses, p, want)
}

/// Whether a variable without negation stands for this literal, and with it for the opposite.
pub fn stands_for<K: OutcomeKind>(kind: &K, variable: u32, literal: Literal) -> bool {
    laws::literals_are_variables(kind);
    let count = kind.space().count() * kind.bits();
    if variable == 0 || variable > count {
        return false;
    }
    let lit = Lit::new(variable, true);
    let found = kind.literal(lit);
    found == literal && kind.lit(&found) == lit && kind.literal(lit.opposite()) == found.opposite()
}

/// Whether an outcome has this text, and is read from it.
pub fn has_text<K: OutcomeKind>(kind: &K, outcome: u32, text: &[u8]) -> bool {
    outcome < kind.outcomes()
        && kind.text(outcome).bytes() == text
        && kind.read(text) == Some(outcome)
}

/// Variables up to those of profile p, of which these have the truth values of an outcome.
fn bits_of<K: OutcomeKind>(kind: &K, outcome: u32, p: u32, alloc: Global) -> Result<Bits, NoMemory>
    requires outcome { outcome < outcome_count (K.size kind.now).kind (K.size kind.now).alternatives }
    requires profile { p < sort_count (K.size kind.now) Profile }
    ensures { IfOk result (λ b.
        (length b ≡ (p + 1) * bits (K.size kind.now).kind (K.size kind.now).alternatives) ×
        IsTrue (is_satisfied (value_of b) (frame_clauses (K.size kind.now) p))) }
{
    laws::frames_say_one_outcome(kind);
    let count = kind.bits();
    let mut values = Bits::new(alloc, (p + 1) * count)?;
    for place in 0..count {
        let variable = p * count + place + 1;
        values.set(variable, kind.encode(outcome, Lit::new(variable, true)));
    }
    Ok(values)
}

/// Whether each outcome is read off its variables at profile p.
pub fn decodes<K: OutcomeKind>(rt: &impl Abort, alloc: Global, kind: &K, p: u32) -> bool {
    if p >= kind.space().count() {
        return false;
    }
    for outcome in 0..kind.outcomes() {
        let values = bits_of(kind, outcome, p, alloc).expect(rt, "memory");
        if kind.decode(&values, p) != outcome {
            return false;
        }
    }
    true
}
