//! The words of the bench: sizes, names, sentences, literals, studies and tables.
#![tactic(auto)]

mod environments;
mod kinds;
mod literals;
mod named;
mod names;
mod sentences;
mod sizes;
mod studies;
mod tables;

pub use environments::Env;
pub use kinds::{Kind, Sort};
pub use literals::Literal;
pub use named::{Named, NamedTerm, Terms};
pub use names::Name;
pub use sentences::{Atom, Formula, Term};
pub use sizes::{Size, SizeFault};
pub use studies::{Axiom, Axioms, Study};
pub use tables::{Places, Table};
