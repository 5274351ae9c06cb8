//! Studies of choices by their texts.

ghost use Rattle.std.specs.Prelude.{◌≡◌, length, IfOk};

use std::alloc::Global;
use std::test::Fail;
use study::read_study;
use vocab::{Kind, Study};

/// The study of choices that a text says, with so many axioms.
pub fn choices(alloc: Global, text: &str, axioms: usize) -> Result<Box<Study>, Fail>
    ensures kind { IfOk result (λ study. study.value.size.kind ≡ Kind.Choice) }
    ensures axioms { IfOk result (λ study. length study.value.axioms ≡ axioms) }
{
    let study = Box::new(
        alloc,
        read_study(alloc, text.as_bytes()).ok().ok_or("study")?,
    )?;
    if study.size().kind() != Kind::Choice || study.axioms().len() != axioms {
        return Err(Fail::from("another study"));
    }
    Ok(study)
}
