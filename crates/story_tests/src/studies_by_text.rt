//! Studies of two axioms by their texts.

ghost use Rattle.std.specs.Prelude.{◌≡◌, length, IfOk};

use std::alloc::Global;
use std::test::Fail;
use study::read_study;
use vocab::{Size, Study};

/// The study that a text says, of this size and with two axioms.
pub fn of_two_axioms(alloc: Global, text: &str, size: Size) -> Result<Box<Study>, Fail>
    ensures size { IfOk result (λ study. study.value.size ≡ size) }
    ensures axioms { IfOk result (λ study. length study.value.axioms ≡ 2) }
{
    let study = Box::new(
        alloc,
        read_study(alloc, text.as_bytes()).ok().ok_or("study")?,
    )?;
    if study.size() != size || study.axioms().len() != 2 {
        return Err(Fail::from("another study"));
    }
    Ok(study)
}
