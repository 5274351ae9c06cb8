//! The names of instances that are axioms.

ghost use Rattle.std.specs.Prelude.{◌≡◌, IfOk};
ghost use Rattle.sharp_verdicts.specs.Derived.{instance_name};

use itoa::Buffer;
use lists::NoMemory;
use std::alloc::Global;
use vocab::Name;

/// The name of the axiom at a place: `i0`, `i1` and so on.
pub fn name_of(alloc: Global, place: u32) -> Result<Name, NoMemory>
    ensures { IfOk result (λ name. name ≡ instance_name place) }
{
    let mut buffer = Buffer::new();
    let mut text = Vec::new(alloc);
    text.push(b'i')?;
    text.extend_from_slice(buffer.format(place).as_bytes())?;
    Ok(Name::new(text.as_slice()).unwrap())
}
