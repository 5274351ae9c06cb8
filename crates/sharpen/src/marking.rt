//! The marks of the instances that a story cites.

ghost use Rattle.std.specs.Prelude.{◌≡◌, length, map, All, IfOk, ◌<◌};
ghost use Rattle.sharp_verdicts.specs.Instances.{has_instance};
ghost use Rattle.sharpen.specs.Marks.{derived_instance, marks_kept};

use lists::{Items, NoMemory};
use meaning::{Witness, Witnesses};
use sharp_verdicts::{Cited, Instances};
use std::alloc::Global;
use vocab::Places;

/// A copy of a mark.
fn copied(alloc: Global, mark: &Witness) -> Result<Witness, NoMemory>
    ensures { IfOk result (λ copy. copy ≡ mark.now) }
{
    match mark {
        Witness::Rule(table) => {
            let mut copy = Items::with_room(alloc, table.len())?;
            copy.append(table.as_slice())?;
            Ok(Witness::Rule(copy))
        }
        Witness::Open(limit) => Ok(Witness::Open(*limit)),
    }
}

/// An instance is in a list.
fn is_among(instances: &Instances, cited: Cited) -> bool
    ensures { result ≡ has_instance instances.now cited }
{
    for instance in instances.as_slice() {
        if cited == *instance {
            return true;
        }
    }
    false
}

/// Of the marks of the instances of a core those of the instances that are listed.
pub fn marks_of(
    alloc: Global,
    instances: &Instances,
    core: &Places,
    witnesses: &Witnesses,
    listed: &Instances,
) -> Result<Witnesses, NoMemory>
    requires core { All (λ k. k < length instances.now) core.now }
    requires count { length witnesses.now ≡ length core.now }
    ensures { IfOk result
        (λ marks. marks ≡
        marks_kept listed.now (map (derived_instance instances.now) core.now) witnesses.now) }
{
    let mut marks = Items::new(alloc);
    for k in 0..core.len() {
        let cited = *instances.get(*core.get(k) as usize);
        if is_among(listed, cited) {
            marks.push(copied(alloc, witnesses.get(k))?)?;
        }
    }
    Ok(marks)
}
