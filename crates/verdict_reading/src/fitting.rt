//! Lists without room to spare.

ghost use Rattle.std.specs.Prelude.{◌≡◌, IfOk};

use lists::{Items, NoMemory};
use std::alloc::Global;

/// The same items, in as much memory as they need.
pub(crate) fn fitted<T: Copy + Drop>(alloc: Global, items: Items<T>) -> Result<Items<T>, NoMemory>
    ensures { IfOk result (λ same. same ≡ items) }
{
    let mut same = Items::with_room(alloc, items.len())?;
    same.append(items.as_slice())?;
    Ok(same)
}
