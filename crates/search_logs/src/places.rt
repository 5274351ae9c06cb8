//! The axioms of a study by their places.

ghost use Rattle.std.specs.Prelude.{◌≡◌, IfOk};
ghost use Rattle.search_logs.specs.Spent.{all_places};

use lists::{Items, NoMemory};
use std::alloc::Global;
use vocab::{Places, Study};

/// The places of all axioms of a study, in order.
pub fn all_places(alloc: Global, study: &Study) -> Result<Places, NoMemory>
    ensures { IfOk result (λ places. places ≡ all_places study.now) }
{
    let mut places = Items::new(alloc);
    for k in 0..study.axioms().len() {
        places.push(k as u32)?;
    }
    Ok(places)
}
