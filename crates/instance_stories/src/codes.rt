//! Instances as numbers.

ghost use Rattle.std.specs.Prelude.{◌≡◌, ◌<◌, ◌≤◌, ℕ, All, IfOk, length, map};
ghost use Rattle.std.specs.List.Sorted.{IsNonDecreasing};
ghost use Rattle.grounding.specs.Rising.{RisesFrom, includes};
ghost use Rattle.instance_stories.specs.Codes.{code_of, AreRisingInstances, HaveAxiomRoom};

use lists::{Items, NoMemory};
use sharp_verdicts::{Cited, Instances};
use std::alloc::Global;

/// The instances of one axiom have this many numbers.
const BLOCK: u64 = 4_294_967_296;

/// The number of an instance.
pub fn code_of(cited: Cited) -> u64
    requires axiom { cited.axiom < 4000000 }
    requires number { cited.number < 40000000 }
    ensures { result ≡ code_of cited }
{
    (u64::from(cited.axiom) + 1) * BLOCK + cited.number
}

/// The instance of a number.
fn instance_of(code: u64) -> Cited
    requires { 4294967296 ≤ code }
    ensures code { code_of result ≡ code }
    ensures small { result.number < 4294967296 }
{
    Cited {
        axiom: (code / BLOCK - 1) as u32,
        number: code % BLOCK,
    }
}

/// The instances of numbers that do not fall, each once.
fn merged(alloc: Global, codes: &[u64]) -> Result<Instances, NoMemory>
    requires falls { IsNonDecreasing codes.now }
    requires some { All (λ n. 4294967296 ≤ n) codes.now }
    ensures rising { IfOk result AreRisingInstances }
    ensures small { IfOk result HaveAxiomRoom }
    ensures has { IfOk result
        (λ instances. (k : ℕ) → includes (map code_of instances) k ≡ includes codes.now k) }
    ensures few { IfOk result (λ instances. length instances ≤ length codes.now) }
{
    let mut instances = Items::new(alloc);
    let mut last = 0;
    for i in 0..codes.len() {
        let code = codes[i];
        if code != last {
            instances.push(instance_of(code))?;
            last = code;
        }
    }
    Ok(instances)
}

/// The instances of some numbers, by axiom and number, each once.
pub fn rising(alloc: Global, codes: &mut Vec<u64>) -> Result<Instances, NoMemory>
    requires some { All (λ n. 4294967296 ≤ n) codes.old.items }
    ensures rising { IfOk result AreRisingInstances }
    ensures small { IfOk result HaveAxiomRoom }
    ensures has { IfOk result
        (λ instances. (k : ℕ) → includes (map code_of instances) k ≡ includes codes.old.items k) }
    ensures few { IfOk result (λ instances. length instances ≤ length codes.old.items) }
{
    codes.sort_unstable();
    let instances = merged(alloc, codes.as_slice())?;
    Ok(instances)
}
