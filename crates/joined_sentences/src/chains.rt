//! Numbers by a key.

use lists::NoMemory;
use std::alloc::Global;

/// Numbers from 0 on, each with a key below a bound. Of each key the newest number is found at once, and then
/// the ones before it.
#[derive(Drop)]
pub struct Chains {
    newest: Vec<Option<u32>>,
    older: Vec<Option<u32>>,
}

impl Chains {
    /// No number yet, with keys below a bound. The only error is want of memory.
    pub fn new(alloc: Global, keys: usize) -> Result<Chains, NoMemory> {
        Ok(Chains {
            newest: vec![in alloc; None; keys]?,
            older: Vec::new(alloc),
        })
    }

    /// The newest number of a key, if it has one and is below the bound.
    pub fn newest(&self, key: usize) -> Option<u32> {
        if key < self.newest.len() {
            self.newest[key]
        } else {
            None
        }
    }

    /// The next older number of the key of a number.
    pub(crate) fn older(&self, number: u32) -> Option<u32> {
        let number = number as usize;
        if number < self.older.len() {
            self.older[number]
        } else {
            None
        }
    }

    /// Gives the next number to a key; to none, where the key is not below the bound or the number is above
    /// 4,294,967,295. The only error is want of memory.
    pub fn push(&mut self, key: usize) -> Result<(), NoMemory> {
        let number = self.older.len();
        let older = self.newest(key);
        self.older.push(older)?;
        if key < self.newest.len() && number <= 4_294_967_295 {
            self.newest[key] = Some(number as u32);
        }
        Ok(())
    }

    /// Takes a key's numbers away from it.
    pub(crate) fn forget(&mut self, key: usize) {
        if key < self.newest.len() {
            self.newest[key] = None;
        }
    }

    /// Begins anew with number 0, once all keys are forgotten.
    pub(crate) fn restart(&mut self) {
        self.older.clear();
    }
}
