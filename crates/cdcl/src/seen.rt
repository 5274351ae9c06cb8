//! The variables that are marked while a conflict is traced back.

ghost use Rattle.std.specs.Prelude.{◌≡◌, ◌<◌, All, true, false, length, replicate, IfOk, slice_index_or, slice_set};

use lists::NoMemory;
use std::alloc::Global;
use std::marker::Model;

/// Which variables are marked. A variable is marked where its stamp is the number of the round, so that a
/// next round unmarks all of them at once. Only `new` takes memory.
#[derive(Drop)]
pub struct Seen {
    stamps: Vec<u32>,
    round: u32,
}

impl Model for Seen {
    ghost use Rattle.std.specs.Prelude.{List, Bool, ◌≤◌, All};
    ghost use Rattle.cdcl.specs.Seen.{marks_of};

    ghost Value = { List Bool };

    ghost view = { λ s. marks_of s.round s.stamps.items };

    ghost invariant = { λ s. All (λ stamp. stamp ≤ s.round) s.stamps.items };
}

impl Seen {
    /// This many variables, none of them marked.
    pub fn new(alloc: Global, variables: u32) -> Result<Seen, NoMemory>
        ensures { IfOk result (λ seen. seen ≡ replicate variables false) }
    {
        Ok(Seen {
            stamps: vec![in alloc; 0; variables as usize]?,
            round: 1,
        })
    }

    /// Whether the variable at a place, from 0, is marked.
    pub fn is_marked(&self, place: usize) -> bool
        requires { place < length self.now }
        ensures { result ≡ slice_index_or self.now place false }
    {
        self.stamps.as_slice()[place] == self.round
    }

    /// Marks the variable at a place.
    pub fn mark(&mut self, place: usize)
        requires { place < length self.old }
        ensures { self.new ≡ slice_set self.old place true }
    {
        self.stamps[place] = self.round;
    }

    /// Unmarks all variables. After the last round that has a number, the rounds begin anew.
    pub fn clear(&mut self)
        ensures { self.new ≡ replicate (length self.old) false }
    {
        if self.round == u32::MAX {
            clear_stamps(&mut self.stamps);
            self.round = 1;
            return;
        }
        self.round += 1;
    }
}

/// Sets all stamps to 0.
fn clear_stamps(stamps: &mut Vec<u32>)
    ensures { stamps.new.items ≡ replicate (length stamps.old.items) 0 }
{
    stamps.as_mut_slice().fill(0);
}
