//! The watchers of each literal, as linked lists of nodes.

ghost use Rattle.std.specs.Prelude.{◌≡◌, ℕ, ◌+◌, ◌<◌, ◌≤◌, List, [], ◌∷◌, ◌++◌, All, AllPairs, ◌≢◌, Contains, IfOk, IfSome, IfNone, OnOk, OnErr, Some, None, length, slice_index, slice_set};
ghost use Rattle.propagate.specs.Watchers.{WatchersState, Detached};

use lists::NoMemory;
use std::alloc::Global;
use std::marker::Model;

/// The link after the last node.
const END: usize = usize::MAX;

/// Linked lists of nodes. Clause k has the nodes 2k and 2k + 1, one for each literal at which it is watched.
/// The owner of a node is the number of the list of its literal, or 0 where the clause is not watched. Each
/// node is in the list of its owner, or loose while its list is visited: then `cursor` is the first loose
/// node. Only `new` and `reserve` take memory.
#[derive(Drop)]
pub struct Watchers {
    owners: Vec<u32>,
    heads: Vec<usize>,
    next: Vec<usize>,
    cursor: usize,
}

impl Model for Watchers {
    ghost use Rattle.std.specs.Prelude.{length, vec_capacity};
    ghost use Rattle.propagate.specs.Watchers.{WatchersState, IsLinked, follow, room_of};

    ghost Value = { WatchersState };

    ghost view = { λ l.
        record {
          owners = l.owners.items;
          lists = length l.heads.items;
          loose = follow l.next.items l.cursor (length l.next.items);
          room = room_of (vec_capacity l.owners) (vec_capacity l.next);
        } };

    ghost invariant = { λ l. IsLinked l.owners.items l.heads.items l.next.items l.cursor };
}

impl Watchers {
    /// This many empty lists.
    pub fn new(alloc: Global, lists: usize) -> Result<Watchers, NoMemory>
        ensures owners { IfOk result (λ l. l.owners ≡ []) }
        ensures lists { IfOk result (λ l. l.lists ≡ lists) }
        ensures loose { IfOk result (λ l. l.loose ≡ []) }
    {
        let mut heads = Vec::with_capacity(alloc, lists)?;
        for _ in 0..lists {
            heads.push(END)?;
        }
        Ok(Watchers {
            owners: Vec::new(alloc),
            heads,
            next: Vec::new(alloc),
            cursor: END,
        })
    }

    /// Makes room for two more nodes.
    pub fn reserve(&mut self) -> Result<(), NoMemory>
        ensures owners { self.new.owners ≡ self.old.owners }
        ensures lists { self.new.lists ≡ self.old.lists }
        ensures loose { self.new.loose ≡ self.old.loose }
        ensures room { OnOk result (length self.new.owners + 2 ≤ self.new.room) }
    {
        self.owners.reserve(2)?;
        self.next.reserve(2)?;
        Ok(())
    }

    /// Adds a node to the list of its owner.
    pub fn add(&mut self, owner: u32)
        requires room { length self.old.owners + 1 ≤ self.old.room }
        requires few { length self.old.owners < 18446744073709551615 }
        requires loose { self.old.loose ≡ [] }
        requires list { owner < self.old.lists }
        ensures owners { self.new.owners ≡ self.old.owners ++ owner ∷ [] }
        ensures lists { self.new.lists ≡ self.old.lists }
        ensures loose { self.new.loose ≡ [] }
        ensures room { self.new.room ≡ self.old.room }
    {
        let node = self.owners.as_slice().len();
        self.owners.push_reserved(owner);
        self.next.push_reserved(self.heads[owner as usize]);
        self.heads[owner as usize] = node;
    }

    /// The owner of a node.
    pub fn owner(&self, node: usize) -> u32
        requires { node < length self.now.owners }
        ensures { result ≡ slice_index self.now.owners node }
    {
        self.owners.as_slice()[node]
    }

    /// Makes the nodes of a list loose.
    pub fn detach(&mut self, list: u32)
        requires loose { self.old.loose ≡ [] }
        requires list { list < self.old.lists }
        ensures owners { self.new.owners ≡ self.old.owners }
        ensures lists { self.new.lists ≡ self.old.lists }
        ensures loose { Detached self.new.owners list self.new.loose }
    {
        self.cursor = self.heads[list as usize];
        self.heads[list as usize] = END;
    }

    /// The first loose node.
    pub fn first(&self) -> Option<usize>
        ensures some { IfSome result (λ n. (rest : List ℕ) × (self.now.loose ≡ n ∷ rest)) }
        ensures none { IfNone result (self.now.loose ≡ []) }
    {
        if self.cursor == END {
            return None;
        }
        Some(self.cursor)
    }

    /// Puts the first loose node into a list.
    pub fn relink(&mut self, list: u32)
        requires list { list < self.old.lists }
        requires some { 1 ≤ length self.old.loose }
        ensures owners { (n : ℕ) (rest : List ℕ) → self.old.loose ≡ n ∷ rest →
            self.new.owners ≡ slice_set self.old.owners n list }
        ensures loose { (n : ℕ) (rest : List ℕ) → self.old.loose ≡ n ∷ rest → self.new.loose ≡ rest }
        ensures lists { self.new.lists ≡ self.old.lists }
    {
        let node = self.cursor;
        self.cursor = self.next[node];
        self.owners[node] = list;
        self.next[node] = self.heads[list as usize];
        self.heads[list as usize] = node;
    }
}
