//! The programs that have rows.

ghost use Rattle.std.specs.Thread.{IsSync};

use edge::MemorySink;
use std::rt::Files;
use std::thread::Threads;

/// A program, by its top call.
pub trait Program {
    /// The word with which its rows begin.
    fn word(&self) -> &'static str;

    /// What a call with these words comes to, over the files that they name: its status, and how many clauses its
    /// spent searches learned. The sink gets what is written.
    fn call<R: Files + AllocGlobal + Threads + Sync>(
        &self,
        rt: &R,
        words: &[String],
        out: &mut MemorySink,
    ) -> (u8, usize)
        requires { IsSync R.row };
}
