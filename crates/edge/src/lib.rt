//! The outside: files that are read by name, a sink that takes bytes, and a gate that work passes.
//!
//! `Shelf` and `Sink` say what a device does with bytes, where it tells them, and count its faults, so that a
//! caller can show that a failure is a failure of the device. There are devices in memory, which can be made
//! to fail at chosen calls; calm ones, which never fail; and those of the system, which promise nothing of
//! content.
#![tactic(auto)]

mod calls;
mod calm;
mod faults;
mod files;
mod gate;
mod memory_shelf;
mod memory_sink;
mod shelf;
mod sink;
mod system;

/// Bytes that contracts see as a list.
pub type Bytes = lists::Items<u8>;

pub use calm::{CalmShelf, CalmSink};
pub use faults::{Failed, ReadFault, RewindFault};
pub use gate::{Gate, Open};
pub use memory_shelf::MemoryShelf;
pub use memory_sink::MemorySink;
pub use shelf::{Shelf, read_all};
pub use sink::{Sink, put_all};
pub use system::{FileShelf, StdSink};
