//! A sink in front of a sink.

ghost use Rattle.std.specs.Prelude.{◌≡◌, [], OnOk};
ghost use Rattle.std.specs.Io.{WritesAtMost};
ghost use Rattle.std.specs.Io.KnownBytes.{Keeps, WriteAppends, append_known};
ghost use Rattle.edge.specs.Faults.{HasCause};
ghost use Rattle.texts.specs.Page.{Grows};
ghost use Rattle.edge.specs.Sink.{TakesSome};
ghost use Rattle.edge.specs.Told.{TellsAsBefore};

use crate::page::Page;
use edge::{Failed, Sink};

/// Holds up to 4,096 bytes of what it takes, in place, before it hands them on. It has taken what the sink
/// behind it took and then what it holds, and `flush` hands on all. What it holds when it is dropped is lost.
#[derive(Drop)]
pub struct Buffered<'a, K: Sink> {
    /// The sink behind it.
    pub out: &'a mut K,
    /// What it holds.
    pub page: Page,
}

impl<'a, K: Sink> Buffered<'a, K> {
    /// A sink that holds nothing yet.
    pub fn new(out: &'a mut K) -> Self
        ensures same_reference { result.out.ghost_name ≡ out.entry.ghost_name }
        ensures behind { result.out.now ≡ out.old }
        ensures empty { result.page ≡ [] }
    {
        Buffered {
            out,
            page: Page::new(),
        }
    }
}

impl<K: Sink> Sink for Buffered<'_, K> {
    ghost taken = { λ sink. append_known (K.taken sink.out.now) sink.page };

    ghost faults = { λ sink. K.faults sink.out.now };

    fn write(&mut self, piece: &[u8]) -> Result<usize, Failed>
        ensures bound { WritesAtMost result piece.now }
        ensures some { TakesSome result piece.now }
        ensures bytes { WriteAppends (append_known (K.taken self.old.out.now) self.old.page)
            (append_known (K.taken self.new.out.now) self.new.page) result piece.now }
        ensures tells { TellsAsBefore (append_known (K.taken self.old.out.now) self.old.page)
            (append_known (K.taken self.new.out.now) self.new.page) }
        ensures cause { HasCause (K.faults self.old.out.now) (K.faults self.new.out.now) result }

        // The sink behind it is the same, and only takes more.
        ensures same_reference { self.new.out.ghost_name ≡ self.old.out.ghost_name }
        ensures grown { Grows (K.taken self.old.out.now) (K.taken self.new.out.now) }
    {
        self.page.write(self.out, piece)
    }

    fn flush(&mut self) -> Result<(), Failed>
        ensures bytes { Keeps (append_known (K.taken self.old.out.now) self.old.page)
            (append_known (K.taken self.new.out.now) self.new.page) }
        ensures tells { TellsAsBefore (append_known (K.taken self.old.out.now) self.old.page)
            (append_known (K.taken self.new.out.now) self.new.page) }
        ensures cause { HasCause (K.faults self.old.out.now) (K.faults self.new.out.now) result }

        // It hands on all.
        ensures all { OnOk result (self.new.page ≡ []) }
        ensures same_reference { self.new.out.ghost_name ≡ self.old.out.ghost_name }
    {
        self.page.hand_on(self.out)?;
        self.out.flush()
    }
}
