//! Bytes that wait in front of a sink.

ghost use Rattle.std.specs.Prelude.{◌≡◌, ◌≤◌, ◌<◌, ◌+◌, ◌-◌, ◌++◌, [], min, take, drop, length, OnOk};
ghost use Rattle.std.specs.Io.{WritesAtMost};
ghost use Rattle.std.specs.Io.KnownBytes.{Keeps, WriteAppends, append_known};
ghost use Rattle.edge.specs.Faults.{HasCause};
ghost use Rattle.texts.specs.Page.{Grows, Pours};
ghost use Rattle.edge.specs.Sink.{TakesSome};
ghost use Rattle.edge.specs.Told.{TellsAsBefore};

use edge::{Failed, Sink};
use std::marker::Model;

/// How many bytes a page has room for.
const ROOM: usize = 4096;

/// Writes the bytes from a place on, and moves the place past what was written.
#[tactic(auto, using(crate::proofs::PageLemmas::moved_on, crate::proofs::PageLemmas::grows_more))]
fn drain<K: Sink>(out: &mut K, bytes: &[u8], from: &mut usize) -> Result<(), Failed>
    requires { from.old ≤ length bytes.now }
    ensures ok { OnOk result (from.new ≡ length bytes.now) }
    ensures order { from.old ≤ from.new }
    ensures within { from.new ≤ length bytes.now }
    ensures bytes { Keeps (append_known (K.taken out.old) (drop from.old bytes.now))
        (append_known (K.taken out.new) (drop from.new bytes.now)) }
    ensures grown { Grows (K.taken out.old) (K.taken out.new) }
    ensures tells { TellsAsBefore (K.taken out.old) (K.taken out.new) }
    ensures cause { HasCause (K.faults out.old) (K.faults out.new) result }
{
    let mut place = *from;
    while place < bytes.len() {
        match out.write(&bytes[place..]) {
            Ok(count) => {
                place += count;
            }
            Err(failed) => {
                *from = place;
                return Err(failed);
            }
        }
    }
    *from = place;
    Ok(())
}

/// Copies what there is room for behind an end.
fn copy_in(bytes: &mut [u8], end: usize, piece: &[u8]) -> usize
    requires { end ≤ length bytes.old }
    ensures count { result ≡ min (length piece.now) (length bytes.old - end) }
    ensures bytes { take (end + result) bytes.new ≡ take end bytes.old ++ take result piece.now }
{
    let count = piece.len().min(bytes.len() - end);
    bytes[end..end + count].copy_from_slice(&piece[..count]);
    count
}

/// At most 4,096 bytes that a sink is still to take. It takes no memory.
#[derive(Drop)]
pub struct Page {
    bytes: [u8; ROOM],
    from: usize,
    end: usize,
}

impl Model for Page {
    ghost use Rattle.std.specs.Prelude.{ℕ, List, ◌≤◌, drop, take, length};
    ghost use Rattle.texts.specs.Page.{IsWithinPage};

    ghost Value = { List ℕ };

    ghost view = { λ page. drop page.from (take page.end page.bytes) };

    ghost invariant = { λ page. IsWithinPage page.from page.end page.bytes };
}

impl Page {
    /// A page without bytes.
    pub fn new() -> Self
        ensures { result ≡ [] }
    {
        Page {
            bytes: [0; ROOM],
            from: 0,
            end: 0,
        }
    }

    /// Hands on all that the page holds. Where that fails, the page keeps what the sink did not take.
    pub fn hand_on<K: Sink>(&mut self, out: &mut K) -> Result<(), Failed>
        ensures ok { OnOk result (self.new ≡ []) }
        ensures bytes { Keeps (append_known (K.taken out.old) self.old)
            (append_known (K.taken out.new) self.new) }
        ensures grown { Grows (K.taken out.old) (K.taken out.new) }
        ensures tells { TellsAsBefore (K.taken out.old) (K.taken out.new) }
        ensures cause { HasCause (K.faults out.old) (K.faults out.new) result }
    {
        drain(out, &self.bytes[..self.end], &mut self.from)?;
        self.from = 0;
        self.end = 0;
        Ok(())
    }

    /// Takes a prefix of the piece, and some of a piece that has bytes. Where there is no room, what the page
    /// holds is handed on first, and where that fails nothing of the piece was taken.
    #[tactic(auto, using(crate::proofs::PageLemmas::grows_more))]
    pub fn write<K: Sink>(&mut self, out: &mut K, piece: &[u8]) -> Result<usize, Failed>
        ensures bound { WritesAtMost result piece.now }
        ensures some { TakesSome result piece.now }
        ensures bytes { WriteAppends (append_known (K.taken out.old) self.old)
            (append_known (K.taken out.new) self.new) result piece.now }
        ensures grown { Grows (K.taken out.old) (K.taken out.new) }
        ensures tells { TellsAsBefore (K.taken out.old) (K.taken out.new) }
        ensures cause { HasCause (K.faults out.old) (K.faults out.new) result }
    {
        let count = self.fill(piece);
        if count > 0 || piece.is_empty() {
            return Ok(count);
        }
        self.hand_on(out)?;
        Ok(self.fill(piece))
    }

    /// Takes what there is room for at the end; where the page holds nothing, there is room.
    fn fill(&mut self, piece: &[u8]) -> usize
        ensures bound { result ≤ length piece.now }
        ensures bytes { self.new ≡ self.old ++ take result piece.now }
        ensures some { self.old ≡ [] → 0 < length piece.now → 0 < result }
    {
        if self.from == self.end {
            self.from = 0;
            self.end = copy_in(&mut self.bytes, 0, piece);
            return self.end;
        }
        let count = copy_in(&mut self.bytes, self.end, piece);
        self.end += count;
        count
    }

    /// Takes the whole piece. Where it fails, a prefix of the piece was taken.
    #[tactic(auto, using(edge::proofs::Known::appends_take, crate::proofs::PageLemmas::grows_more))]
    pub fn put<K: Sink>(&mut self, out: &mut K, piece: &[u8]) -> Result<(), Failed>
        ensures { Pours (K.taken out.old) (K.taken out.new) self.old self.new
            (K.faults out.old) (K.faults out.new) result piece.now }
    {
        let mut done = 0;
        while done < piece.len() {
            done += self.write(out, &piece[done..])?;
        }
        Ok(())
    }
}
