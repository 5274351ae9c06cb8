//! Parts in the order of their pieces for every number of workers, a gate that is told of each piece, and work
//! that so many workers share, and no more.

ghost use Rattle.std.specs.Prelude.{◌≡◌, length};

use crew::{Crew, Job, Parts, map_pieces};
use edge::{Gate, Open};
use lists::NoMemory;
use std::sync::atomic::{AtomicU64, Ordering};
use std::test::Fail;

/// Each piece gives its square. There is no memory for one of them.
#[derive(Clone, Copy)]
struct Squares {
    refused: u32,
}

impl Job for Squares {
    type Part = u64;

    ghost has = { λ _ _. Unit {0} };

    ghost is_right = { λ _ _ _. Unit {0} };

    fn part(&self, piece: u32) -> Result<u64, NoMemory> {
        if piece == self.refused {
            return Err(NoMemory);
        }
        Ok(u64::from(piece) * u64::from(piece))
    }
}

/// How many pieces there are, and among how many workers.
static SHARED: [(u32, u8); 7] = [(0, 1), (1, 16), (5, 1), (5, 2), (5, 3), (17, 4), (3, 16)];

/// For which of five pieces there is no memory, and among how many workers.
static REFUSED: [(u32, u8); 5] = [(0, 1), (4, 1), (0, 3), (2, 2), (4, 16)];

// Each table is handed out as a slice, so that the proof of a test need not read it.
fn shared() -> &'static [(u32, u8)] {
    &SHARED
}

fn refused_pieces() -> &'static [(u32, u8)] {
    &REFUSED
}

/// Whether the parts are the squares of the pieces in order.
fn are_squares(parts: &Parts<u64>, pieces: u32) -> bool
    requires { length parts.now ≡ pieces }
{
    for piece in 0..pieces {
        if *parts.get(piece as usize) != u64::from(piece) * u64::from(piece) {
            return false;
        }
    }
    true
}

#[test]
fn parts_come_in_order(rt: HostRuntime) -> Result<(), Fail> {
    let job = Squares { refused: 100 };
    for (pieces, workers) in shared() {
        assert!(rt; 1 <= *workers && *workers <= 16);
        let crew = Crew {
            rt: &rt,
            gate: &Open,
            workers: *workers,
        };
        let parts = map_pieces(rt.alloc(), &crew, &job, *pieces)?;
        assert!(rt; parts.len() == *pieces as usize && are_squares(&parts, *pieces));
    }
    Ok(())
}

#[test]
fn a_piece_without_memory_is_the_answer(rt: HostRuntime) {
    for (refused, workers) in refused_pieces() {
        assert!(rt; 1 <= *workers && *workers <= 16);
        let job = Squares { refused: *refused };
        let crew = Crew {
            rt: &rt,
            gate: &Open,
            workers: *workers,
        };
        assert!(rt; map_pieces(rt.alloc(), &crew, &job, 5).is_err());
    }
}

/// A gate that counts its calls, and notes the pieces that it is told of, each by a bit of its own.
#[derive(Drop)]
struct Counting {
    calls: AtomicU64,
    pieces: AtomicU64,
}

impl Gate for Counting {
    fn enter(&self, piece: u32) {
        self.calls.fetch_add(1, Ordering::SeqCst);
        self.pieces
            .fetch_or(1u64.wrapping_shl(piece), Ordering::SeqCst);
    }
}

// The bits of 17 pieces are 2^17 - 1.
#[test]
fn the_gate_is_told_of_each_piece(rt: HostRuntime) -> Result<(), Fail> {
    for workers in [1, 4] {
        let gate = Counting {
            calls: AtomicU64::new(0),
            pieces: AtomicU64::new(0),
        };
        let crew = Crew {
            rt: &rt,
            gate: &gate,
            workers,
        };
        map_pieces(rt.alloc(), &crew, &Squares { refused: 100 }, 17)?;
        let told = [
            gate.calls.load(Ordering::SeqCst),
            gate.pieces.load(Ordering::SeqCst),
        ];
        assert!(rt; told == [17, 131_071]);
    }
    Ok(())
}

/// How many pieces have begun and not ended, and the most that these ever were.
#[derive(Drop)]
struct Inside {
    now: AtomicU64,
    most: AtomicU64,
}

impl Gate for Inside {
    fn enter(&self, _piece: u32) {
        let before = self.now.fetch_add(1, Ordering::SeqCst);
        self.most
            .fetch_max(before.saturating_add(1), Ordering::SeqCst);
    }
}

/// Each piece stays inside for a while, so that others that have begun are counted with it.
#[derive(Drop)]
struct Staying<'a> {
    inside: &'a Inside,
}

impl<'a> Job for Staying<'a> {
    type Part = u64;

    ghost has = { λ _ _. Unit {0} };

    ghost is_right = { λ _ _ _. Unit {0} };

    fn part(&self, _piece: u32) -> Result<u64, NoMemory> {
        let mut most = 0;
        for _ in 0..200_000 {
            most = self.inside.most.load(Ordering::SeqCst);
        }
        self.inside.now.fetch_sub(1, Ordering::SeqCst);
        Ok(most)
    }
}

#[test]
fn no_more_pieces_are_inside_than_workers(rt: HostRuntime) -> Result<(), Fail> {
    for workers in [1, 2, 3, 4, 16] {
        let inside = Inside {
            now: AtomicU64::new(0),
            most: AtomicU64::new(0),
        };
        let crew = Crew {
            rt: &rt,
            gate: &inside,
            workers,
        };
        map_pieces(rt.alloc(), &crew, &Staying { inside: &inside }, 17)?;
        let most = inside.most.load(Ordering::SeqCst);
        assert!(rt; 1 <= most && most <= u64::from(workers));
        assert!(rt; inside.now.load(Ordering::SeqCst) == 0);
    }
    Ok(())
}

/// A gate whose first call waits for its second.
#[derive(Drop)]
struct Meeting {
    calls: AtomicU64,
    second: AtomicU64,
    met: AtomicU64,
}

impl Gate for Meeting {
    fn enter(&self, _piece: u32) {
        if self.calls.fetch_add(1, Ordering::SeqCst) > 0 {
            self.second.store(1, Ordering::SeqCst);
            return;
        }
        for _ in 0..200_000_000 {
            if self.second.load(Ordering::SeqCst) == 1 {
                self.met.store(1, Ordering::SeqCst);
                return;
            }
        }
    }
}

#[test]
fn two_workers_share_the_work(rt: HostRuntime) -> Result<(), Fail> {
    let gate = Meeting {
        calls: AtomicU64::new(0),
        second: AtomicU64::new(0),
        met: AtomicU64::new(0),
    };
    let crew = Crew {
        rt: &rt,
        gate: &gate,
        workers: 2,
    };
    let parts = map_pieces(rt.alloc(), &crew, &Squares { refused: 100 }, 2)?;
    assert!(rt; parts.len() == 2);
    assert!(rt; gate.met.load(Ordering::SeqCst) == 1);
    Ok(())
}

/// A gate at which the first three pieces wait for one another, and which notes these, each by a bit of its own.
#[derive(Drop)]
struct FirstThree {
    calls: AtomicU64,
    pieces: AtomicU64,
}

impl Gate for FirstThree {
    fn enter(&self, piece: u32) {
        if self.calls.fetch_add(1, Ordering::SeqCst) >= 3 {
            return;
        }
        self.pieces
            .fetch_or(1u64.wrapping_shl(piece), Ordering::SeqCst);
        for _ in 0..200_000_000 {
            if self.calls.load(Ordering::SeqCst) >= 3 {
                return;
            }
        }
    }
}

// The runs of nine pieces among three workers begin at the pieces 0, 3 and 6.
#[test]
fn pieces_are_cut_as_the_workers_are(rt: HostRuntime) -> Result<(), Fail> {
    let gate = FirstThree {
        calls: AtomicU64::new(0),
        pieces: AtomicU64::new(0),
    };
    let crew = Crew {
        rt: &rt,
        gate: &gate,
        workers: 3,
    };
    map_pieces(rt.alloc(), &crew, &Squares { refused: 100 }, 9)?;
    assert!(rt; gate.pieces.load(Ordering::SeqCst) == 73);
    Ok(())
}
