//! That two workers share their work: the first waits for the second.

use crate::test_calls::{ARROW, answered};
use edge::{Gate, Open};
use std::sync::atomic::{AtomicU64, Ordering};
use std::test::Fail;

/// A gate whose first call waits for its second.
#[derive(Drop)]
struct Meeting {
    calls: AtomicU64,
    second: AtomicU64,
    met: AtomicU64,
}

impl Meeting {
    /// No call came yet.
    fn new() -> Meeting {
        Meeting {
            calls: AtomicU64::new(0),
            second: AtomicU64::new(0),
            met: AtomicU64::new(0),
        }
    }

    /// Whether the second call came while the first waited.
    fn has_met(&self) -> bool {
        self.met.load(Ordering::SeqCst) == 1
    }
}

impl Gate for Meeting {
    fn enter(&self, _piece: u32) {
        if self.calls.fetch_add(1, Ordering::SeqCst) > 0 {
            self.second.store(1, Ordering::SeqCst);
            return;
        }
        for _ in 0..200_000_000 {
            if self.second.load(Ordering::SeqCst) == 1 {
                self.met.store(1, Ordering::SeqCst);
                return;
            }
        }
    }
}

#[test]
fn two_workers_share_the_check_of_a_rule(rt: HostRuntime) -> Result<(), Fail> {
    let alloc = rt.alloc();
    let study =
        b"kind = \"ranking\"\nvoters = 2\nalternatives = 3\naxioms = [\"independence\", \"pareto\"]\n";
    let rule = answered(&rt, alloc, &Open, &["decide", "first"], study, b"", 10_000)?;
    let gate = Meeting::new();
    let words = ["check", "--workers=2", "first", "second"];
    let report = rule.bytes.as_slice();
    let said = answered(&rt, alloc, &gate, &words, study, report, 1_000)?;
    assert!(rt; said.is(0, b"confirmed possible\n") && gate.has_met());
    Ok(())
}

#[test]
fn two_workers_share_the_clauses_of_a_study(rt: HostRuntime) -> Result<(), Fail> {
    let gate = Meeting::new();
    let words = ["export", "first", "--workers", "2"];
    let study = ARROW.as_bytes();
    let found = answered(&rt, rt.alloc(), &gate, &words, study, b"", 100_000)?;
    assert!(rt; found.status == 0 && gate.has_met());
    Ok(())
}
