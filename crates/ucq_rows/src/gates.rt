//! A gate that shows that two workers are at work at the same time.
use std::sync::atomic::{AtomicBool, Ordering};
use std::thread;
use ucq_outside::Gate;

/// How often a held worker looks whether it may go on.
const TURNS: u32 = 10_000_000;

/// Holds the worker that passes with one row until a worker has passed with another row.
#[derive(Drop)]
pub(crate) struct HoldingGate {
    held: u32,
    awaited: u32,
    was_held: AtomicBool,
    has_passed: AtomicBool,
    // a held worker went on though the other row hadn't passed
    is_spent: AtomicBool,
}

impl HoldingGate {
    pub(crate) fn new(held: u32, awaited: u32) -> HoldingGate {
        HoldingGate {
            held,
            awaited,
            was_held: AtomicBool::new(false),
            has_passed: AtomicBool::new(false),
            is_spent: AtomicBool::new(false),
        }
    }

    /// Whether both rows passed, the held one after the other.
    pub(crate) fn is_passed(&self) -> bool {
        self.was_held.load(Ordering::SeqCst)
            && self.has_passed.load(Ordering::SeqCst)
            && !self.is_spent.load(Ordering::SeqCst)
    }

    fn wait(&self) {
        for _ in 0..TURNS {
            if self.has_passed.load(Ordering::SeqCst) {
                return;
            }
            thread::yield_now();
        }
        self.is_spent.store(true, Ordering::SeqCst);
    }
}

impl Gate for HoldingGate {
    fn pass(&self, _worker: u32, row: u32) {
        if row == self.awaited {
            self.has_passed.store(true, Ordering::SeqCst);
        }
        if row == self.held {
            self.was_held.store(true, Ordering::SeqCst);
            self.wait();
        }
    }
}
