//! A gate for tests of workers: it records who passes, and stops workers until others arrive.
use bx_shard::Gate;
use std::sync::atomic::{AtomicBool, AtomicU16, Ordering};
use std::thread::yield_now;

// How often a waiting worker checks whether it may continue, before it gives up.
const LOOKS: u32 = 10_000_000;

/// A gate at which workers wait for each other. If that takes too long, a worker gives up.
///
/// A set of workers is a number. Its bit k is set for worker k.
#[derive(Drop)]
pub struct Meeting {
    team: u16,
    // The only worker that waits, or `None` if all wait for `team`.
    held: Option<usize>,
    came: AtomicU16,
    went: AtomicU16,
    gave_up: AtomicBool,
}

impl Meeting {
    /// Creates a gate at which each worker waits until exactly the workers of `team` are there.
    pub fn of(team: u16) -> Meeting {
        Meeting {
            team,
            held: None,
            came: AtomicU16::new(0),
            went: AtomicU16::new(0),
            gave_up: AtomicBool::new(false),
        }
    }

    /// Creates a gate that stops no worker.
    pub fn none() -> Meeting {
        Meeting::holding(usize::MAX)
    }

    /// Creates a gate that stops worker `held` until another worker has finished.
    pub fn holding(held: usize) -> Meeting {
        Meeting {
            held: Some(held),
            ..Meeting::of(0)
        }
    }

    /// Returns the workers that finished their work, or `None` if a worker gave up.
    pub fn finished(&self) -> Option<u16> {
        if self.gave_up.load(Ordering::SeqCst) {
            return None;
        }
        Some(self.went.load(Ordering::SeqCst))
    }

    fn may_continue(&self, worker: usize) -> bool {
        match self.held {
            Some(held) => worker != held || self.went.load(Ordering::SeqCst) & !bit(held) != 0,
            None => self.came.load(Ordering::SeqCst) == self.team,
        }
    }
}

fn bit(worker: usize) -> u16 {
    if worker < 16 { 1 << worker } else { 0 }
}

impl Gate for Meeting {
    fn before(&self, worker: usize) {
        self.came.fetch_or(bit(worker), Ordering::SeqCst);
        for _ in 0..LOOKS {
            if self.may_continue(worker) || self.gave_up.load(Ordering::SeqCst) {
                return;
            }
            yield_now();
        }
        self.gave_up.store(true, Ordering::SeqCst);
    }

    fn after(&self, worker: usize) {
        self.went.fetch_or(bit(worker), Ordering::SeqCst);
    }
}
