//! A gate at which one caller waits for another.
use byte_ports::Gate;
use std::sync::atomic::{AtomicU32, Ordering};
use std::thread;

/// It holds one caller until another one has passed it so often, for so many turns at most.
#[derive(Drop)]
pub struct Waiting {
    held: u32,
    other: u32,
    times: u32,
    passes: AtomicU32,
    waited: AtomicU32,
}

impl Waiting {
    pub fn new(held: u32, other: u32, times: u32) -> Waiting {
        Waiting {
            held,
            other,
            times,
            passes: AtomicU32::new(0),
            waited: AtomicU32::new(0),
        }
    }

    /// Whether the one went on because the other had passed, and not because its turns ran out.
    pub fn has_waited(&self) -> bool {
        self.waited.load(Ordering::SeqCst) > 0
    }
}

impl Gate for Waiting {
    fn pass(&self, actor: u32) {
        if actor == self.other {
            self.passes.fetch_add(1, Ordering::SeqCst);
        }
        if actor != self.held {
            return;
        }
        for _ in 0..10_000_000 {
            if self.passes.load(Ordering::SeqCst) >= self.times {
                self.waited.fetch_add(1, Ordering::SeqCst);
                return;
            }
            thread::yield_now();
        }
    }
}
