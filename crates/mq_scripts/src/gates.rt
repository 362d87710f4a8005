//! A gate at which pieces of work wait for each other.

use mq_io::Gate;
use std::sync::atomic::{AtomicU64, Ordering};

/// How often a piece looks for the others, before it gives up.
const TURNS: u64 = 1 << 31;

/// Where so many pieces meet: each that comes waits until all have come. Where none are to meet, nobody waits.
#[derive(Drop)]
pub(crate) struct Meeting {
    all: u64,
    come: AtomicU64,
    met: AtomicU64,
}

impl Meeting {
    pub fn new(all: u64) -> Meeting {
        Meeting {
            all,
            come: AtomicU64::new(0),
            met: AtomicU64::new(0),
        }
    }

    /// How many have seen all others come.
    pub fn met(&self) -> u64 {
        self.met.load(Ordering::SeqCst)
    }
}

impl Gate for Meeting {
    fn enter(&self, _piece: u32) {
        if self.all == 0 {
            return;
        }
        self.come.fetch_add(1, Ordering::SeqCst);
        for _ in 0..TURNS {
            if self.come.load(Ordering::SeqCst) >= self.all {
                self.met.fetch_add(1, Ordering::SeqCst);
                return;
            }
        }
    }
}
