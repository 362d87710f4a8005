//! Who runs the pieces of a query.
ghost use Rattle.std.specs.Prelude.{◌≡◌, ◌<◌, ◌≤◌};
ghost use Rattle.mq_claims.specs.declared.limits.TheConstants.{MAX_SEATS};
ghost use Rattle.mq_answers.specs.declared.workers.TheConstants.{MAX_WORKERS};

use std::marker::Model;

/// How many workers there may be.
pub const MAX_WORKERS: u32 = 64;

/// How many workers share the pieces of a query: one at least, and no more than there may be. Contracts see it as that number.
#[derive(Clone, Copy)]
pub struct Workers {
    count: u32,
}

impl Model for Workers {
    ghost use Rattle.std.specs.Prelude.{ℕ, ◌<◌, ◌≤◌};
    ghost use Rattle.mq_answers.specs.declared.workers.TheConstants.{MAX_WORKERS};

    ghost Value = { ℕ };

    ghost view = { λ w. w.count };

    ghost invariant = { λ w. (0 < w.count) × (w.count ≤ MAX_WORKERS) };

    ghost inverse = { λ count. record { count = count } };
}

impl Workers {
    /// So many workers.
    pub fn new(count: u32) -> Workers
        requires { (1 ≤ count) × (count ≤ MAX_WORKERS) }
        ensures { result ≡ count }
    {
        Workers { count }
    }

    /// How many there are. No more than a board of pieces has seats.
    pub fn count(self) -> u32
        ensures value { result ≡ self }
        ensures bound { (0 < result) × (result ≤ MAX_SEATS) }
    {
        self.count
    }
}

/// Who runs the pieces of a query: what starts threads, how many workers there are, and the gate that each piece passes.
#[derive(Drop)]
pub struct Crew<'r, 'g, R, G> {
    pub rt: &'r R,
    pub workers: Workers,
    pub gate: &'g G,
}
