//! Those that wait for each node.

ghost use Rattle.std.specs.Prelude.{◌≡◌, ◌<◌, ◌≤◌, [], ◌∷◌, length, replicate, set, MatchOption, IfOk, IfSome};
ghost use Rattle.mq_levels.specs.Waiting.{IsFree, waiters_of, with_waiter};

use mq_values::Memory;
use std::alloc::Global;
use std::marker::Model;

/// No node has this number.
const NOBODY: u32 = u32::MAX;

/// For each node those that wait for it, as lists. A node waits once, so the lists are chains through one vector, and
/// whoever is taken from a list leaves nothing behind.
#[derive(Drop)]
pub struct Waiters {
    first: Vec<u32>,
    next: Vec<u32>,
}

impl Model for Waiters {
    ghost use Rattle.std.specs.Prelude.{ℕ, List};
    ghost use Rattle.mq_levels.specs.Chains.{AreChains, lists_of};

    ghost Value = { List (List ℕ) };

    ghost view = { λ w. lists_of w.first.items w.next.items };

    ghost invariant = { λ w. AreChains w.first.items w.next.items (lists_of w.first.items w.next.items) };
}

impl Waiters {
    /// Nobody waits for any of `count` nodes.
    pub fn new(alloc: Global, count: usize) -> Result<Waiters, Memory>
        requires { count ≤ u32.MAX }
        ensures { IfOk result (λ waiters. waiters ≡ replicate count []) }
    {
        Ok(Waiters {
            first: vec![in alloc; NOBODY; count]?,
            next: vec![in alloc; NOBODY; count]?,
        })
    }

    /// Lets a node that waits for nobody wait for `read`.
    pub fn put(&mut self, read: u32, node: u32)
        requires read { read < length self.old }
        requires node { node < length self.old }
        requires free { IsFree self.old node }
        ensures { self.new ≡ with_waiter self.old read node }
    {
        self.next[node as usize] = self.first[read as usize];
        self.first[read as usize] = node;
    }

    /// Takes one of those that wait for `read`.
    pub fn take(&mut self, read: u32) -> Option<u32>
        requires { read < length self.old }
        ensures taken { MatchOption result
            ((waiters_of self.old read ≡ []) × (self.new ≡ self.old))
            (λ node. (waiters_of self.old read ≡ node ∷ waiters_of self.new read)
            × (self.new ≡ set self.old read (waiters_of self.new read))) }
        ensures node { IfSome result (λ node. node < length self.old) }
        ensures free { IfSome result (λ node. IsFree self.new node) }
    {
        let node = self.first[read as usize];
        if node == NOBODY {
            return None;
        }
        self.first[read as usize] = self.next[node as usize];
        Some(node)
    }
}
