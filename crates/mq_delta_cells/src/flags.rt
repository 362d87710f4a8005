//! Flags at places.
ghost use Rattle.std.specs.Prelude.{◌≡◌, ◌<◌, [], false, length, slice_index_or, OnErr, OnOk};
ghost use Rattle.mq_delta_cells.specs.Marks.{SameFlags, SetsFlag};

use mq_values::Memory;
use std::alloc::Global;
use std::marker::Model;

/// Flags at places, which are numbered from 0. Contracts see it as the list of them.
#[derive(Drop)]
pub struct Flags {
    items: Vec<bool>,
}

impl Model for Flags {
    ghost use Rattle.std.specs.Prelude.{Bool, List};

    ghost Value = { List Bool };

    ghost view = { λ flags. flags.items.items };
}

impl Flags {
    /// No flags. It takes no memory.
    pub fn new(alloc: Global) -> Flags
        ensures { result ≡ [] }
    {
        Flags {
            items: Vec::new(alloc),
        }
    }

    /// Whether the flag at place `at` is set.
    pub fn get(&self, at: u32) -> bool
        ensures { result ≡ slice_index_or self.now at false }
    {
        match self.items.get(at as usize) {
            Some(flag) => *flag,
            None => false,
        }
    }

    /// Sets the flag at place `at`. Where there were none, flags come for `count` places at once. After `Memory` the same are set as
    /// before.
    pub fn set(&mut self, alloc: Global, at: u32, count: u32) -> Result<(), Memory>
        ensures ok { OnOk result (SetsFlag self.old self.new at) }
        ensures err { OnErr result (SameFlags self.old self.new) }
    {
        self.begin(alloc, count)?;
        self.reach(at)?;
        self.items[at as usize] = true;
        Ok(())
    }

    // Flags for so many places, where there were none.
    fn begin(&mut self, alloc: Global, count: u32) -> Result<(), Memory>
        ensures { SameFlags self.old self.new }
    {
        if self.items.is_empty() {
            self.items = vec![in alloc; false; count as usize]?;
        }
        Ok(())
    }

    // Flags behind those that there are, until there is one at place `at`.
    fn reach(&mut self, at: u32) -> Result<(), Memory>
        ensures there { OnOk result (at < length self.new) }
        ensures same { SameFlags self.old self.new }
    {
        'reaching: while self.items.len() <= at as usize {
            self.items.push(false)?;
        }
        Ok(())
    }
}
