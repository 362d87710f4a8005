//! Items by measure and by place.
ghost use Rattle.std.specs.Prelude.{◌≡◌, ◌<◌, ℕ, [], None, Some, length, slice_index_or, OnOk, OnErr};
ghost use Rattle.std.specs.Option.{option_copied};
ghost use Rattle.mq_cells.specs.LaneItems.{LaneDiffers, SameItems, lane_item};

use crate::lane::Lane;
use mq_values::Memory;
use std::alloc::Global;
use std::marker::Model;

/// Items at places, which are numbered from 0, of measures. Contracts see it as a list a measure of what stands at its places.
/// A list is as long as its last item wants, so what is not there takes no memory.
#[derive(Drop)]
pub struct Lanes<T> {
    lanes: Vec<Lane<T>>,
    alloc: Global,
}

impl<T> Model for Lanes<T> {
    ghost use Rattle.std.specs.Prelude.{List, Option};
    ghost use Rattle.std.specs.Coded.{coded_list, coded_option};

    ghost Value = { List (List (Option T)) };

    ghost coded = { coded_list (coded_list (coded_option T.code)) };

    ghost view = { λ l. l.lanes.items };
}

impl<T: Drop> Lanes<T> {
    /// Nothing. It takes no memory.
    pub fn new(alloc: Global) -> Lanes<T>
        ensures { result ≡ [] }
    {
        Lanes {
            lanes: Vec::new(alloc),
            alloc,
        }
    }

    /// What stands at place `at` of measure `m`, or `None` where nothing does. It takes no memory.
    pub fn get(&self, m: u32, at: u32) -> Option<&T>
        ensures { option_copied result ≡ lane_item self.now m at }
    {
        match self.lanes.get(m as usize) {
            Some(lane) => lane.get(at as usize),
            None => None,
        }
    }

    /// Puts `item` at place `at` of measure `m`, over what stands there. After `Memory` the same stands as before.
    pub fn put(&mut self, m: u32, at: u32, item: T) -> Result<(), Memory>
        ensures ok { OnOk result (LaneDiffers self.old self.new m at (Some item)) }
        ensures err { OnErr result (SameItems self.old self.new) }
    {
        reach(self.alloc, &mut self.lanes, m)?;
        self.lanes[m as usize].put(at, item)
    }

    /// Takes away what stands at place `at` of measure `m`. It takes no memory.
    pub fn clear(&mut self, m: u32, at: u32)
        ensures { LaneDiffers self.old self.new m at None }
    {
        if (m as usize) < self.lanes.len() {
            self.lanes[m as usize].set(at as usize, None);
        }
    }
}

/// Empty lanes behind those that there are, until there is one for measure `m`.
pub fn reach<T: Drop>(alloc: Global, lanes: &mut Vec<Lane<T>>, m: u32) -> Result<(), Memory>
    ensures there { OnOk result (m < length lanes.new.items) }
    ensures same { (j : ℕ) → slice_index_or lanes.new.items j [] ≡ slice_index_or lanes.old.items j [] }
{
    'reaching: while lanes.len() <= m as usize {
        lanes.push(Lane::new(alloc))?;
    }
    Ok(())
}
