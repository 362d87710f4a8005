//! What stands at each of some places.
ghost use Rattle.std.specs.Prelude.{◌≡◌, ◌≤◌, ℕ, [], None, Some, length, slice_index_or, slice_set, OnOk, OnErr};
ghost use Rattle.std.specs.Option.{option_copied};
ghost use Rattle.mq_cells.specs.LaneItems.{PlaceDiffers};

use mq_values::Memory;
use std::alloc::Global;
use std::marker::Model;

/// What stands at each of some places, which are numbered from 0. Contracts see it as the list of what stands there.
#[derive(Drop)]
pub struct Lane<T> {
    items: Vec<Option<T>>,
}

impl<T> Model for Lane<T> {
    ghost use Rattle.std.specs.Prelude.{List, Option};
    ghost use Rattle.std.specs.Coded.{coded_list, coded_option};

    ghost Value = { List (Option T) };

    ghost coded = { coded_list (coded_option T.code) };

    ghost view = { λ lane. lane.items.items };
}

impl<T: Drop> Lane<T> {
    /// No places. It takes no memory.
    pub fn new(alloc: Global) -> Lane<T>
        ensures { result ≡ [] }
    {
        Lane {
            items: Vec::new(alloc),
        }
    }

    /// What stands at each place.
    pub fn from_items(items: Vec<Option<T>>) -> Lane<T>
        ensures { result ≡ items.items }
    {
        Lane { items }
    }

    /// What stands at place `at`, or `None` where nothing does.
    pub fn get(&self, at: usize) -> Option<&T>
        ensures { option_copied result ≡ slice_index_or self.now at None }
    {
        match self.items.get(at) {
            Some(Some(item)) => Some(item),
            _ => None,
        }
    }

    /// Puts `item` at place `at`, where there is one, in place of what stands there.
    pub fn set(&mut self, at: usize, item: Option<T>)
        ensures { self.new ≡ slice_set self.old at item }
    {
        if at < self.items.len() {
            self.items[at] = item;
        }
    }

    /// Puts `item` at place `at`, over what stands there, also behind the last place. After `Memory` the same stands as before.
    pub fn put(&mut self, at: u32, item: T) -> Result<(), Memory>
        ensures ok { OnOk result (PlaceDiffers self.old self.new at (Some item)) }
        ensures err { OnErr result ((p : ℕ) → slice_index_or self.new p None ≡ slice_index_or self.old p None) }
    {
        self.reach(at as usize + 1)?;
        self.set(at as usize, Some(item));
        Ok(())
    }

    /// Places behind those that there are, until there are `count`. Nothing stands there.
    pub fn reach(&mut self, count: usize) -> Result<(), Memory>
        ensures there { OnOk result (count ≤ length self.new) }
        ensures same { (at : ℕ) → slice_index_or self.new at None ≡ slice_index_or self.old at None }
    {
        'reaching: while self.items.len() < count {
            self.items.push(None)?;
        }
        Ok(())
    }
}
