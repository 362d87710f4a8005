//! Numbers at measures of cells.
ghost use Rattle.std.specs.Prelude.{◌≡◌, IfOk, OnOk};
ghost use Rattle.mq_cells.specs.Stores.{cell_name};
ghost use Rattle.mq_delta_cells.specs.Tables.{NumbersBy, no_numbers, number_by};

use crate::node_map::NodeMap;
use mq_cells::Lanes;
use mq_dim_index::DimIndex;
use mq_values::{Key, Memory};
use std::alloc::Global;
use std::marker::Model;

/// Numbers at measures of cells, of the cells of an index by the places of their keys, which each call is told, and of others
/// by their names. Contracts see it by `number_by` of `specs/Tables`. A cell is looked for at the place `near`, and beside it,
/// before all others, and `near` is where it was found then.
#[derive(Drop)]
pub struct NumberTable {
    lanes: Lanes<u32>,
    elsewhere: NodeMap,
}

impl Model for NumberTable {
    ghost use Rattle.mq_delta_cells.specs.Tables.{Table};

    ghost Value = { Table };

    ghost view = { λ table. record { lanes = table.lanes; elsewhere = table.elsewhere } };
}

impl NumberTable {
    /// No numbers. It takes no memory.
    pub fn new(alloc: Global) -> NumberTable
        ensures { result ≡ no_numbers }
    {
        NumberTable {
            lanes: Lanes::new(alloc),
            elsewhere: NodeMap::new(alloc),
        }
    }

    /// The number of measure `m` of the cell at `key`, or `None` where it has none.
    pub fn get(
        &self,
        cells: &DimIndex,
        key: &Key,
        m: u32,
        near: &mut u32,
    ) -> Result<Option<u32>, Memory>
        ensures { IfOk result (λ number. number ≡ number_by cells.now self.now (cell_name key.now m)) }
    {
        match cells.place_near(key.as_slice(), *near) {
            Some(place) => {
                *near = place;
                Ok(self.lanes.get(m, place).copied())
            }
            None => self.elsewhere.get(key, m),
        }
    }

    /// Gives measure `m` of the cell at `key` this number, in place of the one that it has.
    pub fn put(
        &mut self,
        cells: &DimIndex,
        key: &Key,
        m: u32,
        number: u32,
        near: &mut u32,
    ) -> Result<(), Memory>
        ensures { OnOk result (NumbersBy cells.now self.old self.new (cell_name key.now m) number) }
    {
        match cells.place_near(key.as_slice(), *near) {
            Some(place) => {
                *near = place;
                self.lanes.put(m, place, number)
            }
            None => self.elsewhere.put(key.copy()?, m, number),
        }
    }
}
