//! The cells of a partition, lent while each measure has a value.
ghost use Rattle.std.specs.Prelude.{◌≡◌, IfOk};
ghost use Rattle.mq_cells.specs.IndexedStores.{value_in};
ghost use Rattle.mq_cells.specs.Stores.{cell_name};

use crate::indexed::IndexedCells;
use mq_values::{Memory, Value};
use std::marker::Model;

/// A store of which all values are lent to be read. Contracts see it as the store (docs/MEANING.md, "Stores of cells"). The next
/// cell is looked for beside the last one that was found.
#[derive(Drop)]
pub struct LentStore<'a> {
    cells: &'a IndexedCells,
    near: u32,
}

impl<'a> Model for LentStore<'a> {
    ghost use Rattle.mq_cells.specs.IndexedStores.{IndexedStore};

    ghost Value = { IndexedStore };

    ghost view = { λ lent. lent.cells.now };
}

impl<'a> LentStore<'a> {
    /// The values of this store. The first cell is looked for beside the place `near`.
    pub fn new(cells: &'a IndexedCells, near: u32) -> LentStore<'a>
        ensures { result ≡ cells.now }
    {
        LentStore { cells, near }
    }

    /// The store.
    pub fn store(&self) -> &'a IndexedCells
        ensures { result.now ≡ self.now }
    {
        self.cells
    }

    /// The value of measure `m` of the cell at `key`.
    pub fn read(&mut self, key: &[Value], m: u32) -> Result<Value, Memory>
        ensures exact { IfOk result (λ v. v ≡ value_in self.old (cell_name key.now m)) }
        ensures same { self.new ≡ self.old }
    {
        self.cells.value_near(key, m, &mut self.near)
    }

    /// The same, where the cell is looked for at `place` and beside it first.
    pub fn read_near(&mut self, place: u32, key: &[Value], m: u32) -> Result<Value, Memory>
        ensures exact { IfOk result (λ v. v ≡ value_in self.old (cell_name key.now m)) }
        ensures same { self.new ≡ self.old }
    {
        self.near = place;
        self.cells.value_near(key, m, &mut self.near)
    }

    /// Where the next cell is looked for first.
    pub fn near(&self) -> u32 {
        self.near
    }
}
