//! Measures of cells to be looked up.
ghost use Rattle.std.specs.Prelude.{◌≡◌, [], None, IfOk, OnErr, OnOk};
ghost use Rattle.mq_ir.specs.declared.query.CellName.{CellName};
ghost use Rattle.mq_cells.specs.Stores.{cell_name};
ghost use Rattle.mq_delta_cells.specs.Nodes.{Numbers, number_in};

use mq_values::{Key, Memory};
use std::alloc::Global;
use std::collections::BTreeMap;
use std::marker::Model;

/// Measures of cells, each once with a number. Contracts see them as the list of these (`specs/Nodes`).
#[derive(Drop)]
pub struct NodeMap {
    numbers: BTreeMap<(Key, u32), u32>,
}

impl Model for NodeMap {
    ghost use Rattle.mq_delta_cells.specs.Nodes.{Nodes};

    ghost Value = { Nodes };

    ghost view = { λ nodes. nodes.numbers.entries };
}

impl NodeMap {
    /// No measures. It takes no memory.
    pub fn new(alloc: Global) -> NodeMap
        ensures { result ≡ [] }
    {
        NodeMap {
            numbers: BTreeMap::new(alloc),
        }
    }

    /// The number of measure `m` of the cell at `key`, or `None` where it has none.
    pub fn get(&self, key: &Key, m: u32) -> Result<Option<u32>, Memory>
        ensures { IfOk result (λ number. number ≡ number_in self.now (cell_name key.now m)) }
    {
        if self.numbers.is_empty() {
            return Ok(None);
        }
        let node = (key.copy()?, m);
        Ok(self.numbers.get(&node).copied())
    }

    /// Gives measure `m` of the cell at `key` this number, in place of the one that it has. After `Memory` nothing is changed.
    pub fn put(&mut self, key: Key, m: u32, number: u32) -> Result<(), Memory>
        ensures ok { OnOk result (Numbers self.old self.new (cell_name key m) number) }
        ensures err { OnErr result (self.new ≡ self.old) }
    {
        self.numbers.insert((key, m), number)?;
        Ok(())
    }
}
