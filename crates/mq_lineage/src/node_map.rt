//! Measures of cells to be looked up.
ghost use Rattle.std.specs.Prelude.{◌≡◌, [], map, IfOk, OnErr, OnOk};
ghost use Rattle.std.specs.List.Sorted.{IsStrictlySortedBy};
ghost use Rattle.std.specs.Map.{keys_of};
ghost use Rattle.mq_cells.specs.Stores.{cell_name};
ghost use Rattle.mq_lineage.specs.Closing.{name_of};
ghost use Rattle.mq_lineage.specs.Nodes.{Numbers, cmp_node, number_in};

use mq_ir::CellName;
use mq_values::{Items, Key, Memory};
use std::alloc::Global;
use std::collections::BTreeMap;
use std::marker::Model;

/// Measures of cells, each once with a number. Contracts see them as the list of these (`specs/Nodes`).
#[derive(Drop)]
pub struct NodeMap {
    numbers: BTreeMap<(Key, u32), u32>,
}

impl Model for NodeMap {
    ghost use Rattle.mq_lineage.specs.Nodes.{Nodes};

    ghost Value = { Nodes };

    ghost view = { λ nodes. nodes.numbers.entries };
}

impl NodeMap {
    /// No measures. It takes no memory.
    pub fn new(alloc: Global) -> NodeMap
        ensures { result ≡ [] }
    {
        NodeMap {
            numbers: BTreeMap::new(alloc),
        }
    }

    /// The number of measure `m` of the cell at `key`, or `None` where it has none.
    pub fn get(&self, key: &Key, m: u32) -> Result<Option<u32>, Memory>
        ensures { IfOk result (λ number. number ≡ number_in self.now (cell_name key.now m)) }
    {
        let node = (key.copy()?, m);
        Ok(self.numbers.get(&node).copied())
    }

    /// Gives measure `m` of the cell at `key` this number, in place of the one that it has. After `Memory` all is as before.
    pub fn put(&mut self, key: Key, m: u32, number: u32) -> Result<(), Memory>
        ensures ok { OnOk result (Numbers self.old self.new (cell_name key m) number) }
        ensures err { OnErr result (self.new ≡ self.old) }
    {
        self.numbers.insert((key, m), number)?;
        Ok(())
    }

    /// The measures, ascending.
    pub fn names(&self, alloc: Global) -> Result<Items<CellName>, Memory>
        ensures names { IfOk result (λ names. names ≡ map name_of (keys_of self.now)) }
        ensures ascend { IsStrictlySortedBy cmp_node (keys_of self.now) }
    {
        keys_in(alloc, &self.numbers)
    }
}

// The keys of a map, as names, in its order.
fn keys_in(alloc: Global, numbers: &BTreeMap<(Key, u32), u32>) -> Result<Items<CellName>, Memory>
    ensures names { IfOk result (λ names. names ≡ map name_of (keys_of numbers.now.entries)) }
    ensures ascend { IsStrictlySortedBy cmp_node (keys_of numbers.now.entries) }
{
    let mut names = Items::with_room(alloc, numbers.len());
    for (node, _number) in numbers.iter() {
        names.push(CellName {
            key: node.0.copy()?,
            measure: node.1,
        })?;
    }
    Ok(names)
}
