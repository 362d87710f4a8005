//! The results at one measure.
ghost use Rattle.std.specs.Prelude.{◌≡◌, [], Some, None, OnOk, OnErr};
ghost use Rattle.std.specs.Option.{option_copied};
ghost use Rattle.mq_cells.specs.Columns.{ChangesAt, found_in};

use mq_ir::Slot;
use mq_values::{Key, Memory};
use std::alloc::Global;
use std::collections::BTreeMap;
use std::marker::Model;

/// What stands at one measure of cells. Contracts see it as a list of dimension tuples, each with its slot.
#[derive(Drop)]
pub struct Column {
    slots: BTreeMap<Key, Slot>,
}

impl Model for Column {
    ghost use Rattle.std.specs.Prelude.{List};
    ghost use Rattle.mq_values.specs.declared.value.Value.{Value as CellValue};
    ghost use Rattle.mq_ir.specs.declared.query.Slot.{Slot};

    ghost Value = { List (List CellValue × Slot) };

    ghost view = { λ column. column.slots.entries };
}

impl Column {
    /// No results. It takes no memory.
    pub fn new(alloc: Global) -> Column
        ensures { result ≡ [] }
    {
        Column {
            slots: BTreeMap::new(alloc),
        }
    }

    /// The result of the cell at `key`, or `None` where none stands.
    pub fn get(&self, key: &Key) -> Option<&Slot>
        ensures { option_copied result ≡ found_in key.now self.now }
    {
        self.slots.get(key)
    }

    /// Puts `slot` at `key`, in place of what stands there. After `Memory` nothing is changed.
    pub fn put(&mut self, key: Key, slot: Slot) -> Result<(), Memory>
        ensures ok { OnOk result (ChangesAt self.old self.new key (Some slot)) }
        ensures err { OnErr result (self.new ≡ self.old) }
    {
        self.slots.insert(key, slot)?;
        Ok(())
    }

    /// Takes away the result of the cell at `key`, where one stands.
    pub fn clear(&mut self, key: &Key)
        ensures { ChangesAt self.old self.new key.now None }
    {
        self.slots.remove(key);
    }
}
