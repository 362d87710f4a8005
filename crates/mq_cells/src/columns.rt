//! The results at every measure.
ghost use Rattle.std.specs.Prelude.{◌≡◌, ◌<◌, [], Some, None, length, OnOk, OnErr};
ghost use Rattle.mq_cells.specs.Columns.{results_in};
ghost use Rattle.mq_cells.specs.Stores.{DiffersAt, cell_name};

use crate::column::Column;
use crate::held::Held;
use mq_ir::Slot;
use mq_values::{Key, Memory};
use std::alloc::Global;
use std::marker::Model;

/// Results, a column a measure, by the number of the measure. Contracts see them as the list of the columns.
#[derive(Drop)]
pub struct Columns {
    columns: Vec<Column>,
    alloc: Global,
}

impl Model for Columns {
    ghost use Rattle.std.specs.Prelude.{List};
    ghost use Rattle.mq_values.specs.declared.value.Value.{Value as CellValue};
    ghost use Rattle.mq_ir.specs.declared.query.Slot.{Slot};

    ghost Value = { List (List (List CellValue × Slot)) };

    ghost view = { λ c. c.columns.items };
}

impl Held for Columns {
    ghost stands = { results_in };

    fn result(&self, key: &Key, m: u32) -> Option<&Slot> {
        match self.columns.get(m as usize) {
            Some(column) => column.get(key),
            None => None,
        }
    }
}

impl Columns {
    /// No results. It takes no memory.
    pub fn new(alloc: Global) -> Columns
        ensures { result ≡ [] }
    {
        Columns {
            columns: Vec::new(alloc),
            alloc,
        }
    }

    /// Puts `slot` at measure `m` of the cell at `key`, in place of what stands there. After `Memory` what stands is as
    /// before.
    pub fn put(&mut self, key: Key, m: u32, slot: Slot) -> Result<(), Memory>
        ensures ok { OnOk result (DiffersAt (results_in self.old) (results_in self.new) (cell_name key m) (Some slot)) }
        ensures err { OnErr result (results_in self.new ≡ results_in self.old) }
    {
        reach(self.alloc, &mut self.columns, m)?;
        self.columns[m as usize].put(key, slot)
    }

    /// Takes away the result at measure `m` of the cell at `key`, where one stands.
    pub fn clear(&mut self, key: &Key, m: u32)
        ensures { DiffersAt (results_in self.old) (results_in self.new) (cell_name key.now m) None }
    {
        if (m as usize) < self.columns.len() {
            self.columns[m as usize].clear(key);
        }
    }
}

// Empty columns behind those that there are, until there is one for measure `m`.
fn reach(alloc: Global, columns: &mut Vec<Column>, m: u32) -> Result<(), Memory>
    ensures there { OnOk result (m < length columns.new.items) }
    ensures same { results_in columns.new.items ≡ results_in columns.old.items }
{
    'reaching: while columns.len() <= m as usize {
        columns.push(Column::new(alloc))?;
    }
    Ok(())
}
