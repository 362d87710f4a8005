//! The cells of a partition's input.
ghost use Rattle.std.specs.Prelude.{◌≡◌, IfOk};
ghost use Rattle.std.specs.Option.{option_copied};
ghost use Rattle.mq_ir.specs.Partitions.{cell_at};
ghost use Rattle.mq_cells.specs.Stores.{cell_name, input_value};

use crate::search::{cells_ascend, find_measures};
use mq_values::{Key, Memory, Value};
use std::marker::Model;

/// Cells that are lent, to be found by their dimension tuples, and whether they ascend by these. Contracts see them as the
/// list of the cells. Those of a partition whose rules run ascend, so each is found by a search; cells in no order, which
/// have no rules run over them, are gone through one by one.
#[derive(Drop)]
pub struct InputCells<'a> {
    cells: &'a [(Key, Key)],
    ascend: bool,
}

impl<'a> Model for InputCells<'a> {
    ghost use Rattle.std.specs.Prelude.{◌≡◌, true};
    ghost use Rattle.mq_ir.specs.Partitions.{Cells};
    ghost use Rattle.mq_cells.specs.Ascents.{CellsAscend};

    ghost Value = { Cells };

    ghost view = { λ input. input.cells.now };

    ghost invariant = { λ input. input.ascend ≡ true → CellsAscend input.cells.now };
}

impl<'a> InputCells<'a> {
    /// These cells. Of several at one tuple the first is the one that is found. It takes no memory.
    pub fn new(cells: &'a [(Key, Key)]) -> InputCells<'a>
        ensures { result ≡ cells.now }
    {
        InputCells {
            cells,
            ascend: cells_ascend(cells),
        }
    }

    /// The measures of the first cell at `key`, or `None` where there is no such cell.
    pub fn get(&self, key: &Key) -> Option<&'a Key>
        ensures { option_copied result ≡ cell_at self.now key.now }
    {
        find_measures(self.cells, self.ascend, key.as_slice())
    }

    /// Measure `m` of the cell at `key`, or null where there is none.
    pub fn value(&self, key: &Key, m: u32) -> Result<Value, Memory>
        ensures { IfOk result (λ v. v ≡ input_value (cell_at self.now) (cell_name key.now m)) }
    {
        let Some(values) = self.get(key) else {
            return Ok(Value::Null);
        };
        match values.as_slice().get(m as usize) {
            Some(v) => v.copy(),
            None => Ok(Value::Null),
        }
    }
}
