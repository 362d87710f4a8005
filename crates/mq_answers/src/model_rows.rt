//! The rows that the cells of a model make.
ghost use Rattle.std.specs.Prelude.{◌≡◌, ◌++◌, slice_get, IfOk};
ghost use Rattle.std.specs.Option.{option_copied};
ghost use Rattle.mq_ir.specs.Answer.{columns_of};

use crate::columns::Columns;
use mq_ir::OutCell;
use mq_values::{Key, Memory, Value};
use std::marker::Model;

/// A row of a model: the columns of its partition, the dimensions and the measures of a cell. All three are shared with the
/// partition and the cell, and no value is copied. Contracts see it as the list of its values.
#[derive(Drop)]
pub struct ModelRow {
    partition: Key,
    dims: Key,
    measures: Key,
}

impl Model for ModelRow {
    ghost use Rattle.std.specs.Prelude.{◌++◌};
    ghost use Rattle.mq_ir.specs.Keys.{Tuple};

    ghost Value = { Tuple };

    ghost view = { λ row. row.partition ++ row.dims ++ row.measures };
}

impl ModelRow {
    /// The row of a cell of the partition with this key.
    pub fn new(partition: &Key, cell: OutCell) -> Result<ModelRow, Memory>
        ensures { IfOk result (λ row. row ≡ columns_of partition.now cell) }
    {
        Ok(ModelRow {
            partition: partition.copy()?,
            dims: cell.key,
            measures: cell.measures,
        })
    }
}

impl Columns for ModelRow {
    ghost columns = { λ row. row };

    fn column(&self, number: u32) -> Option<&Value> {
        behind(
            self.partition.as_slice(),
            self.dims.as_slice(),
            self.measures.as_slice(),
            number as usize,
        )
    }
}

// The value of this number in three lists, one behind another.
#[tactic(auto, using(crate::proofs::PlaceLemmas::get_front, crate::proofs::PlaceLemmas::get_behind))]
fn behind<'a>(
    first: &'a [Value],
    second: &'a [Value],
    third: &'a [Value],
    number: usize,
) -> Option<&'a Value>
    ensures { option_copied result ≡ slice_get (first.now ++ second.now ++ third.now) number }
{
    if number < first.len() {
        return first.get(number);
    }
    let number = number - first.len();
    if number < second.len() {
        return second.get(number);
    }
    third.get(number - second.len())
}
