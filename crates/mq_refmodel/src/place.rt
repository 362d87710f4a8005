//! Where the expressions of a reference stand, and what they are worth there.
ghost use Rattle.std.specs.Prelude.{◌≡◌, [], ◌∷◌, slice_index_or, IfOk};
ghost use Rattle.mq_values.specs.Answers.{Gives};
ghost use Rattle.mq_values.specs.declared.value.Value.TheVariants.{Null};
ghost use Rattle.mq_ir.specs.Expression.{ev};
ghost use Rattle.mq_ir.specs.Items.{row_leaves};
ghost use Rattle.mq_ir.specs.Results.{each};

use mq_ir::{Expr, Leaf};
use mq_scalar::{Env, eval};
use mq_values::{Fail, Items, Key, Memory, Value, ValueFault};
use std::alloc::Global;

// A row of the reference's query, which stands as the one FROM item.
#[derive(Drop)]
pub struct SourceRow<'a> {
    pub row: &'a Key,
}

impl<'a> Env for SourceRow<'a> {
    ghost gives = { λ s. row_leaves (s.row.now ∷ []) };

    fn leaf(&mut self, _alloc: Global, leaf: &Leaf) -> Result<Value, Fail<ValueFault>> {
        match leaf {
            Leaf::Column(0, column) => Ok(value_at(self.row, *column)?),
            _ => Ok(Value::Null),
        }
    }
}

// The value of a column, or null where there is no such column.
fn value_at(row: &Key, column: u32) -> Result<Value, Memory>
    ensures { IfOk result (λ v. v ≡ slice_index_or row.now column Null) }
{
    match row.as_slice().get(column as usize) {
        Some(v) => v.copy(),
        None => Ok(Value::Null),
    }
}

/// The values of the expressions over a row, from left to right, or the first fault.
pub fn evaluated(alloc: Global, es: &[Expr], row: &Key) -> Result<Key, Fail<ValueFault>>
    ensures { Gives result (each (ev (row_leaves (row.now ∷ []))) es.now) }
{
    let mut values = Items::with_room(alloc, es.len());
    for e in es {
        values.push(eval(alloc, e, &mut SourceRow { row })?)?;
    }
    Ok(Key::new(alloc, values)?)
}
