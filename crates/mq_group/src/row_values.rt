//! What is asked of a row.
use mq_values::{Key, Value};

/// A base row that lends its values: a row for each FROM item.
pub trait RowValues {
    ghost use Rattle.std.specs.Prelude.{◌≡◌};
    ghost use Rattle.std.specs.Option.{option_copied};
    ghost use Rattle.mq_ir.specs.Items.{BaseRow};
    ghost use Rattle.mq_group.specs.Columns.{column_in};

    /// The rows of the FROM items.
    ghost values: { Self → BaseRow };

    /// The value of a column of a FROM item, or `None` where there is none.
    fn value(&self, item: u32, column: u32) -> Option<&Value>
        ensures { option_copied result ≡ column_in (values self.now) item column };
}

/// A row that stands as the one FROM item.
impl RowValues for Key {
    ghost use Rattle.std.specs.Prelude.{[], ◌∷◌};

    ghost values = { λ row. row ∷ [] };

    fn value(&self, item: u32, column: u32) -> Option<&Value> {
        if item > 0 {
            return None;
        }
        self.as_slice().get(column as usize)
    }
}
