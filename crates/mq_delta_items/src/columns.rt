//! Items that are the columns of a table.
ghost use Rattle.std.specs.Prelude.{◌≡◌, length, IsTrue};
ghost use Rattle.mq_delta_items.specs.Columns.{column, columns_of};

use mq_ir::{Expr, Leaf};

/// Whether these are the columns of the first FROM item, in order.
pub fn are_columns(items: &[Expr]) -> bool
    ensures { IsTrue result → items.now ≡ columns_of (length items.now) }
{
    'items: for (number, item) in items.iter().enumerate() {
        if !is_column(item, number) {
            return false;
        }
    }
    true
}

// Whether this is the column of this number of the first FROM item.
fn is_column(item: &Expr, number: usize) -> bool
    ensures { IsTrue result → item.now ≡ column number }
{
    match item {
        Expr::Leaf(Leaf::Column(0, column)) => *column as usize == number,
        _ => false,
    }
}
