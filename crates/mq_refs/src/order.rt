//! What is known of the order of the cells of references.
ghost use Rattle.std.specs.Prelude.{◌↔◌, IsTrue};
ghost use Rattle.mq_refs.specs.Orders.{ArraysAscend, IsOrderOf};

use mq_cells::cells_ascend;
use mq_ir::{Model, RefArray};

/// Whether the cells of every reference of a model are known to ascend by their keys, each once. Among these a cell is found
/// without going through all others.
#[derive(Clone, Copy)]
pub struct RefsOrder {
    pub ascend: bool,
}

/// No cells are known to be in order.
pub const UNKNOWN_ORDER: RefsOrder = RefsOrder { ascend: false };

/// What is found of the references of a model. It takes no memory.
pub fn refs_order(m: &Model<'_>) -> RefsOrder
    ensures { IsOrderOf result m.now }
{
    RefsOrder {
        ascend: arrays_ascend(m.refs),
    }
}

// Whether the cells of each array ascend by their keys, each once.
fn arrays_ascend(arrays: &[RefArray]) -> bool
    ensures { IsTrue result ↔ ArraysAscend arrays.now }
{
    for array in arrays {
        if !cells_ascend(array.cells.as_slice()) {
            return false;
        }
    }
    true
}
