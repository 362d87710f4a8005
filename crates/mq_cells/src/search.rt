//! Cells in a list, by their dimension tuples.
ghost use Rattle.std.specs.Prelude.{◌≡◌, ◌↔◌, true, IsTrue};
ghost use Rattle.std.specs.List.Sorted.{IsStrictlySortedBy};
ghost use Rattle.std.specs.Option.{option_copied};
ghost use Rattle.mq_values.specs.Order.{cmp_key};
ghost use Rattle.mq_ir.specs.Partitions.{cell_at};
ghost use Rattle.mq_cells.specs.Ascents.{CellsAscend};

use mq_values::{Key, Value};

/// Whether these cells ascend by their tuples, each once. It takes no memory.
pub fn cells_ascend(cells: &[(Key, Key)]) -> bool
    ensures { IsTrue result ↔ CellsAscend cells.now }
{
    cells.is_sorted_by(|a, b| a.0.as_slice().cmp(b.0.as_slice()).is_lt())
}

/// Whether these keys ascend, each once, as an index of them asks. It takes no memory.
pub fn keys_ascend(keys: &[Key]) -> bool
    ensures { IsTrue result ↔ IsStrictlySortedBy cmp_key keys.now }
{
    keys.is_sorted_by(|a, b| a.as_slice().cmp(b.as_slice()).is_lt())
}

/// The measures of the first cell at `key`, or `None` where there is none. The cells ascend where `ascend` says so. It
/// takes no memory.
pub fn find_measures<'a>(cells: &'a [(Key, Key)], ascend: bool, key: &[Value]) -> Option<&'a Key>
    requires { ascend ≡ true → CellsAscend cells.now }
    ensures { option_copied result ≡ cell_at cells.now key.now }
{
    if ascend {
        found_by_search(cells, key)
    } else {
        found_by_walk(cells, key)
    }
}

// The measures of the cell at `key` among ascending cells, or `None` where there is none.
fn found_by_search<'a>(cells: &'a [(Key, Key)], key: &[Value]) -> Option<&'a Key>
    requires { CellsAscend cells.now }
    ensures { option_copied result ≡ cell_at cells.now key.now }
{
    match cells.binary_search_by(|cell| cell.0.as_slice().cmp(key)) {
        Ok(at) => Some(&cells[at].1),
        Err(_) => None,
    }
}

// The measures of the first cell at `key`, or `None` where there is none, in whatever order the cells stand.
fn found_by_walk<'a>(cells: &'a [(Key, Key)], key: &[Value]) -> Option<&'a Key>
    ensures { option_copied result ≡ cell_at cells.now key.now }
{
    for (own, measures) in cells {
        if key.cmp(own.as_slice()).is_eq() {
            return Some(measures);
        }
    }
    None
}
