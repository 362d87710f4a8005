//! The cells that rows make, and the least tuple that stands twice among them.
ghost use Rattle.std.specs.Prelude.{◌≡◌, map, IfOk};
ghost use Rattle.mq_ir.specs.Partitions as spec;
ghost use Rattle.mq_shape.specs.Repeats.{first_twice};

use mq_values::{Items, Key, Memory};

/// What rows come to: their cells, ascending by the dimension tuples, and the least tuple that stands twice.
#[derive(Drop)]
pub struct RowCells {
    pub cells: Items<(Key, Key)>,
    pub repeated: Option<Key>,
}

/// The cells of rows that each have a dimension tuple and measures, ascending by the tuples; equal tuples stand in the
/// order of the rows. Beside them the least tuple that stands twice (docs/MEANING.md, "Partitions"). `Memory` is the
/// only error.
pub fn cells_of(rows: Items<(Key, Key)>) -> Result<RowCells, Memory>
    ensures cells { IfOk result (λ found. found.cells ≡ spec.cells_of rows) }
    ensures repeated { IfOk result (λ found. found.repeated ≡ spec.repeated (map (λ row. row.0) rows)) }
{
    let cells = ascending(rows)?;
    let repeated = first_repeated(&cells)?;
    Ok(RowCells {
        cells: Items::from_vec(cells),
        repeated,
    })
}

// The rows, ascending by their dimension tuples.
fn ascending(rows: Items<(Key, Key)>) -> Result<Vec<(Key, Key)>, Memory>
    ensures { IfOk result (λ cells. cells.items ≡ spec.cells_of rows) }
{
    let mut cells = rows.into_vec();
    cells.sort_by(|a, b| a.0.cmp(&b.0))?;
    Ok(cells)
}

// The first dimension tuple that the next cell has too.
fn first_repeated(cells: &[(Key, Key)]) -> Result<Option<Key>, Memory>
    ensures { IfOk result (λ key. key ≡ first_twice (map (λ cell. cell.0) cells.now)) }
{
    for at in 1..cells.len() {
        let key = &cells[at - 1].0;
        if key.cmp(&cells[at].0).is_eq() {
            return Ok(Some(key.copy()?));
        }
    }
    Ok(None)
}
