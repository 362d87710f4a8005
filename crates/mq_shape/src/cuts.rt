//! Rows cut into partition keys, dimension tuples and measures.
ghost use Rattle.std.specs.Prelude.{◌≡◌, take, drop, length, map, IfOk};
ghost use Rattle.mq_ir.specs.Partitions.{cut};
ghost use Rattle.mq_shape.specs.Runs as spec;

use mq_ir::ModelPart;
use mq_values::{Items, Key, Memory, Value};
use std::alloc::Global;

/// The first `count` values.
pub fn up_to(values: &[Value], count: usize) -> &[Value]
    ensures { result.now ≡ take count values.now }
{
    if values.len() <= count {
        return values;
    }
    values.split_at(count).0
}

// What stands behind the first `count` values.
fn behind(values: &[Value], count: usize) -> &[Value]
    ensures { result.now ≡ drop count values.now }
{
    if values.len() <= count {
        return &[];
    }
    values.split_at(count).1
}

/// A key of these values.
pub fn key_of(alloc: Global, values: &[Value]) -> Result<Key, Memory>
    ensures { IfOk result (λ key. key ≡ values.now) }
{
    if let [v] = values {
        return Key::one(alloc, v.copy()?);
    }
    let mut copies = Items::with_room(alloc, values.len());
    for v in values {
        copies.push(v.copy()?)?;
    }
    Key::new(alloc, copies)
}

// An item row as a dimension tuple and measures.
fn cut_row(alloc: Global, q: &ModelPart, row: &Key) -> Result<(Key, Key), Memory>
    ensures { IfOk result (λ cell. cell ≡ spec.cut_row q.now row.now) }
{
    let values = behind(row.as_slice(), q.parts as usize);
    let dims = q.dims.len();
    let key = key_of(alloc, up_to(values, dims))?;
    let measures = key_of(alloc, behind(values, dims))?;
    Ok((key, measures))
}

/// Item rows, each as a dimension tuple and measures.
pub fn cut_rows(alloc: Global, q: &ModelPart, rows: &[Key]) -> Result<Items<(Key, Key)>, Memory>
    ensures { IfOk result (λ cells. cells ≡ map (spec.cut_row q.now) rows.now) }
{
    let mut cells = Items::with_room(alloc, rows.len());
    for row in rows {
        cells.push(cut_row(alloc, q, row)?)?;
    }
    Ok(cells)
}
