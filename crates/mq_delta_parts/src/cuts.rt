//! Rows cut into dimension tuples and measures.
ghost use Rattle.std.specs.Prelude.{◌≡◌, take, drop, IfOk};
ghost use Rattle.mq_shape.specs.Runs as spec;

use mq_ir::ModelPart;
use mq_values::{Items, Key, Memory, Value};
use std::alloc::Global;

/// The first `count` items.
pub fn up_to<T>(items: &[T], count: usize) -> &[T]
    ensures { result.now ≡ take count items.now }
{
    if items.len() <= count {
        return items;
    }
    items.split_at(count).0
}

/// What stands behind the first `count` items.
pub fn behind<T>(items: &[T], count: usize) -> &[T]
    ensures { result.now ≡ drop count items.now }
{
    if items.len() <= count {
        return &[];
    }
    items.split_at(count).1
}

/// A key of these values.
pub fn key_of(alloc: Global, values: &[Value]) -> Result<Key, Memory>
    ensures { IfOk result (λ key. key ≡ values.now) }
{
    if let [v] = values {
        return Key::one(alloc, v.copy()?);
    }
    let mut copies = Items::with_room(alloc, values.len());
    'values: for v in values {
        copies.push(v.copy()?)?;
    }
    Key::new(alloc, copies)
}

/// The dimension tuple of an item row.
pub fn tuple_of(alloc: Global, part: &ModelPart, row: &Key) -> Result<Key, Memory>
    ensures { IfOk result (λ tuple. tuple ≡ (spec.cut_row part.now row.now).0) }
{
    let values = behind(row.as_slice(), part.parts as usize);
    key_of(alloc, up_to(values, part.dims.len()))
}

/// The measures of an item row.
pub fn measures_of(alloc: Global, part: &ModelPart, row: &Key) -> Result<Key, Memory>
    ensures { IfOk result (λ measures. measures ≡ (spec.cut_row part.now row.now).1) }
{
    let values = behind(row.as_slice(), part.parts as usize);
    key_of(alloc, behind(values, part.dims.len()))
}
