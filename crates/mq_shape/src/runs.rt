//! Rows that stand together by their partition keys, and the partitions that they make.
ghost use Rattle.std.specs.Prelude.{◌≡◌, ◌≤◌, take, drop, not, length, IfOk};
ghost use Rattle.std.specs.List.{filter};
ghost use Rattle.mq_ir.specs.Partitions as spec;
ghost use Rattle.mq_shape.specs.Runs.{by_parts, has_parts, input_from, inputs_in};
ghost use Rattle.mq_ir.specs.Rising.{Low, Rising};

use crate::cells::cells_of;
use crate::cuts::{cut_rows, key_of, up_to};
use mq_ir::{ModelPart, PartInput};
use mq_values::{Items, Key, Memory, Value};
use std::alloc::Global;
use std::cmp::Ordering;

/// The input of the partition of this key, whose rows these are.
pub fn input_of(
    alloc: Global,
    q: &ModelPart,
    key: &[Value],
    rows: &[Key],
) -> Result<PartInput, Memory>
    ensures { IfOk result (λ input. input ≡ input_from q.now key.now rows.now) }
{
    let key = key_of(alloc, key)?;
    let found = cells_of(cut_rows(alloc, q, rows)?)?;
    Ok(PartInput {
        key,
        cells: found.cells,
        repeated: found.repeated,
    })
}

// Which row has the lesser partition key.
fn cmp_parts(parts: usize, a: &Key, b: &Key) -> Ordering
    ensures { result ≡ by_parts parts a.now b.now }
{
    up_to(a.as_slice(), parts).cmp(up_to(b.as_slice(), parts))
}

/// The rows, ascending by their partition keys; rows of one partition stay in their order.
pub fn ascending(alloc: Global, parts: usize, items: &[Key]) -> Result<Vec<Key>, Memory>
    ensures { IfOk result (λ rows. rows.items ≡ spec.ascending (by_parts parts) items.now) }
{
    let mut rows = Vec::with_capacity(alloc, items.len())?;
    for item in items {
        rows.push(item.copy()?)?;
    }
    rows.sort_by(|a, b| cmp_parts(parts, a, b))?;
    Ok(rows)
}

// How many of these rows have the partition key of `first`, where none has a lesser one.
fn run_length(parts: usize, first: &Key, rows: &[Key]) -> usize
    requires least { Low (by_parts parts) first.now rows.now }
    requires rising { Rising (by_parts parts) rows.now }
    ensures within { result ≤ length rows.now }
    ensures run { take result rows.now ≡ filter (has_parts parts (take parts first.now)) rows.now }
    ensures others { drop result rows.now ≡ filter (λ row. not (has_parts parts (take parts first.now) row)) rows.now }
{
    let mut count = 0;
    for row in rows {
        if cmp_parts(parts, first, row).is_ne() {
            return count;
        }
        count += 1;
    }
    count
}

/// The partitions of rows that ascend by their partition keys.
pub fn inputs(alloc: Global, q: &ModelPart, rows: &[Key]) -> Result<Items<PartInput>, Memory>
    requires { Rising (by_parts q.now.parts) rows.now }
    ensures { IfOk result (λ inputs. inputs ≡ inputs_in q.now rows.now) }
{
    let parts = q.parts as usize;
    let mut inputs = Items::new(alloc);
    let mut rest = rows;
    while !rest.is_empty() {
        let first = &rest[0];
        let count = run_length(parts, first, rest);
        let (run, others) = rest.split_at(count);
        inputs.push(input_of(alloc, q, up_to(first.as_slice(), parts), run)?)?;
        rest = others;
    }
    Ok(inputs)
}
