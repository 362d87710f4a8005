//! The groups of base rows.
ghost use Rattle.std.specs.Prelude.{◌≡◌, ◌<◌, ◌≤◌, ◌+◌, [], ◌∷◌, map, length, IfOk, OnOk};
ghost use Rattle.std.specs.List.{range_with_len};
ghost use Rattle.mq_ir.specs.Items.{groups_of};
ghost use Rattle.mq_ir.specs.Keys.{each_first};
ghost use Rattle.mq_group.specs.Columns.{keys_in};
ghost use Rattle.mq_group.specs.Numbering.{AreGrouped, places_from};

use crate::keys::key_of;
use crate::row_values::RowValues;
use mq_ir::ColRef;
use mq_values::{Items, Key, Memory};
use std::alloc::Global;
use std::collections::BTreeMap;

/// The groups of the rows, each as the places of its rows: one for each distinct key, in order of its first row; nulls
/// are the same, so null is one key. Without columns there is exactly one group, also over no rows
/// (docs/MEANING.md, "Groups and items"). `Memory` is the only error; it comes too where there are more rows than a
/// `u32` can number.
pub fn groups<R: RowValues>(
    alloc: Global,
    cols: &[ColRef],
    rows: &[R],
) -> Result<Items<Items<u32>>, Memory>
    ensures { IfOk result (λ groups. groups ≡ groups_of cols.now (map R.values rows.now)) }
{
    if rows.len() > u32::MAX as usize {
        return Err(Memory);
    }
    if cols.is_empty() {
        return all_rows(alloc, rows.len() as u32);
    }
    keyed(alloc, cols, rows)
}

// The one group of so many rows.
fn all_rows(alloc: Global, count: u32) -> Result<Items<Items<u32>>, Memory>
    ensures { IfOk result (λ groups. groups ≡ range_with_len 0 count ∷ []) }
{
    let mut group = Items::new(alloc);
    for place in 0..count {
        group.push(place)?;
    }
    let mut groups = Items::new(alloc);
    groups.push(group)?;
    Ok(groups)
}

// A group for each distinct key.
fn keyed<R: RowValues>(
    alloc: Global,
    cols: &[ColRef],
    rows: &[R],
) -> Result<Items<Items<u32>>, Memory>
    requires { length rows.now ≤ u32.MAX }
    ensures { IfOk result (λ groups. groups ≡ map (places_from 0 (keys_in R.values cols.now rows.now)) (each_first (keys_in R.values cols.now rows.now))) }
{
    let mut numbers = BTreeMap::new(alloc);
    let mut groups = Vec::new(alloc);
    for place in 0..rows.len() as u32 {
        put_row(alloc, cols, rows, place, &mut numbers, &mut groups)?;
    }
    Ok(Items::from_vec(groups))
}

// Puts the row of this place into the group of its key, or into one of its own where the key is new.
fn put_row<R: RowValues>(
    alloc: Global,
    cols: &[ColRef],
    rows: &[R],
    place: u32,
    numbers: &mut BTreeMap<Key, usize>,
    groups: &mut Vec<Items<u32>>,
) -> Result<(), Memory>
    requires place { place < length rows.now }
    requires grouped { AreGrouped (keys_in R.values cols.now rows.now) place numbers.old groups.old.items }
    ensures { OnOk result (AreGrouped (keys_in R.values cols.now rows.now) (place + 1) numbers.new groups.new.items) }
{
    let key = key_of(alloc, cols, &rows[place as usize])?;
    if let Some(number) = numbers.get(&key).copied() {
        groups[number].push(place)?;
        return Ok(());
    }
    let group = one_row(alloc, place)?;
    numbers.insert(key, groups.len())?;
    groups.push(group)?;
    Ok(())
}

fn one_row(alloc: Global, place: u32) -> Result<Items<u32>, Memory>
    ensures { IfOk result (λ group. group ≡ place ∷ []) }
{
    let mut group = Items::new(alloc);
    group.push(place)?;
    Ok(group)
}
