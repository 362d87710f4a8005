//! What is done before a walk.
ghost use Rattle.std.specs.Prelude.{◌≡◌, ◌||◌, ◌&&◌, not, None, true, if◌then◌else◌, IfOk, IfSome, OnOk};
ghost use Rattle.mq_ir.specs.Keys.{Tuple, is_among};
ghost use Rattle.mq_ir.specs.declared.query.CellName.{CellName};
ghost use Rattle.mq_delta_cells.specs.Marks.{is_marked};
ghost use Rattle.mq_delta_cells.specs.Tables.{HasRulesOf};
ghost use Rattle.mq_values.specs.KeySets.{HasKeysOf};
ghost use Rattle.mq_delta_cells.specs.Seeds.{AreDifferences, AreSeeds, HasOddKeysOf, has_vanished, is_gone, is_gone_at, is_missing, is_missing_at, is_moved};

use crate::course::rules_of;
use crate::mark_table::MarkTable;
use crate::number_table::NumberTable;
use crate::seeds::{Differences, Seeds};
use mq_cells::{Cells, keys_ascend};
use mq_dim_index::DimIndex;
use mq_ir::{CellName, PartShape};
use mq_refs::ShapeKeys;
use mq_values::{Key, KeySet, Memory};
use std::alloc::Global;

/// What a change begins with, where the shape `old` becomes `new`, which has these keys, and these measures moved.
pub fn seeds_of<'a>(
    alloc: Global,
    old: &'a PartShape,
    new: &PartShape,
    keys: ShapeKeys<'_>,
    moved: &'a [CellName],
) -> Result<Seeds<'a>, Memory>
    requires base { keys.base.now ≡ new.now.base }
    requires cells { keys.cells.now ≡ new.now.cells }
    ensures seeds { IfOk result (AreSeeds new.now keys.entry.cells.now) }
    ensures old { IfOk result (λ seeds. seeds.old.now ≡ old.now) }
    ensures moved { IfOk result (λ seeds. seeds.moved.now ≡ moved.now) }
{
    let names = names_of(alloc, keys.cells, moved)?;
    if are_one(old, new) {
        return Ok(Seeds {
            old,
            moved,
            names,
            differ: None,
        });
    }
    let differ = Some(differences(alloc, old, new, keys)?);
    Ok(Seeds {
        old,
        moved,
        names,
        differ,
    })
}

/// The same where the shape stays, which has these cells.
pub fn moved_alone<'a>(
    alloc: Global,
    shape: &'a PartShape,
    cells: &DimIndex,
    moved: &'a [CellName],
) -> Result<Seeds<'a>, Memory>
    ensures seeds { IfOk result (AreSeeds shape.now cells.now) }
    ensures old { IfOk result (λ seeds. seeds.old.now ≡ shape.now) }
    ensures moved { IfOk result (λ seeds. seeds.moved.now ≡ moved.now) }
{
    Ok(Seeds {
        old: shape,
        moved,
        names: names_of(alloc, cells, moved)?,
        differ: None,
    })
}

// These measures, to be looked up by the places of cells.
fn names_of(alloc: Global, cells: &DimIndex, moved: &[CellName]) -> Result<MarkTable, Memory>
    ensures { IfOk result (λ names. (c : CellName) → is_marked cells.now names c ≡ is_moved moved.now c) }
{
    let mut names = MarkTable::new(alloc);
    let mut near = 0;
    'putting: for name in moved {
        names.put(cells, &name.key, name.measure, &mut near)?;
    }
    Ok(names)
}

// How the shapes differ, of which the new one has these keys. Each list is gone through in step with an index of the other.
fn differences(
    alloc: Global,
    old: &PartShape,
    new: &PartShape,
    keys: ShapeKeys<'_>,
) -> Result<Differences, Memory>
    requires base { keys.base.now ≡ new.now.base }
    requires cells { keys.cells.now ≡ new.now.cells }
    ensures { IfOk result (AreDifferences old.now new.now keys.entry.cells.now) }
{
    let cells = odd_keys(alloc, old.cells.as_slice(), keys.cells)?;
    let base = odd_keys(alloc, old.base.as_slice(), keys.base)?;
    let were = index_if_ascending(alloc, old.cells.as_slice())?;
    let rules = rules_of(alloc, old, keys.cells)?;
    Ok(Differences {
        cells,
        base,
        were,
        rules,
    })
}

// The keys that are in one of these alone.
fn odd_keys(alloc: Global, were: &[Key], are: &DimIndex) -> Result<KeySet, Memory>
    ensures { IfOk result (HasOddKeysOf were.now are.now) }
{
    let of_were = index_of(alloc, were)?;
    let mut odd = KeySet::new(alloc);
    put_missing(were, are, &mut odd)?;
    put_missing(are.keys(), &of_were, &mut odd)?;
    Ok(odd)
}

// An index of these keys. Where they ascend, it costs no more than to copy them.
fn index_of(alloc: Global, keys: &[Key]) -> Result<DimIndex, Memory>
    ensures { IfOk result (HasKeysOf keys.now) }
{
    match index_if_ascending(alloc, keys)? {
        Some(index) => Ok(index),
        None => index_of_any(alloc, keys),
    }
}

// The index of these keys, where they ascend.
fn index_if_ascending(alloc: Global, keys: &[Key]) -> Result<Option<DimIndex>, Memory>
    ensures { IfOk result (λ found. IfSome found (λ index. index ≡ keys.now)) }
{
    if keys_ascend(keys) {
        Ok(Some(DimIndex::new(alloc, keys)?))
    } else {
        Ok(None)
    }
}

// An index of keys in any order.
fn index_of_any(alloc: Global, keys: &[Key]) -> Result<DimIndex, Memory>
    ensures { IfOk result (HasKeysOf keys.now) }
{
    let mut index = DimIndex::new(alloc, &[])?;
    'inserting: for key in keys {
        index.insert(key.copy()?)?;
    }
    Ok(index)
}

// Puts those of `keys` to `odd` that are not among `others`.
fn put_missing(keys: &[Key], others: &DimIndex, odd: &mut KeySet) -> Result<(), Memory>
    ensures { OnOk result ((key : Tuple) → is_among odd.new key ≡ (is_among odd.old key || is_missing keys.now others.now key)) }
{
    let mut near = 0;
    'putting: for key in keys {
        put_if_missing(key, others, &mut near, odd)?;
    }
    Ok(())
}

// The same of one key, which is looked for near a place.
fn put_if_missing(
    key: &Key,
    others: &DimIndex,
    near: &mut u32,
    odd: &mut KeySet,
) -> Result<(), Memory>
    ensures { OnOk result ((q : Tuple) → is_among odd.new q ≡ (is_among odd.old q || is_missing_at others.now q key.now)) }
{
    match others.place_near(key.as_slice(), *near) {
        Some(place) => {
            *near = place;
            Ok(())
        }
        None => odd.put(key.copy()?),
    }
}

// Whether the shapes are one.
fn are_one(old: &PartShape, new: &PartShape) -> bool
    ensures { result ≡ true → old.now ≡ new.now }
{
    are_same_keys(old.base.as_slice(), new.base.as_slice())
        && are_same_keys(old.cells.as_slice(), new.cells.as_slice())
        && are_same_assignments(old.assigned.as_slice(), new.assigned.as_slice())
}

// Whether these are the same keys, in the same order.
fn are_same_keys(a: &[Key], b: &[Key]) -> bool
    ensures { result ≡ true → a.now ≡ b.now }
{
    if a.len() != b.len() {
        return false;
    }
    'comparing: for i in 0..a.len() {
        if a[i].cmp(&b[i]).is_ne() {
            return false;
        }
    }
    true
}

// Whether these are the same assignments, in the same order.
fn are_same_assignments(a: &[(Key, u32, u32)], b: &[(Key, u32, u32)]) -> bool
    ensures { result ≡ true → a.now ≡ b.now }
{
    if a.len() != b.len() {
        return false;
    }
    'comparing: for i in 0..a.len() {
        if !is_same_assignment(&a[i], &b[i]) {
            return false;
        }
    }
    true
}

// Whether these are the same assignment.
fn is_same_assignment(a: &(Key, u32, u32), b: &(Key, u32, u32)) -> bool
    ensures { result ≡ true → a.now ≡ b.now }
{
    if a.0.cmp(&b.0).is_ne() {
        return false;
    }
    if a.1 == b.1 {
        return a.2 == b.2;
    }
    false
}

/// Takes away the results of what a rule of the old shape assigned and none of the new one does. `rules` has those of the new
/// one, over an index of its cells.
pub fn clear_vanished<C: Cells>(
    seeds: &Seeds<'_>,
    new: &PartShape,
    index: &DimIndex,
    rules: &NumberTable,
    cells: &mut C,
) -> Result<(), Memory>
    requires seeds { AreSeeds new.now index.now seeds.now }
    requires rules { HasRulesOf new.now index.now rules.now }
    ensures cleared { OnOk result ((c : CellName) → C.results cells.new c
        ≡ (if has_vanished seeds.now.old.now new.now c then None else C.results cells.old c)) }
    ensures same_input { C.input cells.new ≡ C.input cells.old }
    ensures same_looks { C.looks cells.new ≡ C.looks cells.old }
{
    match seeds.differ {
        Some(_) => clear_gone(seeds.old.assigned.as_slice(), index, rules, cells),
        None => Ok(()),
    }
}

// The same of what these assign and the rules do not.
fn clear_gone<C: Cells>(
    assigned: &[(Key, u32, u32)],
    index: &DimIndex,
    rules: &NumberTable,
    cells: &mut C,
) -> Result<(), Memory>
    ensures cleared { OnOk result ((c : CellName) → C.results cells.new c
        ≡ (if is_gone assigned.now index.now rules.now c then None else C.results cells.old c)) }
    ensures same_input { C.input cells.new ≡ C.input cells.old }
    ensures same_looks { C.looks cells.new ≡ C.looks cells.old }
{
    let mut near = 0;
    'clearing: for a in assigned {
        clear_if_gone(a, index, rules, &mut near, cells)?;
    }
    Ok(())
}

// The same for one assignment.
fn clear_if_gone<C: Cells>(
    a: &(Key, u32, u32),
    index: &DimIndex,
    rules: &NumberTable,
    near: &mut u32,
    cells: &mut C,
) -> Result<(), Memory>
    ensures cleared { OnOk result ((c : CellName) → C.results cells.new c
        ≡ (if is_gone_at index.now rules.now c a.now then None else C.results cells.old c)) }
    ensures same_input { C.input cells.new ≡ C.input cells.old }
    ensures same_looks { C.looks cells.new ≡ C.looks cells.old }
{
    if rules.get(index, &a.0, a.1, near)?.is_none() {
        cells.clear(&a.0, a.1);
    }
    Ok(())
}
