//! The targets of a single left side.
ghost use Rattle.std.specs.Prelude.{◌≡◌, ◌↔◌, ◌<◌, [], ◌∷◌, ◌++◌, false, not, if◌then◌else◌, length, map, IfOk, OnOk, IsTrue};
ghost use Rattle.std.specs.List.{All, filter};
ghost use Rattle.std.specs.List.Sorted.{IsStrictlySortedBy};
ghost use Rattle.mq_values.specs.Order.{cmp_key};
ghost use Rattle.mq_dim_index.specs.Places.{meets_every};
ghost use Rattle.mq_ir.specs.Keys.{is_among};
ghost use Rattle.mq_ir.specs.Partitions.{ascending};
ghost use Rattle.mq_ir.specs.Targets as spec;
ghost use Rattle.mq_ir.specs.Targets.{cmp_targets, is_symbolic, meets_left, meets_symbols};
ghost use Rattle.mq_targets.specs.Choice.{HaveWidth, combined, key_at, with_places};

use crate::assigned;
use crate::order::{ordered, sorted};
use crate::places::{has_symbol, named, projected, symbols_of, tests_of};
use mq_dim_index::DimIndex;
use mq_ir::{SingleLeft, SinglePlace, symbolic_upsert_creates_none, update_creates_none};
use mq_values::{DimTest, Items, Key, Memory, Mode};
use std::alloc::Global;

/// Whether each key has a value for each place of `left`, as `targets` wants it.
pub fn have_width(left: &SingleLeft, keys: &DimIndex) -> bool
    ensures { IsTrue result ↔ HaveWidth left.now.places keys.now }
{
    let width = left.places.len();
    keys.keys().iter().all(|key| key.as_slice().len() == width)
}

/// The targets of a single left side over the cells with these keys. Without a symbolic place it is the one named
/// cell, under UPDATE only where it is there; with one, the cells that meet each place, or, under UPSERT ALL, each
/// combination of values that some cell has in the symbolic dimensions and that meets these, with the positional
/// values. They come by the rule's ORDER BY with ties ascending (docs/MEANING.md, "Left sides"). `Memory` is the only
/// error.
pub fn targets(
    alloc: Global,
    left: &SingleLeft,
    mode: Mode,
    keys: &DimIndex,
) -> Result<assigned::Targets, Memory>
    requires { HaveWidth left.now.places keys.now }
    ensures cells { IfOk result (λ found. found.cells ≡ (spec.targets left.now mode keys.now).cells) }
    ensures created { IfOk result (λ found. found.created ≡ (spec.targets left.now mode keys.now).created) }
{
    if !has_symbol(left.places.as_slice()) {
        return named_cell(alloc, left, mode, keys);
    }
    match mode {
        Mode::Update => {
            update_creates_none();
            cells_that_meet(alloc, left, keys)
        }
        Mode::Upsert => {
            symbolic_upsert_creates_none();
            cells_that_meet(alloc, left, keys)
        }
        Mode::UpsertAll => combinations(alloc, left, keys),
    }
}

// The targets of a left side without a symbolic place.
fn named_cell(
    alloc: Global,
    left: &SingleLeft,
    mode: Mode,
    keys: &DimIndex,
) -> Result<assigned::Targets, Memory>
    requires positional { is_symbolic left.now ≡ false }
    requires width { HaveWidth left.now.places keys.now }
    ensures cells { IfOk result (λ found. found.cells ≡ (spec.targets left.now mode keys.now).cells) }
    ensures created { IfOk result (λ found. found.created ≡ (spec.targets left.now mode keys.now).created) }
{
    let key = named(alloc, left.places.as_slice())?;
    match mode {
        Mode::Update => {
            update_creates_none();
            cell_if_there(alloc, &key, keys)
        }
        Mode::Upsert => upserted(alloc, &key, keys),
        Mode::UpsertAll => upserted(alloc, &key, keys),
    }
}

// The cell of this key, where there is one. None is created.
fn cell_if_there(alloc: Global, key: &Key, keys: &DimIndex) -> Result<assigned::Targets, Memory>
    ensures cells { IfOk result (λ found. found.cells ≡ (if is_among keys.now key.now then key.now ∷ [] else [])) }
    ensures created { IfOk result (λ found. found.created ≡ []) }
    ensures ascending { IsStrictlySortedBy cmp_key keys.now }
{
    let mut cells = Items::new(alloc);
    if let Some(own) = keys.stored(key.as_slice()) {
        cells.push(own.copy()?)?;
    }
    Ok(assigned::Targets {
        cells,
        created: Items::new(alloc),
    })
}

// The cell of this key, which is created where there is none.
fn upserted(alloc: Global, key: &Key, keys: &DimIndex) -> Result<assigned::Targets, Memory>
    ensures cells { IfOk result (λ found. found.cells ≡ key.now ∷ []) }
    ensures created { IfOk result (λ found. found.created ≡ filter (λ other. not (is_among keys.now other)) (key.now ∷ [])) }
{
    let mut cells = Items::new(alloc);
    let mut created = Items::new(alloc);
    settle(key, keys, &mut cells, &mut created)?;
    Ok(assigned::Targets { cells, created })
}

// Puts this key behind the targets: the index's own copy of it, or, where it is not there, the key as one that is
// created too.
fn settle(
    key: &Key,
    keys: &DimIndex,
    cells: &mut Items<Key>,
    created: &mut Items<Key>,
) -> Result<(), Memory>
    ensures cells { OnOk result (cells.new ≡ cells.old ++ key.now ∷ []) }
    ensures created { OnOk result (created.new ≡ created.old ++ filter (λ other. not (is_among keys.now other)) (key.now ∷ [])) }
{
    if let Some(own) = keys.stored(key.as_slice()) {
        return cells.push(own.copy()?);
    }
    cells.push(key.copy()?)?;
    created.push(key.copy()?)
}

// These keys as targets, of which those that are not there are created.
fn settled(alloc: Global, wanted: &[Key], keys: &DimIndex) -> Result<assigned::Targets, Memory>
    ensures cells { IfOk result (λ found. found.cells ≡ wanted.now) }
    ensures created { IfOk result (λ found. found.created ≡ filter (λ other. not (is_among keys.now other)) wanted.now) }
{
    let mut cells = Items::new(alloc);
    let mut created = Items::new(alloc);
    for key in wanted {
        settle(key, keys, &mut cells, &mut created)?;
    }
    Ok(assigned::Targets { cells, created })
}

// The cells that meet each place. None is created.
fn cells_that_meet(
    alloc: Global,
    left: &SingleLeft,
    keys: &DimIndex,
) -> Result<assigned::Targets, Memory>
    ensures cells { IfOk result (λ found. found.cells ≡ ascending (cmp_targets left.now) (filter (meets_left left.now) keys.now)) }
    ensures created { IfOk result (λ found. found.created ≡ []) }
{
    let found = keys_on_left(alloc, left, keys)?;
    let cells = ordered(found, left.order.as_slice())?;
    Ok(assigned::Targets {
        cells: Items::from_vec(cells),
        created: Items::new(alloc),
    })
}

// Each combination of values that some cell has in the symbolic dimensions, with the positional values.
fn combinations(
    alloc: Global,
    left: &SingleLeft,
    keys: &DimIndex,
) -> Result<assigned::Targets, Memory>
    ensures cells { IfOk result (λ found. found.cells ≡ combined left.now keys.now) }
    ensures created { IfOk result (λ found. found.created ≡ filter (λ other. not (is_among keys.now other)) (combined left.now keys.now)) }
{
    let found = keys_with_symbols(alloc, left, keys)?;
    let wanted = projections(alloc, left.places.as_slice(), &found)?;
    let cells = sorted(wanted, left.order.as_slice())?;
    settled(alloc, &cells, keys)
}

// The keys that meet each place, ascending.
fn keys_on_left(alloc: Global, left: &SingleLeft, keys: &DimIndex) -> Result<Vec<Key>, Memory>
    ensures found { IfOk result (λ found. found.items ≡ filter (meets_left left.now) keys.now) }
    ensures ascending { IfOk result (λ found. IsStrictlySortedBy cmp_key found.items) }
{
    let tests = tests_of(alloc, left.places.as_slice())?;
    keys_meeting(alloc, keys, &tests)
}

// The keys that meet each symbolic place, ascending.
fn keys_with_symbols(alloc: Global, left: &SingleLeft, keys: &DimIndex) -> Result<Vec<Key>, Memory>
    ensures { IfOk result (λ found. found.items ≡ filter (meets_symbols left.now) keys.now) }
{
    let tests = symbols_of(alloc, left.places.as_slice())?;
    keys_meeting(alloc, keys, &tests)
}

// The keys that meet the test of each dimension, ascending.
fn keys_meeting(alloc: Global, keys: &DimIndex, tests: &[DimTest]) -> Result<Vec<Key>, Memory>
    ensures found { IfOk result (λ found. found.items ≡ filter (meets_every tests.now) keys.now) }
    ensures ascending { IfOk result (λ found. IsStrictlySortedBy cmp_key found.items) }
{
    let places = keys.in_range(alloc, tests)?;
    copies_at(alloc, keys.keys(), &places)
}

// The keys at these places.
fn copies_at(alloc: Global, keys: &[Key], places: &[u32]) -> Result<Vec<Key>, Memory>
    requires { All (λ place. place < length keys.now) places.now }
    ensures { IfOk result (λ copies. copies.items ≡ map (key_at keys.now) places.now) }
{
    let mut copies = Vec::with_capacity(alloc, places.len())?;
    for place in places {
        copies.push(keys[*place as usize].copy()?)?;
    }
    Ok(copies)
}

// These keys with the values of the positional places.
fn projections(alloc: Global, places: &[SinglePlace], keys: &[Key]) -> Result<Vec<Key>, Memory>
    ensures { IfOk result (λ others. others.items ≡ map (with_places places.now) keys.now) }
{
    let mut others = Vec::with_capacity(alloc, keys.len())?;
    for key in keys {
        others.push(projected(alloc, places, key.as_slice())?)?;
    }
    Ok(others)
}
