//! Base rows of which no row is gone or was touched.
ghost use Rattle.std.specs.Prelude.{◌≡◌, ℕ, ◌<◌, [], None, false, length, slice_index_or, IfOk};
ghost use Rattle.std.specs.List.{zip};
ghost use Rattle.mq_delta_base.specs.Moves.{place_in as spec_place_in, moved_to as spec_moved_to, stays_whole as spec_stays_whole, survivors as spec_survivors};

use crate::moves::Moves;
use mq_join::{KeptRows, PlaceRows};
use mq_values::Memory;
use std::alloc::Global;

/// The tuples that stay whole, with the new places of their rows. `changed` says of each FROM item whether its table was
/// changed. `Memory` is the only error.
pub fn survivors(
    alloc: Global,
    old: &KeptRows,
    changed: &[bool],
    moves: &Moves,
) -> Result<PlaceRows, Memory>
    requires { (i : ℕ) → i < length old.now → length (slice_index_or old.now i []) ≡ length changed.now }
    ensures { IfOk result (λ rows. rows ≡ record { width = length changed.now; rows = spec_survivors moves.now.places changed.now old.now }) }
{
    let mut rows = PlaceRows::with_room(alloc, changed.len(), old.len())?;
    'rows: for at in 0..old.len() {
        let tuple = old.row(at);
        if stays_whole(tuple, changed, moves) {
            rows.push(moved_to(alloc, tuple, changed, moves)?.as_slice())?;
        }
    }
    Ok(rows)
}

// Whether none of the rows of a tuple is gone or was touched.
fn stays_whole(tuple: &[u32], changed: &[bool], moves: &Moves) -> bool
    requires { length tuple.now ≡ length changed.now }
    ensures { result ≡ spec_stays_whole moves.now.places changed.now tuple.now }
{
    'items: for item in 0..tuple.len() {
        if place_at(tuple, changed, moves, item).is_none() {
            return false;
        }
    }
    true
}

// Where its rows stand now.
fn moved_to(
    alloc: Global,
    tuple: &[u32],
    changed: &[bool],
    moves: &Moves,
) -> Result<Vec<u32>, Memory>
    requires { length tuple.now ≡ length changed.now }
    ensures is { IfOk result (λ moved. moved.items ≡ spec_moved_to moves.now.places changed.now tuple.now) }
    ensures wide { IfOk result (λ moved. length moved.items ≡ length changed.now) }
{
    let mut moved = Vec::with_capacity(alloc, tuple.len())?;
    'items: for item in 0..tuple.len() {
        moved.push(place_at(tuple, changed, moves, item).unwrap_or(0))?;
    }
    Ok(moved)
}

// The new place of the row of a FROM item.
fn place_at(tuple: &[u32], changed: &[bool], moves: &Moves, item: usize) -> Option<u32>
    requires item { item < length tuple.now }
    requires as_many { length tuple.now ≡ length changed.now }
    ensures { result ≡ spec_place_in moves.now.places (slice_index_or (zip changed.now tuple.now) item (false, 0)) }
{
    if changed[item] {
        moved_from(moves, tuple[item])
    } else {
        Some(tuple[item])
    }
}

// The new place of the row that stood at this place of the table.
fn moved_from(moves: &Moves, place: u32) -> Option<u32>
    ensures { result ≡ slice_index_or moves.now.places place None }
{
    match moves.places.as_slice().get(place as usize) {
        Some(moved) => *moved,
        None => None,
    }
}
