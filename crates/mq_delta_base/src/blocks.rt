//! Base rows as tuples of places.
ghost use Rattle.std.specs.Prelude.{◌≡◌, ℕ, ◌<◌, [], length, map, slice_index_or, IfOk};
ghost use Rattle.mq_join.specs.Rows.{places_in};
ghost use Rattle.mq_delta_base.specs.Moves.{through as spec_through};

use mq_join::{JoinRow, PlaceRows};
use mq_values::Memory;
use std::alloc::Global;

/// The places of base rows. `Memory` is the only error.
pub fn places_of(alloc: Global, width: usize, rows: &[JoinRow<'_>]) -> Result<PlaceRows, Memory>
    requires { (i : ℕ) → i < length rows.now → length (places_in (slice_index_or rows.now i [])) ≡ width }
    ensures { IfOk result (λ places. places ≡ record { width = width; rows = map places_in rows.now }) }
{
    let mut all = PlaceRows::with_room(alloc, width, rows.len())?;
    'rows: for at in 0..rows.len() {
        all.push(rows[at].places(alloc)?.as_slice())?;
    }
    Ok(all)
}

/// The places of base rows over some rows of one FROM item, those at the places in `chosen`, among all rows. `Memory` is the
/// only error.
pub fn places_through(
    alloc: Global,
    width: usize,
    item: usize,
    chosen: &[u32],
    rows: &[JoinRow<'_>],
) -> Result<PlaceRows, Memory>
    requires { (i : ℕ) → i < length rows.now → length (places_in (slice_index_or rows.now i [])) ≡ width }
    ensures { IfOk result (λ places. places ≡ record { width = width; rows = map (spec_through item chosen.now) (map places_in rows.now) }) }
{
    let mut all = PlaceRows::with_room(alloc, width, rows.len())?;
    'rows: for at in 0..rows.len() {
        let mut places = rows[at].places(alloc)?;
        put_chosen(&mut places, item, chosen);
        all.push(places.as_slice())?;
    }
    Ok(all)
}

// The place of the row of one FROM item among all rows in the place of its number among the chosen ones.
fn put_chosen(places: &mut Vec<u32>, item: usize, chosen: &[u32])
    ensures is { places.new.items ≡ spec_through item chosen.now places.old.items }
    ensures wide { length places.new.items ≡ length places.old.items }
{
    if item < places.len() {
        places[item] = place_at(chosen, places[item]);
    }
}

fn place_at(chosen: &[u32], number: u32) -> u32
    ensures { result ≡ slice_index_or chosen.now number 0 }
{
    match chosen.get(number as usize) {
        Some(place) => *place,
        None => 0,
    }
}
