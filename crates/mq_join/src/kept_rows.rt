//! The places of base rows, kept in one flat list.
ghost use Rattle.std.specs.Prelude.{◌≡◌, ◌∷◌, ◌++◌, ◌<◌, [], length, slice_index_or, IfOk, OnOk};

use mq_values::Memory;
use std::alloc::Global;
use std::marker::Model;

/// Tuples of places, all of one width, in one flat list. Contracts see it as the width with the list of the tuples.
#[derive(Drop)]
pub struct PlaceRows {
    width: usize,
    count: usize,
    places: Vec<u32>,
}

impl Model for PlaceRows {
    ghost use Rattle.std.specs.Prelude.{◌≡◌, ◌*◌, length};
    ghost use Rattle.mq_join.specs.Kept.{PlaceRows as Seen, tuples_of};

    ghost Value = { Seen };

    ghost view = { λ p. record { width = p.width; rows = tuples_of p.width p.count p.places.items } };

    ghost invariant = { λ p. length p.places.items ≡ p.count * p.width };
}

impl PlaceRows {
    /// No tuple, and room for so many. `Memory` comes where there is no such room.
    pub fn with_room(alloc: Global, width: usize, count: usize) -> Result<PlaceRows, Memory>
        ensures { IfOk result (λ rows. rows ≡ record { width = width; rows = [] }) }
    {
        let Some(room) = count.checked_mul(width) else {
            return Err(Memory);
        };
        Ok(PlaceRows {
            width,
            count: 0,
            places: Vec::with_capacity(alloc, room)?,
        })
    }

    /// Puts a tuple behind the others.
    pub fn push(&mut self, tuple: &[u32]) -> Result<(), Memory>
        requires { length tuple.now ≡ self.old.width }
        ensures { OnOk result (self.new ≡ record self.old { rows = self.old.rows ++ tuple.now ∷ [] }) }
    {
        let Some(count) = self.count.checked_add(1) else {
            return Err(Memory);
        };
        self.places.extend_from_slice(tuple)?;
        self.count = count;
        Ok(())
    }

    /// How many places each tuple has.
    pub fn width(&self) -> usize
        ensures { result ≡ self.now.width }
    {
        self.width
    }

    /// How many tuples there are.
    pub fn len(&self) -> usize
        ensures { result ≡ length self.now.rows }
    {
        self.count
    }

    /// The tuple of this number, counted from 0, or no place where there is no such tuple.
    pub fn row(&self, at: usize) -> &[u32]
        ensures is { result.now ≡ slice_index_or self.now.rows at [] }
        ensures wide { at < length self.now.rows → length result.now ≡ self.now.width }
    {
        if at >= self.count {
            return &[];
        }
        let from = at * self.width;
        &self.places[from..from + self.width]
    }
}

/// The places of the base rows of a query: for each base row, in order, the place of its row of each FROM item
/// (docs/MEANING.md, "Base rows"). They stand in one flat list. Contracts see a list of lists of places.
#[derive(Drop)]
pub struct KeptRows {
    rows: PlaceRows,
}

impl Model for KeptRows {
    ghost use Rattle.std.specs.Prelude.{List};
    ghost use Rattle.mq_ir.specs.BaseRows.{Places};

    ghost Value = { List Places };

    ghost view = { λ kept. kept.rows.rows };
}

impl KeptRows {
    /// Tuples of places as base rows. It takes no memory.
    pub fn new(rows: PlaceRows) -> KeptRows
        ensures { result ≡ rows.rows }
    {
        KeptRows { rows }
    }

    /// How many base rows there are.
    pub fn len(&self) -> usize
        ensures { result ≡ length self.now }
    {
        self.rows.len()
    }

    /// The places of the base row of this number, counted from 0, or none where there is no such row.
    pub fn row(&self, at: usize) -> &[u32]
        ensures { result.now ≡ slice_index_or self.now at [] }
    {
        self.rows.row(at)
    }
}
