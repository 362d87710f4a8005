//! The keys of a shape's cells: as its lists have them, or by an index of each list.
ghost use Rattle.std.specs.Prelude.{◌≡◌, ◌≤◌, length, IfOk};
ghost use Rattle.mq_ir.specs.Keys.{is_among};
ghost use Rattle.mq_dim_index.specs.Places.{places_meeting};

use crate::cell_keys::CellKeys;
use crate::names::meets_every;
use mq_dim_index::{DimIndex, PlaceRun, runs_among};
use mq_ir::PartShape;
use mq_values::{DimTest, Key, Memory, Value};
use std::alloc::Global;

/// The keys of a shape's cells by their indexes: those of the input, and those of all cells.
#[derive(Clone, Copy)]
pub struct ShapeKeys<'a> {
    pub base: &'a DimIndex,
    pub cells: &'a DimIndex,
}

impl CellKeys for ShapeKeys<'_> {
    ghost set = { λ keys. keys.cells.now };

    ghost base = { λ keys. keys.base.now };

    fn is_based(&self, key: &[Value]) -> bool {
        self.base.stored(key).is_some()
    }

    fn meeting(&self, alloc: Global, tests: &[DimTest]) -> Result<Vec<u32>, Memory> {
        self.cells.in_range(alloc, tests)
    }

    fn runs_meeting(&self, alloc: Global, tests: &[DimTest]) -> Result<Vec<PlaceRun>, Memory> {
        self.cells.runs_in_range(alloc, tests)
    }

    fn key_at(&self, place: u32) -> &Key {
        &self.cells.keys()[place as usize]
    }
}

/// No order of a shape's keys is known, so all of them are gone through.
impl CellKeys for PartShape {
    ghost set = { λ shape. shape.cells };

    ghost base = { λ shape. shape.base };

    fn is_based(&self, key: &[Value]) -> bool {
        is_there(self.base.as_slice(), key)
    }

    fn meeting(&self, alloc: Global, tests: &[DimTest]) -> Result<Vec<u32>, Memory> {
        let keys = self.cells.as_slice();
        if keys.len() > MAX_KEYS {
            return Err(Memory);
        }
        places_among(alloc, keys, tests)
    }

    fn runs_meeting(&self, alloc: Global, tests: &[DimTest]) -> Result<Vec<PlaceRun>, Memory> {
        let keys = self.cells.as_slice();
        if keys.len() > MAX_KEYS {
            return Err(Memory);
        }
        runs_among(alloc, keys, tests)
    }

    fn key_at(&self, place: u32) -> &Key {
        &self.cells.as_slice()[place as usize]
    }
}

// Whether `key` is among these keys. What the search finds is there; what it misses may stand elsewhere, where they do
// not ascend.
fn is_there(keys: &[Key], key: &[Value]) -> bool
    ensures { result ≡ is_among keys.now key.now }
{
    match keys.binary_search_by(|k| k.as_slice().cmp(key)) {
        Ok(_) => true,
        Err(_) => stands_among(keys, key),
    }
}

// The same, by going through all keys.
fn stands_among(keys: &[Key], key: &[Value]) -> bool
    ensures { result ≡ is_among keys.now key.now }
{
    keys.iter().any(|k| key.cmp(k.as_slice()).is_eq())
}

// How many keys a `u32` can number.
const MAX_KEYS: usize = u32::MAX as usize;

// The places of the keys that meet the test of each dimension, ascending.
fn places_among(alloc: Global, keys: &[Key], tests: &[DimTest]) -> Result<Vec<u32>, Memory>
    requires { length keys.now ≤ MAX_KEYS }
    ensures { IfOk result (λ places. places.items ≡ places_meeting tests.now keys.now) }
{
    let mut places = Vec::new(alloc);
    let mut place = 0u32;
    for key in keys {
        if meets_every(tests, key.as_slice()) {
            places.push(place)?;
        }
        place += 1;
    }
    Ok(places)
}
