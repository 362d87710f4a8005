//! The keys of the cells in a store, and the values that it lends.
ghost use Rattle.std.specs.Prelude.{◌≡◌};
ghost use Rattle.mq_cells.specs.IndexedStores.{base_in, keys_in, value_in};

use crate::cell_keys::CellKeys;
use crate::standpoint::Standpoint;
use crate::worths::Worths;
use mq_cells::{IndexedCells, LentStore};
use mq_dim_index::PlaceRun;
use mq_ir::Expr;
use mq_values::{DimTest, Key, Memory, Value};
use std::alloc::Global;

impl CellKeys for IndexedCells {
    ghost set = { keys_in };

    ghost base = { base_in };

    // The index has every key at which the input has measures, so it is asked of the input alone.
    fn is_based(&self, key: &[Value]) -> bool {
        let _covered = self.index();
        self.given(key).is_some()
    }

    fn meeting(&self, alloc: Global, tests: &[DimTest]) -> Result<Vec<u32>, Memory> {
        self.index().in_range(alloc, tests)
    }

    fn runs_meeting(&self, alloc: Global, tests: &[DimTest]) -> Result<Vec<PlaceRun>, Memory> {
        self.index().runs_in_range(alloc, tests)
    }

    fn key_at(&self, place: u32) -> &Key {
        &self.index().keys()[place as usize]
    }
}

impl Worths for LentStore<'_> {
    ghost worth = { value_in };

    fn value(&mut self, key: &[Value], measure: u32) -> Result<Value, Memory> {
        self.read(key, measure)
    }

    fn value_at(&mut self, place: u32, key: &[Value], measure: u32) -> Result<Value, Memory> {
        self.read_near(place, key, measure)
    }

    fn lent_by(&self) -> Option<&IndexedCells> {
        Some(self.store())
    }

    fn next_value(
        &mut self,
        _at: &Standpoint<'_>,
        _measure: u32,
        _indices: &[Expr],
    ) -> Result<Option<Value>, Memory> {
        Ok(None)
    }
}
