//! The keys of a partition's cells, as a right side asks for them.
ghost use Rattle.std.specs.Prelude.{◌≡◌, ◌<◌, ◌≤◌, List, length, map, slice_index_or, IfOk};
ghost use Rattle.std.specs.List.{All, filter};
ghost use Rattle.mq_ir.specs.Keys.{Tuple, is_among};
ghost use Rattle.mq_ir.specs.Targets.{meets_every};
ghost use Rattle.mq_dim_index.specs.PlaceRuns.{AreRuns, numbers_of};
ghost use Rattle.mq_dim_index.specs.Places.{places_meeting};

use mq_dim_index::PlaceRun;
use mq_values::{DimTest, Key, Memory, Value};
use std::alloc::Global;

/// The cells of a partition by their keys: those that are there, and those of its input. A key that is there is known by its
/// place among them, counted from 0.
pub trait CellKeys {
    /// The keys of the cells that are there, in the order in which ranges are over them.
    ghost set: { Self → List Tuple };

    /// The keys of the input.
    ghost base: { Self → List Tuple };

    /// Whether the cell at `key` is in the input. It takes no memory.
    fn is_based(&self, key: &[Value]) -> bool
        ensures { result ≡ is_among (base self.now) key.now };

    /// The places of the keys that meet the test of each dimension, ascending. `Memory` comes too where there are more keys
    /// than a `u32` can number.
    fn meeting(&self, alloc: Global, tests: &[DimTest]) -> Result<Vec<u32>, Memory>
        ensures numbers { IfOk result (λ places. places.items ≡ places_meeting tests.now (set self.now)) }
        ensures below { IfOk result (λ places. All (λ place. place < length (set self.now)) places.items) }
        ensures keys { (other : Tuple) → IfOk result (λ places.
            map (λ place. slice_index_or (set self.now) place other) places.items ≡ filter (meets_every tests.now) (set self.now)) };

    /// The same places as runs, which ascend: none is empty or reaches into the next.
    fn runs_meeting(&self, alloc: Global, tests: &[DimTest]) -> Result<Vec<PlaceRun>, Memory>
        ensures numbers { IfOk result (λ runs. numbers_of runs.items ≡ places_meeting tests.now (set self.now)) }
        ensures apart { IfOk result (λ runs. AreRuns 0 (length (set self.now)) runs.items) }
        ensures below { IfOk result (λ runs. All (λ run. run.past ≤ length (set self.now)) runs.items) }
        ensures keys { (other : Tuple) → IfOk result (λ runs.
            map (λ place. slice_index_or (set self.now) place other) (numbers_of runs.items) ≡ filter (meets_every tests.now) (set self.now)) };

    /// The key at a place.
    fn key_at(&self, place: u32) -> &Key
        requires { place < length (set self.now) }
        ensures { (other : Tuple) → result.now ≡ slice_index_or (set self.now) place other };
}
