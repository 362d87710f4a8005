//! The keys of a partition's cells, ascending: keys go in and out one by one.
//! Out come the number of the place at which a key stands, and the numbers of the keys that meet a test of each dimension, one
//! by one or as runs.
//! Each call gives what `specs/Places` defines over the list of the keys.
#![tactic(auto)]

mod dim_index;
mod dimension_map;
mod maps;
mod near;
mod place_runs;
mod ranges;
mod runs;
mod search;
mod spans;

pub use dim_index::DimIndex;
pub use near::place_near;
pub use place_runs::PlaceRun;
pub use ranges::runs_among;
