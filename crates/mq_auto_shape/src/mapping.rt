//! Maps of dimensions.
ghost use Rattle.std.specs.Prelude.{◌≡◌};

use mq_dim_index::DimIndex;
use mq_ir::Model;
use mq_values::Memory;
use std::alloc::Global;

// With fewer cells a map of a dimension costs more than it spares.
const WORTH_A_MAP: u32 = 64;

/// Makes the map of the second dimension, where there is one and there are enough cells. Only what ranges cost depends on it;
/// the keys are as before, after `Memory` too.
pub fn map_tested(alloc: Global, m: &Model<'_>, index: &mut DimIndex) -> Result<(), Memory>
    ensures { index.new ≡ index.old }
{
    if index.len() < WORTH_A_MAP || m.part.dims.len() < 2 {
        return Ok(());
    }
    index.map_dimension(alloc, 1)
}
