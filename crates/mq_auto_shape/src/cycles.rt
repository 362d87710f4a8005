//! The cycle that is named.
ghost use Rattle.std.specs.Prelude.{◌≡◌, ◌<◌, [], None, length, map, IfOk, slice_get};
ghost use Rattle.std.specs.List.{All, filter_map};
ghost use Rattle.mq_auto_shape.specs.Outcomes.{by_rule, cycle_at};

use crate::least::least;
use mq_ir::PlacedFault;
use mq_values::{FaultKind, Key, Memory};
use std::alloc::Global;

/// CYCLE at the least (rule, cell) of the assignments at these places, or `None` where there are none.
pub fn cycle_among(
    alloc: Global,
    assigned: &[(Key, u32, u32)],
    places: &[u32],
) -> Result<Option<PlacedFault>, Memory>
    requires { All (λ place. place < length assigned.now) places.now }
    ensures fault { IfOk result (λ fault. fault ≡ cycle_at (filter_map (slice_get assigned.now) places.now)) }
    ensures none { IfOk result (λ fault. fault ≡ None → places.now ≡ []) }
{
    let cells = cells_at(alloc, assigned, places)?;
    match least(&cells) {
        Some(cell) => Ok(Some(PlacedFault::new(cell.0, cell.1.copy()?, FaultKind::Cycle))),
        None => Ok(None),
    }
}

// The (rule, cell) of the assignments at these places.
fn cells_at(
    alloc: Global,
    assigned: &[(Key, u32, u32)],
    places: &[u32],
) -> Result<Vec<(u32, Key)>, Memory>
    requires { All (λ place. place < length assigned.now) places.now }
    ensures cells { IfOk result (λ cells. cells.items ≡ map by_rule (filter_map (slice_get assigned.now) places.now)) }
    ensures count { IfOk result (λ cells. length cells.items ≡ length places.now) }
{
    let mut cells = Vec::with_capacity(alloc, places.len())?;
    'places: for place in places {
        let a = &assigned[*place as usize];
        cells.push((a.2, a.0.copy()?))?;
    }
    Ok(cells)
}
