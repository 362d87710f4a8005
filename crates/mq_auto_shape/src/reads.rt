//! Which assignments each assignment looks at.
ghost use Rattle.std.specs.Prelude.{◌≡◌, ◌<◌, ◌≤◌, ◌-◌, Some, IsSome, length, map, slice_get, IfOk, OnOk};
ghost use Rattle.std.specs.List.{All};
ghost use Rattle.mq_ir.specs.Unfolding.{model_of};
ghost use Rattle.mq_auto_shape.specs.Found.{AreThere, IsRuled};
ghost use Rattle.mq_auto_shape.specs.Edges.{AreWanted, PlacesAre, reads_of};
ghost use Rattle.mq_auto_shape.specs.LaneRuns.{numbers_of, reads_in_lanes};
ghost use Rattle.mq_cells.specs.declared.bounds.TheConstants.{MAX_ASSIGNMENTS};

use crate::lane_reads::LaneRun;
use crate::numbers::Numbers;
use crate::parts::runs_of;
use crate::wanted::wanted_of;
use mq_cells::MAX_ASSIGNMENTS;
use mq_dim_index::DimIndex;
use mq_ir::{Model, PartShape, Rule};
use mq_refs::{ShapeKeys, look_parts};
use mq_values::{Items, Key, Memory};
use std::alloc::Global;

/// The place of each measure that is assigned. `Memory` comes too where there are more than a `u32` can number.
pub fn places_of<'a>(
    alloc: Global,
    shape: &PartShape,
    cells: &'a DimIndex,
) -> Result<Numbers<'a>, Memory>
    requires { AreThere cells.now shape.now.assigned }
    ensures keys { IfOk result (λ numbers. numbers.keys ≡ cells.now) }
    ensures places { IfOk result (λ numbers. PlacesAre numbers shape.now.assigned) }
    ensures few { OnOk result (length shape.now.assigned ≤ MAX_ASSIGNMENTS) }
{
    let assigned = shape.assigned.as_slice();
    if assigned.len() > MAX_ASSIGNMENTS {
        return Err(Memory);
    }
    let mut numbers = Numbers::new(alloc, cells);
    let mut near = 0;
    let mut at = assigned.len();
    // From the last to the first: the first of those that are alike counts.
    'placing: while at > 0 {
        at -= 1;
        let a = &assigned[at];
        numbers.put(a.0.as_slice(), a.1, at as u32, &mut near)?;
    }
    Ok(numbers)
}

/// For each assignment of a shape with these cells the runs of places at which the numbers stand of those that its rule
/// looks at.
pub fn all_runs(
    alloc: Global,
    m: &Model<'_>,
    shape: &PartShape,
    cells: &DimIndex,
    numbers: &Numbers<'_>,
) -> Result<Vec<Items<LaneRun>>, Memory>
    requires cells { cells.now ≡ shape.now.cells }
    requires keys { numbers.now.keys ≡ cells.now }
    requires places { PlacesAre numbers.now shape.now.assigned }
    requires ruled { All (IsRuled (model_of m.now)) shape.now.assigned }
    ensures { IfOk result (λ lists. reads_in_lanes numbers.now.lanes lists.items
        ≡ map (reads_of (model_of m.now) shape.now) shape.now.assigned) }
{
    let assigned = shape.assigned.as_slice();
    let wanted = wanted_of(alloc, assigned)?;
    let mut lists = Vec::with_capacity(alloc, assigned.len())?;
    let mut near = 0;
    'assigned: for a in assigned {
        lists.push(runs_at(alloc, m, shape, cells, numbers, &wanted, a, &mut near)?)?;
    }
    Ok(lists)
}

// The runs of what the rule of an assignment looks at.
fn runs_at(
    alloc: Global,
    m: &Model<'_>,
    shape: &PartShape,
    cells: &DimIndex,
    numbers: &Numbers<'_>,
    wanted: &[bool],
    a: &(Key, u32, u32),
    near: &mut u32,
) -> Result<Items<LaneRun>, Memory>
    requires cells { cells.now ≡ shape.now.cells }
    requires keys { numbers.now.keys ≡ cells.now }
    requires places { PlacesAre numbers.now shape.now.assigned }
    requires wanted { AreWanted wanted.now shape.now.assigned }
    requires ruled { IsRuled (model_of m.now) a.now }
    ensures { IfOk result (λ runs. numbers_of numbers.now.lanes runs ≡ reads_of (model_of m.now) shape.now a.now) }
{
    // Every index says of its keys that they ascend.
    cells.keys();
    let rule = rule_numbered(m, a.2);
    // What a right side looks at does not depend on which cells the input has.
    let keys = ShapeKeys { base: cells, cells };
    let parts = look_parts(alloc, rule, m, &a.0, 0, &keys, wanted)?;
    runs_of(alloc, numbers, parts.as_slice(), near)
}

/// The rule with this number, counted from 1.
pub fn rule_numbered<'a>(m: &Model<'a>, number: u32) -> &'a Rule
    requires positive { 0 < number }
    requires there { IsSome (slice_get m.now.part.now.rules (number - 1)) }
    ensures { slice_get m.now.part.now.rules (number - 1) ≡ Some result.now }
{
    let part = m.part;
    match part.rules.get(number as usize - 1) {
        Some(rule) => rule,
        None => unreachable!(),
    }
}
