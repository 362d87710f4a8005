//! The targets of a single left side, assigned in order.
ghost use Rattle.std.specs.Prelude.{◌≡◌, true, Some, IfOk};
ghost use Rattle.std.specs.List.{All};
ghost use Rattle.std.specs.Map.{keys_of};
ghost use Rattle.mq_values.specs.Answers.{Gives};
ghost use Rattle.mq_dim_index.specs.Places.{is_there, place_of};
ghost use Rattle.mq_ir.specs.Reads.{measure_at, right_value};
ghost use Rattle.mq_ir.specs.Results.{each_in_turn};
ghost use Rattle.mq_ir.specs.Sequential.{site_of};
ghost use Rattle.mq_seq.specs.Steps.{act_in, target_done, target_value};

use crate::acting::Acting;
use crate::grid::Grid;
use mq_ir::{PlacedFault, kind_of};
use mq_refs::lent_value;
use mq_values::{Fail, Key, Value, ValueFault};
use std::alloc::Global;

/// The cells after a rule has assigned these targets, which are all there, one after another, or the first fault. The first
/// of them is looked for at the place `near` before all others.
pub fn assign_all(
    alloc: Global,
    act: &Acting<'_>,
    targets: &[Key],
    near: u32,
    grid: Grid,
) -> Result<Grid, Fail<PlacedFault>>
    requires { All (λ target. is_there (keys_of grid.track.cells) target ≡ true) targets.now }
    ensures exact { Gives result (each_in_turn (target_done (act_in act.now)) targets.now grid) }
    ensures width { IfOk result (λ g. g.width ≡ grid.width) }
{
    let mut grid = grid;
    let mut near = near;
    'targets: for target in targets {
        let at = grid.place_near(target, near);
        grid = assign_one(alloc, act, target, at, grid)?;
        near = at.saturating_add(1);
    }
    Ok(grid)
}

// One target, which stands at the place `at`.
fn assign_one(
    alloc: Global,
    act: &Acting<'_>,
    target: &Key,
    at: u32,
    grid: Grid,
) -> Result<Grid, Fail<PlacedFault>>
    requires { place_of (keys_of grid.track.cells) target.now ≡ Some at }
    ensures exact { Gives result (target_done (act_in act.now) target.now grid) }
    ensures width { IfOk result (λ g. g.width ≡ grid.width) }
    ensures same_keys { IfOk result (λ g. keys_of g.track.cells ≡ keys_of grid.track.cells) }
{
    let v = value_for(alloc, act, target, &grid)?;
    Ok(grid.assigned(alloc, target, at, act.rule.measure, v)?)
}

// What the rule assigns to a target over the cells as they stand.
fn value_for(
    alloc: Global,
    act: &Acting<'_>,
    target: &Key,
    grid: &Grid,
) -> Result<Value, Fail<PlacedFault>>
    ensures { Gives result (target_value (act_in act.now grid.now.input) target.now grid.now) }
{
    match value_over(alloc, act, target, grid) {
        Ok(v) => Ok(v),
        Err(Fail::Cause(fault)) => Err(Fail::Cause(PlacedFault::new(
            act.number,
            target.copy()?,
            kind_of(fault),
        ))),
        Err(Fail::Memory) => Err(Fail::Memory),
    }
}

// The right side of a target. All cells that stand have values, so it is evaluated over them at once.
fn value_over(
    alloc: Global,
    act: &Acting<'_>,
    target: &Key,
    grid: &Grid,
) -> Result<Value, Fail<ValueFault>>
    ensures { Gives result (right_value (site_of (act_in act.now grid.now.input) (keys_of grid.now.track.cells) target.now)
        grid.now.input (measure_at grid.now.track.cells) act.now.rule.now) }
{
    lent_value(
        alloc,
        act.rule,
        act.model,
        target,
        act.turn,
        act.refs,
        grid.lent(),
    )
}
