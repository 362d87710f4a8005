//! The single left sides of a rule, one after another.
ghost use Rattle.std.specs.Prelude.{◌≡◌, [], ◌∷◌, length, true, is_some, IfOk};
ghost use Rattle.std.specs.Map.{keys_of};
ghost use Rattle.mq_values.specs.Answers.{Gives};
ghost use Rattle.mq_ir.specs.Results.{each_in_turn};
ghost use Rattle.mq_ir.specs.Keys.{is_among};
ghost use Rattle.mq_ir.specs.Sequential as spec;
ghost use Rattle.mq_ir.specs.Targets.{targets as spec_targets};
ghost use Rattle.mq_ir.specs.Ready.{HavePlaces};
ghost use Rattle.mq_dim_index.specs.Places.{is_there, place_of as spec_place_of};
ghost use Rattle.mq_unfold.specs.FixedLefts.{NamesKey};
ghost use Rattle.mq_seq.specs.Steps.{act_in, left_done};

use crate::acting::Acting;
use crate::assigning::assign_all;
use crate::grid::Grid;
use crate::self_order::order_missing;
use mq_ir::{PlacedFault, SingleLeft};
use mq_targets::targets;
use mq_unfold::Fixed;
use mq_values::{Fail, FaultKind, Key, MAX_CELLS_OF_PARTITION, Memory, Mode};
use std::alloc::Global;

/// The cells after these single left sides of a rule have acted one after another, or the first fault.
pub fn act_all(
    alloc: Global,
    act: &Acting<'_>,
    lefts: &[SingleLeft],
    grid: Grid,
) -> Result<Grid, Fail<PlacedFault>>
    requires { HavePlaces grid.width lefts.now }
    ensures exact { Gives result (each_in_turn (left_done (act_in act.now)) lefts.now grid) }
    ensures width { IfOk result (λ g. g.width ≡ grid.width) }
{
    let mut grid = grid;
    'lefts: for left in lefts {
        grid = act_one(alloc, act, left, grid)?;
    }
    Ok(grid)
}

// One single left side: its cells are created, and then its targets are assigned.
fn act_one(
    alloc: Global,
    act: &Acting<'_>,
    left: &SingleLeft,
    grid: Grid,
) -> Result<Grid, Fail<PlacedFault>>
    requires { length left.now.places ≡ grid.width }
    ensures exact { Gives result (left_done (act_in act.now) left.now grid) }
    ensures width { IfOk result (λ g. g.width ≡ grid.width) }
{
    let found = targets(alloc, left, act.rule.mode, grid.index())?;
    let grid = grid.with_created(alloc, found.created.as_slice())?;
    match left_fault(alloc, act, left, found.cells.as_slice(), &grid)? {
        Some(fault) => Err(Fail::Cause(fault)),
        None => assign_all(alloc, act, found.cells.as_slice(), 0, grid),
    }
}

/// The cells after a single left side has acted that names this key in every turn, or the first fault. Where its cell is
/// there, that is the only target, and is not looked for.
pub fn act_fixed(
    alloc: Global,
    act: &Acting<'_>,
    fixed: &Fixed,
    grid: Grid,
) -> Result<Grid, Fail<PlacedFault>>
    requires wide { length fixed.now.left.places ≡ grid.width }
    requires names { NamesKey fixed.now.left.places fixed.now.key }
    ensures exact { Gives result (left_done (act_in act.now) fixed.now.left grid) }
    ensures width { IfOk result (λ g. g.width ≡ grid.width) }
{
    let Some(at) = own_place(fixed, act.rule.mode, &grid) else {
        return act_one(alloc, act, &fixed.left, grid);
    };
    let found = std::slice::from_ref(&fixed.key);
    match left_fault(alloc, act, &fixed.left, found, &grid)? {
        Some(fault) => Err(Fail::Cause(fault)),
        None => assign_all(alloc, act, found, at, grid),
    }
}

// The place of the cell of this key, where that is seen to be the only target, and to be there.
fn own_place(fixed: &Fixed, mode: Mode, grid: &Grid) -> Option<u32>
    requires { NamesKey fixed.now.left.places fixed.now.key }
    ensures alone { is_some result ≡ true → spec_targets fixed.now.left mode (keys_of grid.now.track.cells) ≡ record { cells = fixed.now.key ∷ []; created = [] } }
    ensures there { is_some result ≡ true → is_there (keys_of grid.now.track.cells) fixed.now.key ≡ true }
{
    match mode {
        Mode::Update => None,
        Mode::Upsert => place_of(grid, &fixed.key),
        Mode::UpsertAll => place_of(grid, &fixed.key),
    }
}

// The place at which the cell of a key stands, where it is there.
fn place_of(grid: &Grid, key: &Key) -> Option<u32>
    ensures place { result ≡ spec_place_of (keys_of grid.now.track.cells) key.now }
    ensures there { is_some result ≡ is_among (keys_of grid.now.track.cells) key.now }
{
    grid.index().find(key.as_slice())
}

// Why a single left side may not act on these targets, over the cells with those that it creates.
fn left_fault(
    alloc: Global,
    act: &Acting<'_>,
    left: &SingleLeft,
    found: &[Key],
    grid: &Grid,
) -> Result<Option<PlacedFault>, Memory>
    ensures { IfOk result (λ fault. fault ≡ spec.left_fault (act_in act.now grid.now.input) left.now (keys_of grid.now.track.cells) found.now) }
{
    if grid.index().len() as usize > MAX_CELLS_OF_PARTITION {
        return Ok(Some(PlacedFault::new(act.number, Key::empty(), FaultKind::TooManyCells)));
    }
    match order_missing(alloc, act, left, found, grid)? {
        Some(target) => Ok(Some(PlacedFault::new(act.number, target, FaultKind::SelfOrder))),
        None => Ok(None),
    }
}
