//! The turns of a model, one after another.
ghost use Rattle.std.specs.Prelude.{◌≡◌, length, Some, IfOk};
ghost use Rattle.std.specs.Option.{option_copied};
ghost use Rattle.mq_values.specs.Answers.{Gives};
ghost use Rattle.mq_ir.specs.Iteration.{turn_count};
ghost use Rattle.mq_ir.specs.Unfolding.{model_of};
ghost use Rattle.mq_ir.specs.Ready.{LeftsHavePlaces};
ghost use Rattle.mq_seq.specs.Known.{IsPrepared};
ghost use Rattle.mq_seq.specs.Steps.{turn_with, turns_done, until_in};

use crate::grid::Grid;
use crate::prepared::{Prepared, fixed_lefts};
use crate::rules::act_rules;
use crate::until::until_true;
use mq_ir::{Expr, Model, PlacedFault};
use mq_refs::refs_order;
use mq_values::Fail;
use std::alloc::Global;

/// The cells after the turns, or the first fault: without ITERATE there is one, with it so many at most, and the one
/// after which UNTIL is true is the last (docs/MEANING.md, "Iteration").
pub fn take_turns(alloc: Global, m: &Model<'_>, grid: Grid) -> Result<Grid, Fail<PlacedFault>>
    requires lefts { LeftsHavePlaces m.now.part.now }
    requires wide { grid.width ≡ length m.now.part.now.dims }
    ensures { Gives result (turns_done (model_of m.now) 0 (turn_count (model_of m.now)) grid) }
{
    let count = count_of(m);
    let fixed = fixed_lefts(alloc, m, count)?;
    let prepared = Prepared {
        refs: refs_order(m),
        fixed: fixed.as_slice(),
    };
    let mut grid = grid;
    'turns: for turn in 0..count {
        let (next, last) = take_turn(alloc, m, &prepared, turn, grid)?;
        grid = next;
        if last {
            return Ok(grid);
        }
    }
    Ok(grid)
}

// How many turns there are at most.
fn count_of(m: &Model<'_>) -> u32
    ensures { result ≡ turn_count (model_of m.now) }
{
    match &m.part.iterate {
        Some(iterate) => iterate.turns,
        None => 1,
    }
}

// The condition that ends the turns, where there is one.
fn until_of<'a>(m: &Model<'a>) -> Option<&'a Expr>
    ensures { option_copied result ≡ until_in (model_of m.now) }
{
    let part = m.part;
    match &part.iterate {
        Some(iterate) => iterate.until.as_ref(),
        None => None,
    }
}

// One turn, and whether it is the last.
fn take_turn(
    alloc: Global,
    m: &Model<'_>,
    prepared: &Prepared<'_>,
    turn: u32,
    grid: Grid,
) -> Result<(Grid, bool), Fail<PlacedFault>>
    requires lefts { LeftsHavePlaces m.now.part.now }
    requires wide { grid.width ≡ length m.now.part.now.dims }
    requires prepared { IsPrepared prepared.now m.now }
    ensures exact { Gives result (turn_with (model_of m.now) turn (until_in (model_of m.now)) grid) }
    ensures width { IfOk result (λ r. r.0.width ≡ grid.width) }
{
    match until_of(m) {
        Some(e) => take_until(alloc, m, prepared, turn, e, grid),
        None => Ok((act_rules(alloc, m, prepared, turn, grid)?, false)),
    }
}

// One turn, with what stood when it began, and whether UNTIL holds after it.
fn take_until(
    alloc: Global,
    m: &Model<'_>,
    prepared: &Prepared<'_>,
    turn: u32,
    e: &Expr,
    grid: Grid,
) -> Result<(Grid, bool), Fail<PlacedFault>>
    requires lefts { LeftsHavePlaces m.now.part.now }
    requires wide { grid.width ≡ length m.now.part.now.dims }
    requires prepared { IsPrepared prepared.now m.now }
    ensures exact { Gives result (turn_with (model_of m.now) turn (Some e.now) grid) }
    ensures width { IfOk result (λ r. r.0.width ≡ grid.width) }
{
    let next = act_rules(alloc, m, prepared, turn, grid.begun(alloc))?;
    let last = until_true(alloc, m, prepared.refs, turn, &next, e)?;
    Ok((next, last))
}
