//! The rules of a model, one after another.
ghost use Rattle.std.specs.Prelude.{◌≡◌, length, Some, IfOk};
ghost use Rattle.mq_values.specs.Answers.{Gives};
ghost use Rattle.mq_ir.specs.Unfolding.{model_of};
ghost use Rattle.mq_unfold.specs.LeftSides.{rule_of};
ghost use Rattle.mq_ir.specs.Ready.{LeftHasPlaces, LeftsHavePlaces};
ghost use Rattle.mq_seq.specs.Known.{IsPrepared};
ghost use Rattle.mq_seq.specs.Steps.{rule_done, turn_done};

use crate::acting::Acting;
use crate::grid::Grid;
use crate::lefts::{act_all, act_fixed};
use crate::prepared::{Prepared, fixed_at};
use mq_ir::{Model, PlacedFault, Rule};
use mq_unfold::single_lefts;
use mq_values::Fail;
use std::alloc::Global;

/// The cells after all rules have acted in text order, or the first fault. `Memory` comes too where there are more rules
/// than a `u32` can number.
pub fn act_rules(
    alloc: Global,
    m: &Model<'_>,
    prepared: &Prepared<'_>,
    turn: u32,
    grid: Grid,
) -> Result<Grid, Fail<PlacedFault>>
    requires lefts { LeftsHavePlaces m.now.part.now }
    requires wide { grid.width ≡ length m.now.part.now.dims }
    requires prepared { IsPrepared prepared.now m.now }
    ensures exact { Gives result (turn_done (model_of m.now) turn grid) }
    ensures width { IfOk result (λ g. g.width ≡ grid.width) }
{
    let mut grid = grid;
    let mut number = 0u32;
    'rules: for rule in m.part.rules.as_slice() {
        let Some(next) = number.checked_add(1) else {
            return Err(Fail::Memory);
        };
        number = next;
        grid = act_rule(alloc, m, prepared, turn, number, rule, grid)?;
    }
    Ok(grid)
}

// One rule: its single left sides act one after another.
fn act_rule(
    alloc: Global,
    m: &Model<'_>,
    prepared: &Prepared<'_>,
    turn: u32,
    number: u32,
    rule: &Rule,
    grid: Grid,
) -> Result<Grid, Fail<PlacedFault>>
    requires there { rule_of m.now.part.now.rules number ≡ Some rule.now }
    requires places { LeftHasPlaces (length m.now.part.now.dims) rule.now.left }
    requires wide { grid.width ≡ length m.now.part.now.dims }
    requires prepared { IsPrepared prepared.now m.now }
    ensures exact { Gives result (rule_done (model_of m.now) turn (number, rule.now) grid) }
    ensures width { IfOk result (λ g. g.width ≡ grid.width) }
{
    let act = Acting {
        model: m,
        number,
        rule,
        turn,
        refs: prepared.refs,
    };
    match fixed_at(prepared.fixed, number) {
        Some(fixed) => act_fixed(alloc, &act, fixed, grid),
        None => act_unfolded(alloc, &act, grid),
    }
}

// A rule whose single left sides are made anew in this turn.
fn act_unfolded(alloc: Global, act: &Acting<'_>, grid: Grid) -> Result<Grid, Fail<PlacedFault>>
    requires there { rule_of act.now.model.now.part.now.rules act.now.number ≡ Some act.now.rule.now }
    requires places { LeftHasPlaces (length act.now.model.now.part.now.dims) act.now.rule.now.left }
    requires wide { grid.width ≡ length act.now.model.now.part.now.dims }
    ensures exact { Gives result (rule_done (model_of act.now.model.now) act.now.turn (act.now.number, act.now.rule.now) grid) }
    ensures width { IfOk result (λ g. g.width ≡ grid.width) }
{
    let lefts = single_lefts(alloc, act.model, act.turn, act.number, act.rule)?;
    act_all(alloc, act, lefts.as_slice(), grid)
}
