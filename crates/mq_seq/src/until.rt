//! UNTIL after a turn.
ghost use Rattle.std.specs.Prelude.{◌≡◌, []};
ghost use Rattle.std.specs.Map.{keys_of};
ghost use Rattle.mq_values.specs.Answers.{Gives};
ghost use Rattle.mq_values.specs.Truth.{is_true as spec_is_true};
ghost use Rattle.mq_ir.specs.Expression.{holds as spec_holds};
ghost use Rattle.mq_ir.specs.Reads as spec;
ghost use Rattle.mq_ir.specs.Reads.{measure_at};
ghost use Rattle.mq_ir.specs.Unfolding.{model_of};
ghost use Rattle.mq_refs.specs.Orders.{IsOrderOf, IsOrderOf-prop};
ghost use Rattle.mq_refs.specs.Sites.{site_over};
ghost use Rattle.mq_seq.specs.Steps.{until_true as spec_until_true};
ghost use Rattle.mq_seq.specs.Tracks.{measure_from};

use crate::grid::Grid;
use mq_ir::{Expr, Leaf, Model, PlacedFault, kind_of};
use mq_refs::{Reading, RefsOrder, Standpoint, Worths, cell_value};
use mq_scalar::{Env, holds};
use mq_values::{Fail, Key, Memory, Value, ValueFault};
use std::alloc::Global;

/// Whether UNTIL holds over the cells after a turn and those with which it began, or its fault; where it is unknown, it
/// does not hold.
pub fn until_true(
    alloc: Global,
    m: &Model<'_>,
    refs: RefsOrder,
    turn: u32,
    grid: &Grid,
    e: &Expr,
) -> Result<bool, Fail<PlacedFault>>
    requires { IsOrderOf refs m.now }
    ensures { Gives result (spec_until_true (model_of m.now) turn grid.now e.now) }
{
    match held(alloc, m, refs, turn, grid, e) {
        Ok(truth) => Ok(is_true(truth)),
        Err(Fail::Cause(fault)) => Err(Fail::Cause(PlacedFault::new(
            0,
            Key::empty(),
            kind_of(fault),
        ))),
        Err(Fail::Memory) => Err(Fail::Memory),
    }
}

// Unknown counts as not true.
fn is_true(truth: Option<bool>) -> bool
    ensures { result ≡ spec_is_true truth }
{
    match truth {
        Some(holds) => holds,
        None => false,
    }
}

// What UNTIL comes to, as a condition, where no cell is the target.
fn held(
    alloc: Global,
    m: &Model<'_>,
    refs: RefsOrder,
    turn: u32,
    grid: &Grid,
    e: &Expr,
) -> Result<Option<bool>, Fail<ValueFault>>
    requires { IsOrderOf refs m.now }
    ensures { Gives result (spec_holds (spec.read_until (record { model = model_of m.now; target = []; turn = turn; set = keys_of grid.now.track.cells })
        grid.now.input (measure_at grid.now.track.cells) (measure_from grid.now.track)) e.now) }
{
    let target = Key::empty();
    let at = Standpoint {
        model: m,
        target: &target,
        turn,
    };
    let mut place = AfterTurn {
        at: &at,
        refs,
        grid,
    };
    holds(alloc, e, &mut place)
}

// The place of UNTIL: that of a right side over the cells as they stand, and beside it what stood when the turn began.
#[derive(Drop)]
struct AfterTurn<'a> {
    at: &'a Standpoint<'a>,
    refs: RefsOrder,
    grid: &'a Grid,
    ghost refs_known: { IsOrderOf refs at.now.model.now } by { IsOrderOf-prop refs at.now.model.now },
}

impl Env for AfterTurn<'_> {
    ghost gives = { λ env. spec.read_until (site_over env.at.now (keys_of env.grid.now.track.cells)) env.grid.now.input (measure_at env.grid.now.track.cells)
        (measure_from env.grid.now.track) };

    fn leaf(&mut self, alloc: Global, leaf: &Leaf) -> Result<Value, Fail<ValueFault>> {
        match leaf {
            Leaf::Previous(measure, indices) => {
                let mut before = Before {
                    alloc,
                    grid: self.grid,
                };
                cell_value(alloc, self.at, *measure, indices.as_slice(), &mut before)
            }
            _ => leaf_now(alloc, self.at, self.refs, self.grid, leaf),
        }
    }
}

// What a leaf other than PREVIOUS is worth.
fn leaf_now<'a>(
    alloc: Global,
    at: &'a Standpoint<'a>,
    refs: RefsOrder,
    grid: &'a Grid,
    leaf: &Leaf,
) -> Result<Value, Fail<ValueFault>>
    requires { IsOrderOf refs at.now.model.now }
    ensures { Gives result (spec.read (site_over at.now (keys_of grid.now.track.cells)) grid.now.input (measure_at grid.now.track.cells) leaf.now) }
{
    let mut now = Reading {
        at,
        keys: grid.store(),
        refs,
        worths: grid.lent(),
    };
    now.leaf(alloc, leaf)
}

// The measures of cells as they were when the turn began.
#[derive(Drop)]
struct Before<'a> {
    alloc: Global,
    grid: &'a Grid,
}

impl Worths for Before<'_> {
    ghost worth = { λ before. measure_from before.grid.now.track };

    fn value(&mut self, key: &[Value], measure: u32) -> Result<Value, Memory> {
        self.grid.value_before(self.alloc, key, measure)
    }

    fn value_at(&mut self, _place: u32, key: &[Value], measure: u32) -> Result<Value, Memory> {
        self.grid.value_before(self.alloc, key, measure)
    }

    fn next_value(
        &mut self,
        _at: &Standpoint<'_>,
        _measure: u32,
        _indices: &[Expr],
    ) -> Result<Option<Value>, Memory> {
        Ok(None)
    }
}
