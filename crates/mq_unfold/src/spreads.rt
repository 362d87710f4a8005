//! The places of a left side evaluated, and how many single left sides they stand for.
ghost use Rattle.std.specs.Prelude.{length, map};
ghost use Rattle.std.specs.List.{enumerate_from};
ghost use Rattle.mq_values.specs.Answers.{Gives};
ghost use Rattle.mq_ir.specs.LeftLaws.{product_of};
ghost use Rattle.mq_ir.specs.Results.{each};
ghost use Rattle.mq_ir.specs.Unfolding.{item_places, model_of};
ghost use Rattle.mq_unfold.specs.Spreads as spec;

use crate::forms::Spread;
use crate::places::{kind_at, named, step_of, tested, value_of};
use crate::sources::places_of;
use crate::steps::Steps;
use mq_ir::{LeftItem, Model};
use mq_values::{Fail, Items, ValueFault};
use std::alloc::Global;

/// The places for each place of a left side, evaluated from left to right, or the first fault among them.
pub fn spreads_of(
    alloc: Global,
    m: &Model<'_>,
    turn: u32,
    items: &[LeftItem],
) -> Result<Items<Spread>, Fail<ValueFault>>
    ensures { Gives result (each (item_places (model_of m.now) turn) (enumerate_from 0 items.now)) }
{
    let mut spreads = Items::new(alloc);
    for (dim, item) in items.iter().enumerate() {
        spreads.push(spread_of(alloc, m, turn, dim, item)?)?;
    }
    Ok(spreads)
}

// The places for the place of this dimension.
fn spread_of(
    alloc: Global,
    m: &Model<'_>,
    turn: u32,
    dim: usize,
    item: &LeftItem,
) -> Result<Spread, Fail<ValueFault>>
    ensures { Gives result (item_places (model_of m.now) turn (dim, item.now)) }
{
    let kind = kind_at(m, dim);
    match item {
        LeftItem::At(e) => Ok(Spread::one(named(alloc, turn, kind, e)?)),
        LeftItem::Sym(test) => Ok(Spread::one(tested(alloc, turn, kind, test)?)),
        LeftItem::List(source) => Ok(Spread::listed(places_of(alloc, m, turn, kind, source)?)),
        LeftItem::Steps {
            start,
            stop,
            step,
            down,
        } => {
            let start = value_of(alloc, turn, kind, start)?;
            let stop = value_of(alloc, turn, kind, stop)?;
            let step = step_of(alloc, turn, kind, step)?;
            Ok(Spread::stepped(Steps {
                start,
                stop,
                step,
                down: *down,
            }))
        }
    }
}

/// How many single left sides the spreads stand for; where they are more than there may be, some number above that.
pub fn number_of(spreads: &[Spread]) -> usize
    ensures { spec.IsAlike result (product_of (map length spreads.now)) }
{
    let mut number: usize = 1;
    for spread in spreads {
        number = number.saturating_mul(spread.count());
    }
    number
}
