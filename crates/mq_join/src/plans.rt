//! What is known of the conditions before the walk over all tuples.
ghost use Rattle.std.specs.Prelude.{◌≡◌, IfOk};
ghost use Rattle.mq_join.specs.Passing.{IndexesServe, IsReady, ServesItem};

use crate::conditions::Condition;
use crate::deciders::{Decider, deciders_of};
use crate::from_items::ItemRows;
use crate::indexes::{Index, index_of};
use crate::lookups::lookup_for;
use mq_values::Memory;
use std::alloc::Global;

/// The parts of the conditions that tell early that a tuple is not kept, and for each FROM item an index where one serves.
#[derive(Drop)]
pub struct Plan<'b, 'a> {
    pub deciders: Vec<Decider<'b>>,
    pub indexes: Vec<Option<Index<'a>>>,
}

/// The plan for these conditions over these rows. `Memory` is the only error.
#[tactic(auto, using(crate::proofs::PassingLemmas::passing_steps))]
pub fn plan_of<'b, 'a>(
    alloc: Global,
    conditions: &[Condition<'b>],
    items: &[ItemRows<'a>],
) -> Result<Plan<'b, 'a>, Memory>
    ensures { IfOk result (λ plan. IsReady conditions.now items.now plan) }
{
    let deciders = deciders_of(alloc, conditions, items.len())?;
    let indexes = indexes_of(alloc, &deciders, items)?;
    Ok(Plan { deciders, indexes })
}

#[tactic(auto, using(crate::proofs::PassingLemmas::passing_steps))]
fn indexes_of<'a>(
    alloc: Global,
    deciders: &[Decider<'_>],
    items: &[ItemRows<'a>],
) -> Result<Vec<Option<Index<'a>>>, Memory>
    ensures { IfOk result (λ indexes. IndexesServe deciders.now items.now indexes.items) }
{
    let mut indexes = Vec::with_capacity(alloc, items.len())?;
    'items: for level in 0..items.len() {
        indexes.push(index_at(alloc, deciders, &items[level], level)?)?;
    }
    Ok(indexes)
}

// The index of the item of number `level`.
#[tactic(auto, using(crate::proofs::PassingLemmas::passing_steps))]
fn index_at<'a>(
    alloc: Global,
    deciders: &[Decider<'_>],
    rows: &ItemRows<'a>,
    level: usize,
) -> Result<Option<Index<'a>>, Memory>
    ensures { IfOk result (λ index. ServesItem deciders.now level rows.now index) }
{
    match lookup_for(deciders, level) {
        Some(lookup) => Ok(Some(index_of(alloc, lookup, rows)?)),
        None => Ok(None),
    }
}
