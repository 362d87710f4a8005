//! Places that the walk over all tuples passes over.
ghost use Rattle.std.specs.Prelude.{◌≡◌, IsTrue, IfOk, length};
ghost use Rattle.std.specs.Option.{IfSome};
ghost use Rattle.mq_ir.specs.BaseRows.{rows_at};
ghost use Rattle.mq_join.specs.Deciding.{Denies, IsNo, TellsNo};
ghost use Rattle.mq_join.specs.Passing.{IsIdleBy, Starts};

use crate::deciders::Decider;
use crate::from_items::ItemRows;
use crate::indexes::Index;
use crate::join_keys::JoinKey;
use crate::tuple_scope::{TupleScope, row_at};
use mq_scalar::holds;
use mq_values::{Fail, Memory};
use std::alloc::Global;

/// Where the walk over the rows of an item begins that have the value which is looked up.
#[derive(Drop)]
pub struct Start<'b, 'a> {
    pub index: &'b Index<'a>,
    pub first: Option<usize>,
}

/// The start of the next item behind these places, where its other rows may be passed over.
#[tactic(auto, using(crate::proofs::PassingLemmas::passing_steps))]
pub fn start_at<'b, 'a>(
    items: &[ItemRows<'a>],
    indexes: &'b [Option<Index<'a>>],
    places: &[usize],
) -> Option<Start<'b, 'a>>
    ensures { IfSome result (λ start. Starts items.now indexes.now places.now start.index.now start.first) }
{
    match indexes.get(places.len()) {
        Some(Some(index)) => {
            let row = row_at(items, places, index.lookup.item);
            let key = JoinKey::new(row, index.lookup.column);
            if index.passes(&key) {
                let first = index.first(&key);
                Some(Start { index, first })
            } else {
                None
            }
        }
        _ => None,
    }
}

/// Whether one of these tells that no tuple which begins with these places is kept.
#[tactic(auto, using(crate::proofs::PassingLemmas::passing_steps))]
pub fn is_idle(
    alloc: Global,
    deciders: &[Decider<'_>],
    items: &[ItemRows<'_>],
    places: &[usize],
) -> Result<bool, Memory>
    ensures { IfOk result (λ idle. IsTrue idle → IsIdleBy deciders.now items.now places.now) }
{
    'deciders: for d in deciders {
        if tells_no(alloc, d, items, places)? {
            return Ok(true);
        }
    }
    Ok(false)
}

// Whether a decider that sees the rows of just these places tells so.
fn tells_no(
    alloc: Global,
    d: &Decider<'_>,
    items: &[ItemRows<'_>],
    places: &[usize],
) -> Result<bool, Memory>
    ensures { IfOk result (λ no. IsTrue no → TellsNo d.now (length places.now) (rows_at items.now places.now)) }
{
    match d.below {
        Some(below) => {
            if below == places.len() {
                denies(alloc, d, items, places)
            } else {
                Ok(false)
            }
        }
        None => Ok(false),
    }
}

fn denies(
    alloc: Global,
    d: &Decider<'_>,
    items: &[ItemRows<'_>],
    places: &[usize],
) -> Result<bool, Memory>
    ensures { IfOk result (λ no. IsTrue no → Denies d.now (rows_at items.now places.now)) }
{
    let mut scope = TupleScope { items, places };
    match holds(alloc, d.e, &mut scope) {
        Ok(truth) => Ok(is_no(truth, d.safe)),
        Err(Fail::Cause(_)) => Ok(false),
        Err(Fail::Memory) => Err(Memory),
    }
}

fn is_no(truth: Option<bool>, safe: bool) -> bool
    ensures { IsTrue result → IsNo truth safe }
{
    match truth {
        Some(holds) => !holds,
        None => safe,
    }
}
