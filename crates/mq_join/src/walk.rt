//! The walk over all tuples of places, item by item: the first item turns slowest. Where the conditions tell that no tuple
//! is kept which begins with some places, the walk passes over these.
ghost use Rattle.std.specs.Prelude.{◌≡◌, ◌+◌, ◌<◌, [], length, slice_index_or, OnOk};
ghost use Rattle.std.specs.List.{range_with_len};
ghost use Rattle.mq_values.specs.Answers.{Gives};
ghost use Rattle.mq_join.specs.Passing.{IsReady, IsStart};
ghost use Rattle.mq_join.specs.Walk as spec;

use crate::conditions::{Condition, is_taken};
use crate::from_items::ItemRows;
use crate::join_row::{JoinRow, joined};
use crate::passing::{Start, is_idle, start_at};
use crate::plans::Plan;
use mq_values::{Fail, FaultKind, Items, MAX_BASE_ROWS};
use std::alloc::Global;

/// Puts the base rows that begin with the places in `tuple` behind those that are kept already. The first fault on
/// the way is the answer, and TOO_MANY_ROWS where a row finds no room (docs/MEANING.md, "Base rows").
#[cycle(walk)]
pub fn rows_behind<'a>(
    alloc: Global,
    conditions: &[Condition<'_>],
    items: &[ItemRows<'a>],
    plan: &Plan<'_, 'a>,
    tuple: &mut Vec<usize>,
    kept: Items<JoinRow<'a>>,
) -> Result<Items<JoinRow<'a>>, Fail<FaultKind>>
    requires { IsReady conditions.now items.now plan.now }
    ensures gives { Gives result (spec.rows_behind (spec.joined_step conditions.now items.now) (spec.counts_from items.now (length tuple.old.items)) tuple.old.items kept.entry) }
    ensures same { OnOk result (tuple.new.items ≡ tuple.old.items) }
{
    if is_idle(alloc, &plan.deciders, items, tuple)? {
        return Ok(kept);
    }
    match items.get(tuple.len()) {
        Some(rows) => rows_of_item(alloc, conditions, items, plan, tuple, rows, kept),
        None => judged(alloc, conditions, items, tuple, kept),
    }
}

// The same where there is a next item, whose rows are these.
#[cycle(walk)]
fn rows_of_item<'a>(
    alloc: Global,
    conditions: &[Condition<'_>],
    items: &[ItemRows<'a>],
    plan: &Plan<'_, 'a>,
    tuple: &mut Vec<usize>,
    rows: &ItemRows<'a>,
    kept: Items<JoinRow<'a>>,
) -> Result<Items<JoinRow<'a>>, Fail<FaultKind>>
    requires ready { IsReady conditions.now items.now plan.now }
    requires within { length tuple.old.items < length items.now }
    requires rows { rows.now ≡ slice_index_or items.now (length tuple.old.items) rows.now }
    ensures gives { Gives result (spec.rows_at_places (spec.joined_step conditions.now items.now) (spec.counts_from items.now (length tuple.old.items + 1)) tuple.old.items (range_with_len 0 (length rows.now)) kept.entry) }
    ensures same { OnOk result (tuple.new.items ≡ tuple.old.items) }
{
    match start_at(items, &plan.indexes, tuple) {
        Some(start) => rows_at_matches(alloc, conditions, items, plan, tuple, &start, kept),
        None => rows_at_places(alloc, conditions, items, plan, tuple, rows.len(), kept),
    }
}

// The same where the next item stands at each of its places, one after another.
#[cycle(walk)]
fn rows_at_places<'a>(
    alloc: Global,
    conditions: &[Condition<'_>],
    items: &[ItemRows<'a>],
    plan: &Plan<'_, 'a>,
    tuple: &mut Vec<usize>,
    count: usize,
    kept: Items<JoinRow<'a>>,
) -> Result<Items<JoinRow<'a>>, Fail<FaultKind>>
    requires ready { IsReady conditions.now items.now plan.now }
    requires within { length tuple.old.items < length items.now }
    ensures gives { Gives result (spec.rows_at_places (spec.joined_step conditions.now items.now) (spec.counts_from items.now (length tuple.old.items + 1)) tuple.old.items (range_with_len 0 count) kept.entry) }
    ensures same { OnOk result (tuple.new.items ≡ tuple.old.items) }
{
    let mut kept = kept;
    'places: for place in 0..count {
        kept = rows_at_place(alloc, conditions, items, plan, tuple, place, kept)?;
    }
    Ok(kept)
}

// The same where the walk is idle at each place that the index does not name.
#[cycle(walk)]
fn rows_at_matches<'a>(
    alloc: Global,
    conditions: &[Condition<'_>],
    items: &[ItemRows<'a>],
    plan: &Plan<'_, 'a>,
    tuple: &mut Vec<usize>,
    start: &Start<'_, 'a>,
    kept: Items<JoinRow<'a>>,
) -> Result<Items<JoinRow<'a>>, Fail<FaultKind>>
    requires ready { IsReady conditions.now items.now plan.now }
    requires within { length tuple.old.items < length items.now }
    requires start { IsStart conditions.now items.now tuple.old.items (slice_index_or items.now (length tuple.old.items) []) start.now.index.now start.now.first }
    ensures gives { Gives result (spec.rows_at_places (spec.joined_step conditions.now items.now) (spec.counts_from items.now (length tuple.old.items + 1)) tuple.old.items (range_with_len 0 (length (slice_index_or items.now (length tuple.old.items) []))) kept.entry) }
    ensures same { OnOk result (tuple.new.items ≡ tuple.old.items) }
{
    let mut kept = kept;
    let mut at = start.first;
    'matches: while let Some(place) = at {
        kept = rows_at_place(alloc, conditions, items, plan, tuple, place, kept)?;
        at = start.index.behind(place);
    }
    Ok(kept)
}

// The same where the next item stands at this place.
#[cycle(walk)]
fn rows_at_place<'a>(
    alloc: Global,
    conditions: &[Condition<'_>],
    items: &[ItemRows<'a>],
    plan: &Plan<'_, 'a>,
    tuple: &mut Vec<usize>,
    place: usize,
    kept: Items<JoinRow<'a>>,
) -> Result<Items<JoinRow<'a>>, Fail<FaultKind>>
    requires ready { IsReady conditions.now items.now plan.now }
    requires within { length tuple.old.items < length items.now }
    ensures gives { Gives result (spec.rows_at_place (spec.joined_step conditions.now items.now) (spec.counts_from items.now (length tuple.old.items + 1)) tuple.old.items place kept.entry) }
    ensures same { OnOk result (tuple.new.items ≡ tuple.old.items) }
{
    tuple.push(place)?;
    let kept = rows_behind(alloc, conditions, items, plan, tuple, kept)?;
    tuple.pop();
    Ok(kept)
}

// Puts the row of a tuple with a place for each item behind the others, where it meets all conditions.
fn judged<'a>(
    alloc: Global,
    conditions: &[Condition<'_>],
    items: &[ItemRows<'a>],
    places: &[usize],
    kept: Items<JoinRow<'a>>,
) -> Result<Items<JoinRow<'a>>, Fail<FaultKind>>
    ensures { Gives result (spec.joined_step conditions.now items.now places.now kept.entry) }
{
    if is_taken(alloc, conditions, items, places)? {
        with_joined(alloc, items, places, kept)
    } else {
        Ok(kept)
    }
}

// One base row more, as far as there is room for it.
fn with_joined<'a>(
    alloc: Global,
    items: &[ItemRows<'a>],
    places: &[usize],
    kept: Items<JoinRow<'a>>,
) -> Result<Items<JoinRow<'a>>, Fail<FaultKind>>
    ensures { Gives result (spec.with_joined items.now places.now kept.entry) }
{
    if kept.len() >= MAX_BASE_ROWS {
        return Err(Fail::Cause(FaultKind::TooManyRows));
    }
    let mut kept = kept;
    kept.push(joined(alloc, items, places)?)?;
    Ok(kept)
}
