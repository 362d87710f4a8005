//! The rows of a query without its MODEL clause: its base rows, its groups, its items.
ghost use Rattle.std.specs.Prelude.{◌≡◌, map, IfOk, IfSome};
ghost use Rattle.mq_values.specs.Answers.{Gives};
ghost use Rattle.mq_ir.specs.Answer.{plain_fault};
ghost use Rattle.mq_ir.specs.Items as spec;
ghost use Rattle.mq_ir.specs.Results.{marked};
ghost use Rattle.mq_join.specs.Rows.{rows_in};

use crate::joined_rows::{JoinedRow, joined_rows};
use crate::whole_tables::whole_rows;
use mq_group::{groups, items};
use mq_ir::{FromPart, ItemPart};
use mq_join::base_rows_in;
use mq_tables::TableSet;
use mq_values::{Fail, Items, Key, Memory, QueryFault};
use std::alloc::Global;

/// The items of a query for each base row or group over these tables, or the first fault: all filters come before all
/// items (docs/MEANING.md, "Groups and items"). A fault has no rule, no partition and no cell.
pub fn items_over<T: TableSet>(
    alloc: Global,
    tables: &T,
    from: &FromPart,
    part: &ItemPart,
) -> Result<Items<Key>, Fail<QueryFault>>
    ensures { Gives result (marked (plain_fault 0) (spec.items_over (T.tables tables.now) from.now part.now)) }
{
    match whole_rows(alloc, tables, from, part)? {
        Some(rows) => Ok(rows),
        None => items_walked(alloc, tables, from, part),
    }
}

// The same by a walk over the base rows.
fn items_walked<T: TableSet>(
    alloc: Global,
    tables: &T,
    from: &FromPart,
    part: &ItemPart,
) -> Result<Items<Key>, Fail<QueryFault>>
    ensures { Gives result (marked (plain_fault 0) (spec.items_over (T.tables tables.now) from.now part.now)) }
{
    let base = base_rows_in(alloc, from, tables)?;
    let rows = joined_rows(alloc, base)?;
    let found = groups_for(alloc, part, &rows)?;
    items(alloc, part, &rows, found.as_slice())
}

// The groups that the items are evaluated for; none where the query is not grouped.
fn groups_for(
    alloc: Global,
    part: &ItemPart,
    rows: &[JoinedRow<'_>],
) -> Result<Items<Items<u32>>, Memory>
    ensures { IfOk result (λ groups. IfSome part.now.group (λ cols. groups ≡ spec.groups_of cols (map (λ j. rows_in j.row) rows.now))) }
{
    match &part.group {
        Some(cols) => groups(alloc, cols.as_slice(), rows),
        None => Ok(Items::new(alloc)),
    }
}
