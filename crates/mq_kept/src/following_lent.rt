//! The partitions of a view that is kept, lent, while rows of the tables are replaced.
ghost use Rattle.std.specs.Prelude.{◌≡◌, List, Option, Some, true, false, IfOk, IfSome};
ghost use Rattle.std.specs.List.{list_any};
ghost use Rattle.mq_ir.specs.Keys.{Tuple};
ghost use Rattle.mq_ir.specs.Ready.{QueryIsReady};
ghost use Rattle.mq_ir.specs.Statement.{tables_of_model};
ghost use Rattle.mq_ir.specs.Tables.{Tables, is_name, rows_of};
ghost use Rattle.mq_delta_items.specs.Lines.{lines_of};
ghost use Rattle.mq_kept.specs.Beside.{IsChangeOfLines};
ghost use Rattle.mq_kept.specs.FollowingLent.{AreExchanged, IsLent, WasLent};
ghost use Rattle.mq_tables.specs.PuttingBack.{AreReplaced};
ghost use Rattle.mq_kept.specs.Standing.{IsStanding};

use crate::beside::{are_many_unshown, items_of};
use crate::carrying::MOST_FOLLOWED;
use crate::kept_view::KeptView;
use crate::lending::{LentPart, lent_parts};
use crate::reading::{part_reads, query_reads};
use crate::renewing_lent::renew_lent;
use crate::row_changes::RowChange;
use crate::standing::StandingView;
use mq_delta_items::ItemChange;
use mq_ir::{BoundQuery, Model as Lent, ModelPart, Row};
use mq_tables::TableSet;
use mq_values::{Items, MAX_BASE_ROWS, Memory};
use std::alloc::Global;

/// Rows of the table of this name that were replaced, as they stood, each with its place.
#[derive(Drop)]
pub struct OldRows<'a> {
    pub table: &'a str,
    pub were: &'a [(u32, Row)],
}

/// The partitions of a view that is kept, lent: what is kept stays as it is. Nothing comes where what is kept is not fresh or has no
/// lines, or so many partitions have not made their rows that the workers are to share them. `Memory` is the only error.
pub fn lend_view<'a>(
    alloc: Global,
    kept: &'a StandingView,
) -> Result<Option<Vec<LentPart<'a>>>, Memory>
    ensures { (tables : Tables) (q : BoundQuery) (part : ModelPart) → IsStanding tables q part kept.now
        → IfOk result (λ found. IfSome found (λ parts. IsLent tables q part kept.now.view parts.items)) }
{
    if !kept.fresh {
        return Ok(None);
    }
    let Some(_lines) = &kept.view.lines else {
        return Ok(None);
    };
    let parts = kept.view.parts.as_slice();
    if are_many_unshown(parts) {
        return Ok(None);
    }
    Ok(Some(lent_parts(alloc, parts)?))
}

/// Lets partitions that are lent follow rows of a table that were replaced: `tables` are the tables as they stand now, with the new rows
/// at the places of the old. `true`: the partitions are those over these tables. `false` tells nothing of them: it comes where a
/// reference or a FOR subquery reads the table, where it has more rows than a query may have, where more were replaced than a view follows
/// at once, where one of them faults, and where a partition came or went, or has a dimension tuple twice. `Memory` is the only error.
pub fn follow_lent<T: TableSet>(
    alloc: Global,
    tables: &T,
    q: &BoundQuery,
    part: &ModelPart,
    view: &KeptView,
    old: &OldRows<'_>,
    parts: &mut [LentPart<'_>],
) -> Result<bool, Memory>
    requires ready { QueryIsReady q.now }
    requires model { q.now.model ≡ Some part.now }
    requires lent { WasLent old.now.table.now old.now.were.now (T.tables tables.now) q.now part.now view.now parts.old }
    ensures { IfOk result (λ done. done ≡ true → IsLent (T.tables tables.now) q.now part.now view.now parts.new) }
{
    if part_reads(part, old.table) {
        return Ok(false);
    }
    if !query_reads(q, old.table) {
        return Ok(true);
    }
    if old.were.len() > MOST_FOLLOWED {
        return Ok(false);
    }
    followed_by_row(alloc, tables, q, part, view, old, parts)
}

// The same of a view of which the FROM alone reads the table.
fn followed_by_row<T: TableSet>(
    alloc: Global,
    tables: &T,
    q: &BoundQuery,
    part: &ModelPart,
    view: &KeptView,
    old: &OldRows<'_>,
    parts: &mut [LentPart<'_>],
) -> Result<bool, Memory>
    requires ready { QueryIsReady q.now }
    requires model { q.now.model ≡ Some part.now }
    requires from { list_any (is_name old.now.table.now) q.now.from.tables ≡ true }
    requires apart { list_any (is_name old.now.table.now) (tables_of_model part.now) ≡ false }
    requires lent { WasLent old.now.table.now old.now.were.now (T.tables tables.now) q.now part.now view.now parts.old }
    ensures { IfOk result (λ done. done ≡ true → IsLent (T.tables tables.now) q.now part.now view.now parts.new) }
{
    let Some(change) = items_replaced(alloc, tables, q, old)? else {
        return Ok(false);
    };
    let model = Lent {
        part,
        lists: view.lists.as_slice(),
        refs: view.refs.as_slice(),
    };
    renew_lent(alloc, &model, &change, parts)
}

// The items of the rows that were replaced, and of those that stand at their places now. Each row has its line by itself.
fn items_replaced<T: TableSet>(
    alloc: Global,
    tables: &T,
    q: &BoundQuery,
    old: &OldRows<'_>,
) -> Result<Option<ItemChange>, Memory>
    ensures { (before : List Tuple) (lines : List (Option Tuple))
        → AreReplaced 0 old.now.were.now before (rows_of (T.tables tables.now) old.now.table.now)
        → lines_of q.now.from q.now.items before ≡ Some lines
        → IfOk result (λ found. IfSome found
        (IsChangeOfLines q.now.from q.now.items (rows_of (T.tables tables.now) old.now.table.now) lines)) }
{
    let Some(rows) = tables.rows(old.table) else {
        return Ok(None);
    };
    if rows.len() > MAX_BASE_ROWS {
        return Ok(None);
    }
    let Some(change) = rows_replaced(alloc, old.were, rows)? else {
        return Ok(None);
    };
    items_of(alloc, &q.from, &q.items, &change)
}

// The rows that were replaced, and those that stand at their places now; nothing where no row stands at one of these.
fn rows_replaced(
    alloc: Global,
    were: &[(u32, Row)],
    rows: &[Row],
) -> Result<Option<RowChange>, Memory>
    ensures { IfOk result (λ found. IfSome found (AreExchanged were.now rows.now)) }
{
    let mut change = RowChange {
        gone: Items::with_room(alloc, were.len()),
        come: Items::with_room(alloc, were.len()),
    };
    'were: for was in were {
        let Some(row) = rows.get(was.0 as usize) else {
            return Ok(None);
        };
        change.gone.push(was.1.copy()?)?;
        change.come.push(row.copy()?)?;
    }
    Ok(Some(change))
}
