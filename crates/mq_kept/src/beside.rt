//! A view that is kept, over other tables that stand beside those over which it is kept.
ghost use Rattle.std.specs.Prelude.{◌≡◌, List, Option, Some, IfOk, IfSome};
ghost use Rattle.std.specs.List.{All};
ghost use Rattle.mq_ir.specs.Keys.{Tuple};
ghost use Rattle.mq_ir.specs.Partitions.{partitions};
ghost use Rattle.mq_ir.specs.Ready.{QueryIsReady};
ghost use Rattle.mq_ir.specs.Unfolding.{model_of};
ghost use Rattle.mq_delta_items.specs.Lines.{lines_of};
ghost use Rattle.mq_delta_parts.specs.Woven.{IsChangeOf};
ghost use Rattle.mq_kept.specs.Beside.{AreItemsOf, HasSameSources, HaveLinesBeside, IsChangeOfLines};
ghost use Rattle.mq_kept.specs.Kept.{AreLinesOver, IsKept, IsRight, inputs_of};
ghost use Rattle.mq_kept.specs.Lent.{with_parts};
ghost use Rattle.mq_kept.specs.Renewed.{MayRenew};
ghost use Rattle.mq_kept.specs.Standing.{IsStanding};

use crate::carrying::MOST_FOLLOWED;
use crate::kept_view::{KeptPart, KeptView};
use crate::lending::{LentPart, lent_parts};
use crate::renewing_lent::renew_lent;
use crate::row_changes::{RowChange, rows_between};
use crate::same_rows::has_same_sources;
use crate::standing::StandingView;
use mq_delta_items::{ItemChange, lines_over, only_table};
use mq_ir::{BoundQuery, FromPart, ItemPart, Model as Lent, ModelPart, Row};
use mq_tables::TableSet;
use mq_values::{MAX_BASE_ROWS, Memory};
use std::alloc::Global;

/// The partitions of a view over other tables, `under`, by what is kept of it over these, `before`: with the lists and the arrays that are
/// kept they are what its query reads of the others (docs/MEANING.md, "Scenarios"). What is kept is lent, and stays as it is. Nothing comes
/// where what is kept is not fresh, or does not serve: where more rows went or came than a view follows at once, a row faults, what a
/// reference or a FOR subquery reads has other rows, a partition came or went, or has a dimension tuple twice. `Memory` is the only error.
pub fn parts_beside<'a, T: TableSet, U: TableSet>(
    alloc: Global,
    before: &T,
    under: &U,
    q: &BoundQuery,
    part: &ModelPart,
    kept: &'a StandingView,
) -> Result<Option<Vec<LentPart<'a>>>, Memory>
    requires ready { QueryIsReady q.now }
    requires model { q.now.model ≡ Some part.now }
    requires standing { IsStanding (T.tables before.now) q.now part.now kept.now }
    ensures { IfOk result (λ found. IfSome found (λ parts. IsKept (U.tables under.now) q.now part.now (with_parts kept.now.view parts.items))) }
{
    if !kept.fresh {
        return Ok(None);
    }
    if !has_same_sources(before, under, part) {
        return Ok(None);
    }
    view_beside(alloc, before, under, q, part, &kept.view)
}

// The same of a view of which the references and FOR subqueries read the same.
fn view_beside<'a, T: TableSet, U: TableSet>(
    alloc: Global,
    before: &T,
    under: &U,
    q: &BoundQuery,
    part: &ModelPart,
    view: &'a KeptView,
) -> Result<Option<Vec<LentPart<'a>>>, Memory>
    requires ready { QueryIsReady q.now }
    requires model { q.now.model ≡ Some part.now }
    requires same { HasSameSources (T.tables before.now) (U.tables under.now) part.now }
    requires kept { IsKept (T.tables before.now) q.now part.now view.now }
    ensures { IfOk result (λ found. IfSome found (λ parts. IsKept (U.tables under.now) q.now part.now (with_parts view.now parts.items))) }
{
    let Some(_lines) = &view.lines else {
        return Ok(None);
    };
    if are_many_unshown(view.parts.as_slice()) {
        return Ok(None);
    }
    let Some(change) = change_beside(alloc, before, under, q)? else {
        return Ok(None);
    };
    let model = Lent {
        part,
        lists: view.lists.as_slice(),
        refs: view.refs.as_slice(),
    };
    renewed_beside(alloc, &model, &change, view.parts.as_slice())
}

/// Whether so many partitions have not made their rows that the workers are to share them.
pub fn are_many_unshown(parts: &[KeptPart]) -> bool {
    let mut left = MOST_FOLLOWED;
    for part in parts {
        if part.shown.is_none() {
            if left == 0 {
                return true;
            }
            left -= 1;
        }
    }
    false
}

// The item rows that went and came between the tables, of a query that takes the rows of one table one by one.
fn change_beside<T: TableSet, U: TableSet>(
    alloc: Global,
    before: &T,
    under: &U,
    q: &BoundQuery,
) -> Result<Option<ItemChange>, Memory>
    ensures { (lines : List (Option Tuple)) → AreLinesOver (T.tables before.now) q.now lines
        → IfOk result (λ found. IfSome found (HaveLinesBeside (U.tables under.now) q.now lines)) }
{
    let Some(table) = only_table(&q.from, &q.items) else {
        return Ok(None);
    };
    let table = table.as_str();
    let Some(old) = before.rows(table) else {
        return Ok(None);
    };
    let Some(new) = under.rows(table) else {
        return Ok(None);
    };
    items_between(alloc, &q.from, &q.items, old, new)
}

// The items of the rows that went and came between two lists. Each row has its line, whichever rows stand beside it.
fn items_between(
    alloc: Global,
    from: &FromPart,
    part: &ItemPart,
    old: &[Row],
    new: &[Row],
) -> Result<Option<ItemChange>, Memory>
    ensures { (lines : List (Option Tuple)) → lines_of from.now part.now old.now ≡ Some lines
        → IfOk result (λ found. IfSome found (IsChangeOfLines from.now part.now new.now lines)) }
{
    if new.len() > MAX_BASE_ROWS {
        return Ok(None);
    }
    let Some(rows) = rows_between(alloc, old, new)? else {
        return Ok(None);
    };
    items_of(alloc, from, part, &rows)
}

/// The items of rows that went, and of those that came, where all have their lines.
pub fn items_of(
    alloc: Global,
    from: &FromPart,
    part: &ItemPart,
    rows: &RowChange,
) -> Result<Option<ItemChange>, Memory>
    ensures { IfOk result (λ found. IfSome found (AreItemsOf from.now part.now rows.now)) }
{
    let Some(gone) = lines_over(alloc, from, part, rows.gone.as_slice())? else {
        return Ok(None);
    };
    let Some(come) = lines_over(alloc, from, part, rows.come.as_slice())? else {
        return Ok(None);
    };
    let gone = gone.items(alloc)?;
    let come = come.items(alloc)?;
    Ok(Some(ItemChange { gone, come }))
}

// The partitions, lent, as a change of the item rows leaves them.
fn renewed_beside<'a>(
    alloc: Global,
    m: &Lent<'_>,
    change: &ItemChange,
    parts: &'a [KeptPart],
) -> Result<Option<Vec<LentPart<'a>>>, Memory>
    requires right { All (IsRight (model_of m.now)) parts.now }
    requires may { MayRenew m.now.part.now change.now (inputs_of parts.now) }
    ensures renewed { (before after : List Tuple) → inputs_of parts.now ≡ partitions m.now.part.now before
        → IsChangeOf before change.now.gone change.now.come after
        → IfOk result (λ found. IfSome found (λ lent. inputs_of lent.items ≡ partitions m.now.part.now after)) }
    ensures right { IfOk result (λ found. IfSome found (λ lent. All (IsRight (model_of m.now)) lent.items)) }
{
    let mut lent = lent_parts(alloc, parts)?;
    if !renew_lent(alloc, m, change, lent.as_mut_slice())? {
        return Ok(None);
    }
    Ok(Some(lent))
}
