//! A view that is kept, right after a change of a table.
ghost use Rattle.std.specs.Prelude.{◌≡◌, List, Option, Some, true, false, IfOk, IfSome};
ghost use Rattle.std.specs.List.{All, list_any};
ghost use Rattle.mq_ir.specs.Keys.{Tuple};
ghost use Rattle.mq_ir.specs.Partitions.{partitions};
ghost use Rattle.mq_ir.specs.Ready.{QueryIsReady};
ghost use Rattle.mq_ir.specs.Statement.{tables_of_model};
ghost use Rattle.mq_ir.specs.Tables.{is_name, rows_of};
ghost use Rattle.mq_ir.specs.Unfolding.{model_of};
ghost use Rattle.mq_delta_items.specs.Lines.{items_in, lines_of};
ghost use Rattle.mq_delta_items.specs.Touching.{IsTouchedBy};
ghost use Rattle.mq_delta_parts.specs.Woven.{IsChangeOf};
ghost use Rattle.mq_kept.specs.Kept.{IsRight, inputs_of};
ghost use Rattle.mq_kept.specs.Renewed.{MayRenew};
ghost use Rattle.mq_kept.specs.Standing.{IsStanding, StoodBefore, WasKept};

use crate::kept_view::{KeptPart, KeptView};
use crate::reading::{part_reads, query_reads};
use crate::renewing::renew_parts;
use crate::standing::StandingView;
use mq_delta_items::{ItemChange, RowLines, lines_after};
use mq_ir::{BoundQuery, Model as Lent, ModelPart};
use mq_tables::{TableSet, Touched};
use mq_values::{Items, Memory};
use std::alloc::Global;

/// So many rows a change may touch at most that a view follows at once. After a greater one it is brought to the tables when it is
/// asked for, where workers share what is to be run.
pub const MOST_FOLLOWED: usize = 1000;

/// What is kept of a view after a change of the table of this name: `tables` are the tables as they stand now, `touched` is what the
/// change touched (docs/MEANING.md, "Kept views"). A view that doesn't read the table stays as it is. One whose query takes the rows
/// of that table one by one follows by the touched rows: their items, the inputs of their partitions, the cells that depend on them.
/// Any other is no longer fresh. What is read of the stores of partitions is added to `reads`. `Memory` is the only error.
pub fn carried<T: TableSet>(
    alloc: Global,
    tables: &T,
    q: &BoundQuery,
    part: &ModelPart,
    table: &str,
    touched: &Touched,
    old: StandingView,
    reads: &mut u64,
) -> Result<StandingView, Memory>
    requires ready { QueryIsReady q.now }
    requires model { q.now.model ≡ Some part.now }
    requires stood { StoodBefore touched.now table.now (T.tables tables.now) q.now part.now old }
    ensures { IfOk result (IsStanding (T.tables tables.now) q.now part.now) }
{
    if !old.fresh {
        return Ok(old);
    }
    if !query_reads(q, table) {
        return Ok(old);
    }
    if part_reads(part, table) {
        return Ok(passed_over(old.view));
    }
    if touched.count() > MOST_FOLLOWED {
        return Ok(passed_over(old.view));
    }
    carried_by_row(alloc, tables, q, part, table, touched, old.view, reads)
}

// A view that is to be brought to the tables when it is asked for.
fn passed_over(view: KeptView) -> StandingView
    ensures { result ≡ record { view = view; fresh = false } }
{
    StandingView { view, fresh: false }
}

// The same of a view of which the FROM alone reads the table.
fn carried_by_row<T: TableSet>(
    alloc: Global,
    tables: &T,
    q: &BoundQuery,
    part: &ModelPart,
    table: &str,
    touched: &Touched,
    old: KeptView,
    reads: &mut u64,
) -> Result<StandingView, Memory>
    requires ready { QueryIsReady q.now }
    requires model { q.now.model ≡ Some part.now }
    requires from { list_any (is_name table.now) q.now.from.tables ≡ true }
    requires apart { list_any (is_name table.now) (tables_of_model part.now) ≡ false }
    requires kept { WasKept touched.now table.now (T.tables tables.now) q.now part.now old }
    ensures { IfOk result (IsStanding (T.tables tables.now) q.now part.now) }
{
    let KeptView {
        lists,
        refs,
        parts,
        lines,
    } = old;
    let Some(lines) = lines else {
        return Ok(passed_over(KeptView {
            lists,
            refs,
            parts,
            lines: None,
        }));
    };
    let Some(followed) = followed_lines(alloc, tables, q, table, touched, lines)? else {
        return Ok(passed_over(KeptView {
            lists,
            refs,
            parts,
            lines: None,
        }));
    };
    let FollowedLines { lines, change } = followed;
    let model = Lent {
        part,
        lists: lists.as_slice(),
        refs: refs.as_slice(),
    };
    let (parts, fresh) = renewed(alloc, &model, &change, parts, reads)?;
    Ok(StandingView {
        view: KeptView {
            lists,
            refs,
            parts,
            lines: Some(lines),
        },
        fresh,
    })
}

// The partitions with the inputs that they have after a change of the item rows, and whether all have them (`renew_parts`).
fn renewed(
    alloc: Global,
    m: &Lent<'_>,
    change: &ItemChange,
    parts: Items<KeptPart>,
    reads: &mut u64,
) -> Result<(Items<KeptPart>, bool), Memory>
    requires right { All (IsRight (model_of m.now)) parts }
    requires may { MayRenew m.now.part.now change.now (inputs_of parts) }
    ensures renewed { (before after : List Tuple) → inputs_of parts ≡ partitions m.now.part.now before
        → IsChangeOf before change.now.gone change.now.come after
        → IfOk result (λ r. r.1 ≡ true → inputs_of r.0 ≡ partitions m.now.part.now after) }
    ensures right { IfOk result (λ r. All (IsRight (model_of m.now)) r.0) }
{
    let mut parts = parts.into_vec();
    let fresh = renew_parts(alloc, m, change, parts.as_mut_slice(), reads)?;
    Ok((Items::from_vec(parts), fresh))
}

// The lines of the rows as they stand now, and the items that went and came.
#[derive(Drop)]
struct FollowedLines {
    lines: RowLines,
    change: ItemChange,
}

// The lines of the rows of a table after a change of it, where they have lines.
fn followed_lines<T: TableSet>(
    alloc: Global,
    tables: &T,
    q: &BoundQuery,
    table: &str,
    touched: &Touched,
    lines: RowLines,
) -> Result<Option<FollowedLines>, Memory>
    ensures { (before : List Tuple) → IsTouchedBy touched.now before (rows_of (T.tables tables.now) table.now)
        → lines_of q.now.from q.now.items before ≡ Some lines
        → IfOk result (λ found. IfSome found (λ f.
        (lines_of q.now.from q.now.items (rows_of (T.tables tables.now) table.now) ≡ Some f.lines)
        × IsChangeOf (items_in lines) f.change.gone f.change.come (items_in f.lines))) }
{
    let Some(rows) = tables.rows(table) else {
        return Ok(None);
    };
    let mut lines = lines;
    let found = lines_after(alloc, &q.from, &q.items, touched, rows, &mut lines)?;
    Ok(with_change(lines, found))
}

// Lines with what went and came, where it is there.
fn with_change(lines: RowLines, found: Option<ItemChange>) -> Option<FollowedLines>
    ensures { IfSome result (λ f. (f.lines ≡ lines) × (found ≡ Some f.change)) }
{
    let change = found?;
    Some(FollowedLines { lines, change })
}
