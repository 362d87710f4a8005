//! The limits on rows and values.
ghost use Rattle.std.specs.Prelude.{◌≡◌, ◌*◌, length, Ok};
ghost use Rattle.mq_values.specs.Answers.{Gives};
ghost use Rattle.mq_ir.specs.Changes as spec;
ghost use Rattle.mq_ir.specs.Statement.{unless_refused};
ghost use Rattle.mq_tables.specs.Pending.{with_held, with_pending};
ghost use Rattle.mq_tables.specs.Sizes.{capped};

use crate::pending::Pending;
use crate::table::Table;
use mq_ir::{Change, LIMIT_OF_ROWS, LIMIT_OF_VALUES};
use mq_values::{Fail, MAX_ROWS, MAX_VALUES, Refused};

/// Refuses a change that adds so many rows to a table, where a limit would be passed.
pub fn judge_size(tables: &[Table], table: &Table, added: usize) -> Result<(), Fail<Refused>>
    ensures { Gives result (unless_refused (spec.size_fault tables.now table.now added) (Ok tt)) }
{
    if table.rows().len().saturating_add(added) > MAX_ROWS {
        return Err(Fail::Cause(Refused::Limit(LIMIT_OF_ROWS)));
    }
    let more = added.saturating_mul(table.schema().cols.len());
    if value_count(tables).saturating_add(more) > MAX_VALUES {
        return Err(Fail::Cause(Refused::Limit(LIMIT_OF_VALUES)));
    }
    Ok(())
}

/// The same where held changes are pending: of the rows as these leave them.
pub fn judge_pending_size(
    tables: &[Table],
    pending: &Pending,
    table: &Table,
    added: usize,
) -> Result<(), Fail<Refused>>
    ensures { Gives result (unless_refused (spec.size_fault (with_pending tables.now pending.now) (with_held pending.now table.now) added) (Ok tt)) }
{
    if pending.rows_of(table).len().saturating_add(added) > MAX_ROWS {
        return Err(Fail::Cause(Refused::Limit(LIMIT_OF_ROWS)));
    }
    let more = added.saturating_mul(table.schema().cols.len());
    if pending_value_count(tables, pending).saturating_add(more) > MAX_VALUES {
        return Err(Fail::Cause(Refused::Limit(LIMIT_OF_VALUES)));
    }
    Ok(())
}

fn pending_value_count(tables: &[Table], pending: &Pending) -> usize
    ensures { result ≡ capped (spec.value_count (with_pending tables.now pending.now)) }
{
    let mut count: usize = 0;
    'tables: for table in tables {
        let values = pending
            .rows_of(table)
            .len()
            .saturating_mul(table.schema().cols.len());
        count = count.saturating_add(values);
    }
    count
}

// The values of all tables: rows times columns.
fn value_count(tables: &[Table]) -> usize
    ensures { result ≡ capped (spec.value_count tables.now) }
{
    let mut count: usize = 0;
    'tables: for table in tables {
        count = count.saturating_add(values_of(table));
    }
    count
}

fn values_of(table: &Table) -> usize
    ensures { result ≡ capped (length table.now.rows * length table.now.schema.cols) }
{
    table.rows().len().saturating_mul(table.schema().cols.len())
}

/// How many rows a change adds before any of them is looked at.
pub fn rows_added(c: &Change) -> usize
    ensures { result ≡ spec.rows_added c.now }
{
    match c {
        Change::Insert { rows, .. } => rows.len(),
        Change::Append { rows, .. } => rows.len(),
        Change::Update { .. } => 0,
        Change::Delete { .. } => 0,
    }
}
