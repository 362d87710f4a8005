//! What a query answers over tables.
ghost use Rattle.std.specs.Prelude.{◌≡◌, IfOk};
ghost use Rattle.mq_values.specs.Answers.{Gives, result_map};
ghost use Rattle.mq_ir.specs.Answer as spec;
ghost use Rattle.mq_ir.specs.Printing as printing;
ghost use Rattle.mq_ir.specs.Ready.{QueryIsReady};
ghost use Rattle.mq_answers.specs.Models.{MayRun};
ghost use Rattle.mq_answers.specs.Queries.{rows_shown};

use crate::models::model_rows;
use crate::printing::{printed_keys, printed_rows};
use crate::workers::Crew;
use mq_io::Gate;
use mq_ir::{Answer, BoundQuery, ModelPart};
use mq_sources::items_over;
use mq_tables::TableSet;
use mq_values::{Fail, Items, Key, Memory, QueryFault};
use std::alloc::Global;
use std::thread::Threads;

/// What a query answers over these tables: its rows as they are printed, or its first fault (docs/MEANING.md, "Answers").
/// Its partitions are shared by the crew, which no answer tells. `Memory` is the only error.
pub fn answer_over<R: Threads + Sync, T: TableSet, G: Gate>(
    crew: &Crew<'_, '_, R, G>,
    alloc: Global,
    tables: &T,
    q: &BoundQuery,
) -> Result<Answer, Memory>
    requires ready { QueryIsReady q.now }
    ensures { IfOk result (λ a. a ≡ spec.answer_of (T.tables tables.now) q.now) }
{
    match rows_over(crew, alloc, tables, q) {
        Ok(rows) => Ok(Answer::Rows(rows)),
        Err(Fail::Cause(fault)) => Ok(Answer::Fault(fault)),
        Err(Fail::Memory) => Err(Memory),
    }
}

// The rows of a query as they are printed, or its first fault.
fn rows_over<R: Threads + Sync, T: TableSet, G: Gate>(
    crew: &Crew<'_, '_, R, G>,
    alloc: Global,
    tables: &T,
    q: &BoundQuery,
) -> Result<Items<Key>, Fail<QueryFault>>
    requires ready { QueryIsReady q.now }
    ensures { Gives result (rows_shown (T.tables tables.now) q.now) }
{
    let items = items_over(alloc, tables, &q.from, &q.items)?;
    match &q.model {
        Some(part) => shown_cells(crew, alloc, tables, q, part, items),
        None => Ok(printed_keys(alloc, q, items.into_vec())?),
    }
}

// The rows of the cells that a model leaves, as they are printed.
fn shown_cells<R: Threads + Sync, T: TableSet, G: Gate>(
    crew: &Crew<'_, '_, R, G>,
    alloc: Global,
    tables: &T,
    q: &BoundQuery,
    part: &ModelPart,
    items: Items<Key>,
) -> Result<Items<Key>, Fail<QueryFault>>
    requires may_run { MayRun part.now items }
    ensures { Gives result (result_map (printing.printed_rows q.now) (spec.model_rows (T.tables tables.now) items part.now)) }
{
    let rows = model_rows(crew, alloc, tables, items, part)?;
    Ok(printed_rows(alloc, q, rows)?)
}
