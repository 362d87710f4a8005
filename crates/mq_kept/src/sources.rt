//! What a query with MODEL reads of tables: the inputs of its partitions, its FOR subqueries and its references.
ghost use Rattle.std.specs.Prelude.{◌≡◌, [], Some, IfOk, IfSome};
ghost use Rattle.std.specs.List.{All};
ghost use Rattle.mq_values.specs.Answers.{Gives, result_map};
ghost use Rattle.mq_ir.specs.Items as spec;
ghost use Rattle.mq_ir.specs.Placed.{at_partition, plain_fault};
ghost use Rattle.mq_ir.specs.Ready.{HaveLength, IsReady, LeftsHavePlaces, QueryIsReady, width_of};
ghost use Rattle.mq_ir.specs.References.{reference_over};
ghost use Rattle.mq_ir.specs.Results.{each, marked};
ghost use Rattle.mq_sources.specs.References.{cells_of_arrays};
ghost use Rattle.mq_kept.specs.Kept.{AreLinesOver, read_over};
ghost use Rattle.mq_kept.specs.Sources.{found_in, read_with};

use mq_delta_items::{RowLines, lines_over, only_table};
use mq_ir::{BoundQuery, ModelPart, PartInput, RefArray};
use mq_shape::partitions;
use mq_sources::{items_over, lists_over, references_over};
use mq_tables::TableSet;
use mq_values::{Fail, Items, Key, Memory, QueryFault};
use std::alloc::Global;

/// What a query with MODEL reads of tables; and, where it takes the rows of one table, what it makes of each of them.
#[derive(Drop)]
pub struct Sources {
    pub inputs: Items<PartInput>,
    pub lists: Items<Items<Key>>,
    pub refs: Items<RefArray>,
    pub lines: Option<RowLines>,
}

/// What a query reads of these tables, or its first fault: its items come first, then its references, then its FOR subqueries
/// (docs/MEANING.md, "Answers"). The rules may run over each partition.
pub fn sources_over<T: TableSet>(
    alloc: Global,
    tables: &T,
    q: &BoundQuery,
    part: &ModelPart,
) -> Result<Sources, Fail<QueryFault>>
    requires ready { QueryIsReady q.now }
    requires model { q.now.model ≡ Some part.now }
    ensures exact { Gives (result_map (found_in part.now) result) (read_over (T.tables tables.now) q.now part.now) }
    ensures ready { IfOk result (λ found. All (IsReady part.now) found.inputs) }
    ensures lines { IfOk result (λ found. IfSome found.lines (AreLinesOver (T.tables tables.now) q.now)) }
{
    let read = items_read(alloc, tables, q)?;
    sources_with(alloc, tables, q, part, read)
}

// The items of a query; and, where it takes the rows of one table, what it makes of each of them.
#[derive(Drop)]
struct ItemsRead {
    items: Items<Key>,
    lines: Option<RowLines>,
}

// The items that a query reads of tables, or its first fault.
fn items_read<T: TableSet>(
    alloc: Global,
    tables: &T,
    q: &BoundQuery,
) -> Result<ItemsRead, Fail<QueryFault>>
    ensures exact { Gives (result_map (λ read. read.items) result)
        (marked (plain_fault 0) (spec.items_over (T.tables tables.now) q.now.from q.now.items)) }
    ensures lines { IfOk result (λ read. IfSome read.lines (AreLinesOver (T.tables tables.now) q.now)) }
{
    match lines_read(alloc, tables, q)? {
        Some(lines) => {
            let items = lines.items(alloc)?;
            Ok(ItemsRead {
                items,
                lines: Some(lines),
            })
        }
        None => {
            let items = items_over(alloc, tables, &q.from, &q.items)?;
            Ok(ItemsRead { items, lines: None })
        }
    }
}

// What a query makes of each row of its table, where it takes the rows of one table and none faults.
fn lines_read<T: TableSet>(
    alloc: Global,
    tables: &T,
    q: &BoundQuery,
) -> Result<Option<RowLines>, Memory>
    ensures { IfOk result (λ found. IfSome found (AreLinesOver (T.tables tables.now) q.now)) }
{
    let Some(name) = only_table(&q.from, &q.items) else {
        return Ok(None);
    };
    match tables.rows(name.as_str()) {
        Some(rows) => lines_over(alloc, &q.from, &q.items, rows),
        None => Ok(None),
    }
}

// The same over the items of the query, which are let go once their values stand in the cells.
fn sources_with<T: TableSet>(
    alloc: Global,
    tables: &T,
    q: &BoundQuery,
    part: &ModelPart,
    read: ItemsRead,
) -> Result<Sources, Fail<QueryFault>>
    requires lefts { LeftsHavePlaces part.now }
    requires wide { HaveLength (width_of part.now) read.items }
    requires lines { IfSome read.lines (AreLinesOver (T.tables tables.now) q.now) }
    ensures exact { Gives (result_map (found_in part.now) result) (read_with (T.tables tables.now) read.items part.now) }
    ensures ready { IfOk result (λ found. All (IsReady part.now) found.inputs) }
    ensures lines { IfOk result (λ found. IfSome found.lines (AreLinesOver (T.tables tables.now) q.now)) }
{
    let ItemsRead { items, lines } = read;
    let refs = arrays_over(alloc, tables, part)?;
    let lists = lists_over(alloc, tables, part)?;
    let inputs = partitions(alloc, part, items.as_slice())?;
    Ok(Sources {
        inputs,
        lists,
        refs,
        lines,
    })
}

// The arrays of the references, or the first fault of one of them.
fn arrays_over<T: TableSet>(
    alloc: Global,
    tables: &T,
    part: &ModelPart,
) -> Result<Items<RefArray>, Fail<QueryFault>>
    ensures { Gives (result_map cells_of_arrays result)
        (marked (at_partition []) (each (reference_over (T.tables tables.now)) part.now.refs)) }
{
    references_over(alloc, tables, part.refs.as_slice())
}
