//! The rows that the partitions of a view add to its answer.
ghost use Rattle.std.specs.Prelude.{◌≡◌, ◌++◌, [], ◌∷◌, true, is_some, map, Err, IfOk, OnOk};
ghost use Rattle.mq_values.specs.Answers.{Gives};
ghost use Rattle.mq_values.specs.declared.faults.QueryFault.{QueryFault as Seen};
ghost use Rattle.mq_values.specs.declared.memory.Fail.TheVariants as fail;
ghost use Rattle.mq_ir.specs.declared.query.PartResult.TheVariants as result_of;
ghost use Rattle.mq_ir.specs.Answer.{columns_of, result_in, returned};
ghost use Rattle.mq_ir.specs.Unfolding.{model_of};
ghost use Rattle.mq_kept.specs.Kept.{HasValues, IsFound, IsRight, is_settled};
ghost use Rattle.mq_kept.specs.Shown as spec;

use crate::copying::copy_of_fault;
use crate::counting::add_reads;
use crate::kept_view::{KeptPart, PartState, ShapedCells, ShownRows};
use crate::settling::settle;
use mq_auto::stored_result;
use mq_ir::{Model as Lent, ModelPart, OutCell, PartInput, PartResult};
use mq_values::{Fail, Items, Key, Memory, QueryFault, Value};
use std::alloc::Global;

/// Makes the rows that a partition adds to the answer of its view, where that was not done yet: it is run first where that was not
/// done. Or says to which fault its rules come. What is read then of a store that is kept is added to `reads`. What was found of it stays
/// right, also after `Memory`.
pub fn show(
    alloc: Global,
    m: &Lent<'_>,
    part: &mut KeptPart,
    reads: &mut u64,
) -> Result<(), Fail<QueryFault>>
    requires right { IsRight (model_of m.now) part.old }
    ensures shown { OnOk result (is_some part.new.shown ≡ true) }
    ensures fault { (fault : Seen) → result ≡ Err (fail.Cause fault) → result_in (model_of m.now) part.old.input ≡ result_of.Fault fault }
    ensures right { IsRight (model_of m.now) part.new }
    ensures same_input { part.new.input ≡ part.old.input }
{
    if part.shown.is_some() {
        return Ok(());
    }
    settle(alloc, m, part)?;
    let rows = rows_of_settled(alloc, m, &part.input, &mut part.state, reads)?;
    part.shown = Some(rows);
    Ok(())
}

// The rows of a partition that was run, or the fault to which its rules came. A store counts what is read of it.
fn rows_of_settled(
    alloc: Global,
    m: &Lent<'_>,
    p: &PartInput,
    state: &mut PartState,
    reads: &mut u64,
) -> Result<ShownRows, Fail<QueryFault>>
    requires settled { is_settled state.old ≡ true }
    requires found { IsFound (model_of m.now) p.now state.old }
    ensures exact { Gives result (spec.rows_of_input (model_of m.now) p.now) }
    ensures found { IsFound (model_of m.now) p.now state.new }
{
    match state {
        PartState::NotKept => unreachable!(),
        PartState::Automatic(kept) => rows_of_values(alloc, m, p, kept, reads),
        PartState::Made(made) => rows_of_result(alloc, m.part, &p.key, made),
    }
}

// The rows of the values that stand in a store.
fn rows_of_values(
    alloc: Global,
    m: &Lent<'_>,
    p: &PartInput,
    kept: &mut ShapedCells,
    reads: &mut u64,
) -> Result<ShownRows, Fail<QueryFault>>
    requires { HasValues (model_of m.now) p.now kept.old }
    ensures exact { Gives result (spec.rows_of_input (model_of m.now) p.now) }
    ensures same { HasValues (model_of m.now) p.now kept.new }
{
    let made = made_of_values(alloc, m, p, kept, reads)?;
    rows_of_result(alloc, m.part, &p.key, &made)
}

// What the values that stand in a store come to.
fn made_of_values(
    alloc: Global,
    m: &Lent<'_>,
    p: &PartInput,
    kept: &mut ShapedCells,
    reads: &mut u64,
) -> Result<PartResult, Memory>
    requires { HasValues (model_of m.now) p.now kept.old }
    ensures exact { IfOk result (λ r. r ≡ result_in (model_of m.now) p.now) }
    ensures same { HasValues (model_of m.now) p.now kept.new }
{
    let looks = kept.cells.looks();
    let made = stored_result(alloc, m, p, &kept.shape.found.shape, &mut kept.cells);
    add_reads(looks, &kept.cells, reads);
    made
}

// The rows of what was made, or its fault.
fn rows_of_result(
    alloc: Global,
    part: &ModelPart,
    key: &Key,
    made: &PartResult,
) -> Result<ShownRows, Fail<QueryFault>>
    ensures { Gives result (spec.rows_of_result part.now key.now made.now) }
{
    match made {
        PartResult::Rows(cells) => Ok(rows_of_cells(alloc, part, key, cells.as_slice())?),
        PartResult::Fault(fault) => Err(Fail::Cause(copy_of_fault(fault)?)),
    }
}

// The rows of these cells: all are counted, and those that are returned have a row.
fn rows_of_cells(
    alloc: Global,
    part: &ModelPart,
    key: &Key,
    cells: &[OutCell],
) -> Result<ShownRows, Memory>
    ensures { IfOk result (λ shown. shown ≡ spec.rows_of_cells part.now key.now cells.now) }
{
    let mut rows = room_for(alloc, part, cells.len());
    for cell in cells {
        add_row(alloc, part, key, cell, &mut rows)?;
    }
    Ok(ShownRows {
        count: cells.len(),
        rows,
    })
}

// Room for the rows of so many cells, where each has one.
fn room_for(alloc: Global, part: &ModelPart, count: usize) -> Items<Key>
    ensures { result ≡ [] }
{
    if part.updated_only {
        return Items::new(alloc);
    }
    Items::with_room(alloc, count)
}

// The row of a cell behind others, where the cell is returned.
fn add_row(
    alloc: Global,
    part: &ModelPart,
    key: &Key,
    cell: &OutCell,
    rows: &mut Items<Key>,
) -> Result<(), Memory>
    ensures { OnOk result (rows.new ≡ rows.old ++ map (columns_of key.now) (returned part.now (cell.now ∷ []))) }
{
    if part.updated_only && !cell.updated {
        return Ok(());
    }
    rows.push(row_of(alloc, key, cell)?)
}

// The row of a cell of the partition with this key.
fn row_of(alloc: Global, key: &Key, cell: &OutCell) -> Result<Key, Memory>
    ensures { IfOk result (λ row. row ≡ columns_of key.now cell.now) }
{
    let columns = key.as_slice();
    let dims = cell.key.as_slice();
    let measures = cell.measures.as_slice();
    let mut values = Items::with_room(alloc, columns.len() + dims.len() + measures.len());
    add_values(columns, &mut values)?;
    add_values(dims, &mut values)?;
    add_values(measures, &mut values)?;
    Key::new(alloc, values)
}

// These values behind others. A text is shared.
fn add_values(more: &[Value], values: &mut Items<Value>) -> Result<(), Memory>
    ensures { OnOk result (values.new ≡ values.old ++ more.now) }
{
    for value in more {
        values.push(value.copy()?)?;
    }
    Ok(())
}
