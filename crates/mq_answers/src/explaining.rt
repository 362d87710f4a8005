//! Where the value of a measure of a cell of a query comes from.
ghost use Rattle.std.specs.Prelude.{◌≡◌, [], Ok, Some, IfOk};
ghost use Rattle.std.specs.List.{All, find};
ghost use Rattle.std.specs.Option.{option_copied};
ghost use Rattle.mq_values.specs.Answers.{Gives};
ghost use Rattle.mq_ir.specs.Automatic.{shape_found};
ghost use Rattle.mq_ir.specs.Derivations.{AreAccepted, derivation};
ghost use Rattle.mq_ir.specs.Explaining as spec;
ghost use Rattle.mq_ir.specs.Keys.{is_among, is_same};
ghost use Rattle.mq_ir.specs.Ready.{IsReady, QueryIsReady};
ghost use Rattle.mq_ir.specs.Unfolding.{model_of};
ghost use Rattle.mq_auto.specs.Meaning.{HoldsValues};
ghost use Rattle.mq_answers.specs.Explained as explained;
ghost use Rattle.mq_answers.specs.Models.{MayRun};

use crate::models::{arrays_over, inputs_of};
use mq_auto::{Verdict, compute};
use mq_cells::{Cells, IndexedCells};
use mq_ir::{
    BoundQuery, CellName, Derivation, Explained, Model as Lent, ModelPart, PartInput, PartShape,
};
use mq_lineage::{check, derive};
use mq_sources::{items_over, lists_over};
use mq_tables::TableSet;
use mq_values::{Fail, Items, Key, Memory, QueryFault};
use std::alloc::Global;

/// The steps of which a measure of a cell of a query comes, whose partition has this key, over these tables; or the fault for
/// which there are none, or that the partition or the cell is not there (docs/MEANING.md, "Derivations"). `Memory` is
/// the only error.
pub fn explained_over<T: TableSet>(
    alloc: Global,
    tables: &T,
    q: &BoundQuery,
    part: &ModelPart,
    key: &Key,
    cell: &CellName,
) -> Result<Explained, Memory>
    requires ready { QueryIsReady q.now }
    requires model { q.now.model ≡ Some part.now }
    ensures { IfOk result (λ e. e ≡ spec.explained_over (T.tables tables.now) q.now part.now key.now cell.now) }
{
    match explained_with(alloc, tables, q, part, key, cell) {
        Ok(explained) => Ok(explained),
        Err(Fail::Cause(fault)) => Ok(Explained::Fault(fault)),
        Err(Fail::Memory) => Err(Memory),
    }
}

// The same, where a fault of the rows, the references or the FOR subqueries is set apart.
fn explained_with<T: TableSet>(
    alloc: Global,
    tables: &T,
    q: &BoundQuery,
    part: &ModelPart,
    key: &Key,
    cell: &CellName,
) -> Result<Explained, Fail<QueryFault>>
    requires ready { QueryIsReady q.now }
    requires model { q.now.model ≡ Some part.now }
    ensures { Gives result (explained.explained_with (T.tables tables.now) q.now part.now key.now cell.now) }
{
    let items = items_over(alloc, tables, &q.from, &q.items)?;
    explained_items(alloc, tables, items, part, key, cell)
}

// The same over the items of the query.
fn explained_items<T: TableSet>(
    alloc: Global,
    tables: &T,
    items: Items<Key>,
    part: &ModelPart,
    key: &Key,
    cell: &CellName,
) -> Result<Explained, Fail<QueryFault>>
    requires { MayRun part.now items }
    ensures { Gives result (explained.explained_items (T.tables tables.now) items part.now key.now cell.now) }
{
    let refs = arrays_over(alloc, tables, part)?;
    let lists = lists_over(alloc, tables, part)?;
    let model = Lent {
        part,
        lists: lists.as_slice(),
        refs: refs.as_slice(),
    };
    let inputs = inputs_of(alloc, part, items)?;
    Ok(explained_among(alloc, &model, &inputs, key, cell)?)
}

// In the partition with this key among these, where there is one.
fn explained_among(
    alloc: Global,
    m: &Lent<'_>,
    inputs: &Items<PartInput>,
    key: &Key,
    cell: &CellName,
) -> Result<Explained, Memory>
    requires { All (IsReady m.now.part.now) inputs.now }
    ensures { IfOk result (λ e. e ≡ explained.explained_among (model_of m.now) inputs.now key.now cell.now) }
{
    match partition_at(inputs.as_slice(), key) {
        Some(p) => explained_in(alloc, m, p, cell),
        None => Ok(Explained::NoPartition),
    }
}

// The partition with this key.
fn partition_at<'a>(inputs: &'a [PartInput], key: &Key) -> Option<&'a PartInput>
    ensures { option_copied result ≡ find (λ p. is_same key.now p.key) inputs.now }
{
    inputs.iter().find(|p| key.cmp(&p.key).is_eq())
}

/// The same in one partition, which is computed: faults of others play no part.
pub fn explained_in(
    alloc: Global,
    m: &Lent<'_>,
    p: &PartInput,
    cell: &CellName,
) -> Result<Explained, Memory>
    requires { IsReady m.now.part.now p.now }
    ensures { IfOk result (λ e. e ≡ spec.explained_in (model_of m.now) cell.now p.now) }
{
    let mut cells = IndexedCells::new(alloc, p)?;
    match compute(alloc, m, p, &mut cells)? {
        Verdict::Done(shape) => {
            if !is_cell(&shape, &cell.key) {
                return Ok(Explained::NoCell);
            }
            let steps = steps_of(alloc, m, p, &shape, cell, &mut cells)?;
            Ok(Explained::Steps(steps))
        }
        Verdict::Broken(fault) => Ok(Explained::Fault(fault)),
    }
}

/// Whether a cell is there in the end.
pub fn is_cell(shape: &PartShape, key: &Key) -> bool
    ensures { result ≡ is_among shape.now.cells key.now }
{
    shape
        .cells
        .as_slice()
        .iter()
        .any(|other| key.cmp(other).is_eq())
}

// The steps that come of what was computed.
fn steps_of<C: Cells>(
    alloc: Global,
    m: &Lent<'_>,
    p: &PartInput,
    shape: &PartShape,
    cell: &CellName,
    cells: &mut C,
) -> Result<Derivation, Memory>
    requires ready { IsReady m.now.part.now p.now }
    requires shape { shape_found (model_of m.now) p.now ≡ Ok shape.now }
    requires values { HoldsValues (model_of m.now) shape.now p.now.cells (C.input cells.old) (C.results cells.old) }
    ensures { IfOk result (λ d. d.steps ≡ derivation (model_of m.now) shape.now p.now.cells cell.now) }
{
    let steps = derive(alloc, m, shape, cells, cell)?;
    accepted(alloc, m, p, shape, steps)
}

/// These steps of a partition, of which `check` is asked once more before they are handed out.
pub fn accepted(
    alloc: Global,
    m: &Lent<'_>,
    p: &PartInput,
    shape: &PartShape,
    steps: Derivation,
) -> Result<Derivation, Memory>
    requires { AreAccepted (model_of m.now) shape.now p.now.cells [] steps.steps }
    ensures { IfOk result (λ d. d ≡ steps) }
{
    if check(alloc, m, p, shape, &steps)? {
        Ok(steps)
    } else {
        unreachable!()
    }
}
