//! What is gathered of partitions, one after another.
ghost use Rattle.std.specs.Prelude.{◌≡◌, ◌++◌, [], List, IfOk, OnOk};
ghost use Rattle.mq_values.specs.Answers.{Gives};
ghost use Rattle.mq_values.specs.declared.faults.FaultKind.TheVariants as kind;
ghost use Rattle.mq_ir.specs.declared.query.OutCell.{OutCell as Seen};
ghost use Rattle.mq_ir.specs.Answer as spec;
ghost use Rattle.mq_ir.specs.Placed.{at_partition, placed_fault};
ghost use Rattle.mq_ir.specs.Unfolding.{Model as Meant, model_of};
ghost use Rattle.mq_kept.specs.Shown.{rows_of_cells};

use crate::model_rows::ModelRow;
use mq_ir::{Model as Lent, OutCell, PlacedFault};
use mq_kept::ShownRows;
use mq_values::{Fail, FaultKind, Items, Key, MAX_CELLS_OF_QUERY, Memory, QueryFault};
use std::alloc::Global;
use std::marker::Model;

/// How many cells there were so far, and the rows so far.
#[derive(Drop)]
pub struct Gathered {
    count: usize,
    pub rows: Vec<ModelRow>,
}

impl Model for Gathered {
    ghost use Rattle.std.specs.Prelude.{◌≤◌};
    ghost use Rattle.mq_values.specs.declared.limits.TheConstants.{MAX_CELLS_OF_QUERY};
    ghost use Rattle.mq_ir.specs.Answer.{Gathered as Seen};

    ghost Value = { Seen };

    ghost view = { λ g. (g.count, g.rows.items) };

    ghost invariant = { λ g. g.count ≤ MAX_CELLS_OF_QUERY };
}

impl Gathered {
    /// Nothing yet. It takes no memory.
    pub fn new(alloc: Global) -> Gathered
        ensures { result ≡ (0, []) }
    {
        Gathered {
            count: 0,
            rows: Vec::new(alloc),
        }
    }
}

/// How many cells there were so far of kept partitions, and the rows so far, which they keep too.
#[derive(Drop)]
pub struct KeptRows {
    count: usize,
    pub rows: Vec<Key>,
}

impl Model for KeptRows {
    ghost use Rattle.std.specs.Prelude.{◌≤◌};
    ghost use Rattle.mq_values.specs.declared.limits.TheConstants.{MAX_CELLS_OF_QUERY};
    ghost use Rattle.mq_ir.specs.Answer.{Gathered as Seen};

    ghost Value = { Seen };

    ghost view = { λ g. (g.count, g.rows.items) };

    ghost invariant = { λ g. g.count ≤ MAX_CELLS_OF_QUERY };
}

impl KeptRows {
    /// Nothing yet. It takes no memory.
    pub fn new(alloc: Global) -> KeptRows
        ensures { result ≡ (0, []) }
    {
        KeptRows {
            count: 0,
            rows: Vec::new(alloc),
        }
    }
}

/// The cells of a partition behind what is gathered: they are counted, whether they are returned or not.
pub fn with_cells(
    m: &Lent<'_>,
    key: &Key,
    gathered: Gathered,
    cells: Items<OutCell>,
) -> Result<Gathered, Fail<QueryFault>>
    ensures { Gives result (spec.with_cells (model_of m.now) key.now gathered cells) }
{
    let Gathered { count, mut rows } = gathered;
    if cells.len() > MAX_CELLS_OF_QUERY - count {
        return Err(Fail::Cause(too_many(key)?));
    }
    let count = count + cells.len();
    for cell in cells.into_vec() {
        if !m.part.updated_only || cell.updated {
            rows.push(ModelRow::new(key, cell)?)?;
        }
    }
    Ok(Gathered { count, rows })
}

/// The rows that a kept partition adds behind what is gathered: its cells are counted, whether they are returned or not.
pub fn with_shown(
    key: &Key,
    gathered: KeptRows,
    shown: &ShownRows,
) -> Result<KeptRows, Fail<QueryFault>>
    ensures { (model : Meant) (cells : List Seen) → shown.now ≡ rows_of_cells model.part key.now cells
        → Gives result (spec.with_cells model key.now gathered cells) }
{
    let KeptRows { count, mut rows } = gathered;
    if shown.count > MAX_CELLS_OF_QUERY - count {
        return Err(Fail::Cause(too_many(key)?));
    }
    add_rows(shown.rows.as_slice(), &mut rows)?;
    Ok(KeptRows {
        count: count + shown.count,
        rows,
    })
}

// The fault of the partition in which the cells of a query become too many.
fn too_many(key: &Key) -> Result<QueryFault, Memory>
    ensures { IfOk result (λ fault. fault ≡ at_partition key.now (placed_fault 0 [] kind.TooManyCells)) }
{
    let fault = PlacedFault::new(0, Key::empty(), FaultKind::TooManyCells);
    Ok(fault.at_partition(key.copy()?))
}

// These rows behind others. They are shared.
fn add_rows(more: &[Key], rows: &mut Vec<Key>) -> Result<(), Memory>
    ensures { OnOk result (rows.new.items ≡ rows.old.items ++ more.now) }
{
    for row in more {
        rows.push(row.copy()?)?;
    }
    Ok(())
}
