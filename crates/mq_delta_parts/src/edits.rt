//! Edits of cells: the rows that went and came, by their dimension tuples.
ghost use Rattle.std.specs.Prelude.{◌≡◌, ◌++◌, map, IfOk, OnOk};
ghost use Rattle.mq_ir.specs.Partitions.{ascending as spec_ascending};
ghost use Rattle.mq_shape.specs.Runs.{cut_row};
ghost use Rattle.mq_delta_parts.specs.Edits.{by_tuple, coming, edits_of as spec_edits_of, going};

use crate::cuts::{measures_of, tuple_of};
use mq_ir::ModelPart;
use mq_values::{Key, Memory};
use std::alloc::Global;

/// The dimension tuple of a row, with its measures where the row came.
pub type Edit = (Key, Option<Key>);

/// The edits of rows that went and came, ascending by their tuples; of one tuple those that went stand first. `Memory` is the only error.
pub fn edits_of(
    alloc: Global,
    part: &ModelPart,
    gone: &[Key],
    come: &[Key],
) -> Result<Vec<Edit>, Memory>
    ensures { IfOk result (λ edits. edits.items ≡ spec_edits_of (map (cut_row part.now) gone.now) (map (cut_row part.now) come.now)) }
{
    let mut edits = Vec::new(alloc);
    push_gone(alloc, &mut edits, part, gone)?;
    push_come(alloc, &mut edits, part, come)?;
    ascending(edits)
}

// Puts the edits of rows that went behind the others.
fn push_gone(
    alloc: Global,
    edits: &mut Vec<Edit>,
    part: &ModelPart,
    gone: &[Key],
) -> Result<(), Memory>
    ensures { OnOk result (edits.new.items ≡ edits.old.items ++ map going (map (cut_row part.now) gone.now)) }
{
    'rows: for row in gone {
        edits.push((tuple_of(alloc, part, row)?, None))?;
    }
    Ok(())
}

// Puts the edits of rows that came behind the others.
fn push_come(
    alloc: Global,
    edits: &mut Vec<Edit>,
    part: &ModelPart,
    come: &[Key],
) -> Result<(), Memory>
    ensures { OnOk result (edits.new.items ≡ edits.old.items ++ map coming (map (cut_row part.now) come.now)) }
{
    'rows: for row in come {
        let tuple = tuple_of(alloc, part, row)?;
        let measures = measures_of(alloc, part, row)?;
        edits.push((tuple, Some(measures)))?;
    }
    Ok(())
}

// The edits, ascending by their tuples.
fn ascending(edits: Vec<Edit>) -> Result<Vec<Edit>, Memory>
    ensures { IfOk result (λ sorted. sorted.items ≡ spec_ascending by_tuple edits.items) }
{
    let mut sorted = edits;
    sorted.sort_by(|a, b| a.0.cmp(&b.0))?;
    Ok(sorted)
}
