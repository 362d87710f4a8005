//! The references of a model over tables.
ghost use Rattle.mq_values.specs.Answers.{Gives, result_map};
ghost use Rattle.mq_ir.specs.Results.{each};
ghost use Rattle.mq_sources.specs.References.{cells_of_array, cells_of_arrays, reference_found};

use crate::sources::items_over;
use mq_ir::{RefArray, RefPart};
use mq_refmodel::reference;
use mq_tables::TableSet;
use mq_values::{Fail, Items, QueryFault};
use std::alloc::Global;

/// The arrays of these references in text order, or the first fault (docs/MEANING.md, "References").
pub fn references_over<T: TableSet>(
    alloc: Global,
    tables: &T,
    parts: &[RefPart],
) -> Result<Items<RefArray>, Fail<QueryFault>>
    ensures { Gives (result_map cells_of_arrays result) (each (reference_found (T.tables tables.now)) parts.now) }
{
    let mut arrays = Items::new(alloc);
    for part in parts {
        arrays.push(reference_over(alloc, tables, part)?)?;
    }
    Ok(arrays)
}

// The array of one reference: its own query comes first.
fn reference_over<T: TableSet>(
    alloc: Global,
    tables: &T,
    part: &RefPart,
) -> Result<RefArray, Fail<QueryFault>>
    ensures { Gives (result_map cells_of_array result) (reference_found (T.tables tables.now) part.now) }
{
    let source = &part.source;
    let items = items_over(alloc, tables, &source.from, &source.items)?;
    reference(alloc, part, items.as_slice())
}
