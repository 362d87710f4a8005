//! The places at which an UPDATE or a DELETE has to look.
ghost use Rattle.std.specs.Prelude.{length};
ghost use Rattle.mq_tables.specs.Seeking.{AreWithin, PassesOutside};

use crate::keyed_rows::KeyedRows;
use crate::places::Places;
use crate::wanted::wanted_key;
use mq_ir::{Expr, Schema};
use std::alloc::Global;

/// Places outside of which a condition chooses no row. Where it asks for a key they are found through the keys of the rows.
pub fn places_to_visit(
    alloc: Global,
    schema: &Schema,
    filter: &Option<Expr>,
    rows: &KeyedRows,
) -> Places
    ensures outside { PassesOutside filter.now rows.now result }
    ensures within { AreWithin result (length rows.now) }
{
    match wanted_key(alloc, schema, filter) {
        Ok(Some(key)) => rows.places_of(alloc, schema, &key),
        _ => Places::first(rows.as_slice().len()),
    }
}
