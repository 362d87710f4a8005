//! A file as rows of a table.
ghost use Rattle.mq_values.specs.Answers.{Gives, result_map};
ghost use Rattle.mq_csvload.specs.Loading.{rows_in};

use crate::header::is_header;
use crate::records::{read_next, reader_of};
use crate::rows::rows_before;
use csv::ByteRecord;
use mq_ir::{Row, Schema};
use mq_values::{Fail, Refused};
use std::alloc::Global;

/// The rows that the bytes of a CSV file hold for a table with these columns, in their order. `LoadHeader` comes exactly
/// where the first record is not there or not the header, else `LoadRow` exactly with the number of the first record
/// behind it that is no row (docs/LANGUAGE.md, "Refusals").
pub fn load_rows(alloc: Global, bytes: &[u8], schema: &Schema) -> Result<Vec<Row>, Fail<Refused>>
    ensures exact { Gives (result_map (λ rows. rows.items) result) (rows_in bytes.now schema.now) }
{
    let cols = schema.cols.as_slice();
    let mut reader = reader_of(alloc, bytes);
    let mut record = ByteRecord::new(alloc);
    if !read_next(&mut reader, &mut record)? {
        return Err(Fail::Cause(Refused::LoadHeader));
    }
    if !is_header(cols, &record) {
        return Err(Fail::Cause(Refused::LoadHeader));
    }
    rows_before(alloc, cols, &mut reader, &mut record)
}
