//! The header of a file: the names of the table's columns.
ghost use Rattle.std.specs.Prelude.{◌≡◌, ◌<◌, [], get_or, length};
ghost use Rattle.csv.specs.Records.{fields_of};
ghost use Rattle.mq_lexer.specs.Words.{folded};
ghost use Rattle.std.specs.Str.{bytes_eq};
ghost use Rattle.mq_csvload.specs.Loading as spec;

use csv::ByteRecord;
use mq_ir::Column;

// Whether a field is this name, with its ASCII letters as capital letters.
fn is_name(name: &[u8], field: &[u8]) -> bool
    ensures { result ≡ bytes_eq name.now (folded field.now) }
{
    if field.len() != name.len() {
        return false;
    }
    for i in 0..field.len() {
        if field[i].to_ascii_uppercase() != name[i] {
            return false;
        }
    }
    true
}

// Whether the field at a place is the name of this column.
fn is_column(col: &Column, header: &ByteRecord, at: usize) -> bool
    requires { at < length (fields_of header.now) }
    ensures { result ≡ bytes_eq col.now.name (folded (get_or (fields_of header.now) at [])) }
{
    match header.get(at) {
        Some(field) => is_name(col.name.as_str().as_bytes(), field),
        None => unreachable!(),
    }
}

/// Whether the record has the names of the columns in their order, whatever the case of their ASCII letters.
pub(crate) fn is_header(cols: &[Column], header: &ByteRecord) -> bool
    ensures { result ≡ spec.is_header cols.now (fields_of header.now) }
{
    if header.len() != cols.len() {
        return false;
    }
    'columns: for at in 0..cols.len() {
        if !is_column(&cols[at], header, at) {
            return false;
        }
    }
    true
}
