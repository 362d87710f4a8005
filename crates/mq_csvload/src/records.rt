//! The records of a file, one after another.
ghost use Rattle.std.specs.Prelude.{◌≡◌, IfOk};
ghost use Rattle.csv.specs.Reading.{is_bom, strip_bom};
ghost use Rattle.csv.specs.Records.{fields_of};
ghost use Rattle.mq_csvload.specs.Left.{Goes, Takes, left_of};
ghost use Rattle.mq_csvload.specs.Loading.{records_of};

use csv::{ByteRecord, ErrorKind, Reader, ReaderBuilder};
use mq_values::Memory;
use std::alloc::Global;

// How many bytes a byte order mark has.
const MARK_LENGTH: usize = 3;

fn is_mark(a: u8, b: u8, c: u8) -> bool
    ensures { result ≡ is_bom a b c }
{
    a == 0xEF && b == 0xBB && c == 0xBF
}

// The bytes behind a byte order mark, where they begin with one.
fn without_mark(bytes: &[u8]) -> &[u8]
    ensures { result.now ≡ strip_bom bytes.now }
{
    if bytes.len() < MARK_LENGTH {
        return bytes;
    }
    if is_mark(bytes[0], bytes[1], bytes[2]) {
        bytes.split_at(MARK_LENGTH).1
    } else {
        bytes
    }
}

/// A reader that has all records of a file before it.
pub(crate) fn reader_of<'a>(alloc: Global, bytes: &'a [u8]) -> Reader<&'a [u8]>
    ensures goes { Goes result }
    ensures left { left_of result ≡ records_of bytes.now }
{
    ReaderBuilder::new()
        .has_headers(false)
        .flexible(true)
        .from_reader(alloc, without_mark(bytes))
}

/// Puts the next record into `into`, where there is one.
pub(crate) fn read_next<'a>(
    reader: &mut Reader<&'a [u8]>,
    into: &mut ByteRecord,
) -> Result<bool, Memory>
    requires { Goes reader.old }
    ensures { IfOk result (λ found. Takes found reader.old reader.new (fields_of into.new)) }
{
    match reader.read_byte_record(into) {
        Ok(found) => Ok(found),
        // Bytes in memory can be read, but no clause says so.
        Err(failed) => match failed.into_kind() {
            ErrorKind::Io(_) | ErrorKind::OutOfMemory => Err(Memory),
            _ => unreachable!(),
        },
    }
}
