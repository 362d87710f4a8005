//! LOAD: a file is fetched from the shelf, and its records become rows of a table.

ghost use Rattle.std.specs.Prelude.{◌≡◌, ◌≤◌, ℕ, Some, IsErrOf};
ghost use Rattle.mq_values.specs.Answers.{result_map};
ghost use Rattle.mq_io.specs.Causes.{Rose};
ghost use Rattle.mq_ir.specs.declared.statement.Bound.TheVariants as bound;
ghost use Rattle.mq_ir.specs.declared.statement.Change.TheVariants.{Append};
ghost use Rattle.mq_tool.specs.Loads.{FileMap, Found, file_bytes, rows_of_file};
ghost use Rattle.mq_tool.specs.Statements.{taken};
ghost use Rattle.mq_tool.specs.Steps.{Ends, Takes, changed};

use crate::changes::do_change;
use crate::stops::Stop;
use mq_csvload::load_rows;
use mq_engine::Engine;
use mq_io::{Fetched, Gate, IoFault, Shelf};
use mq_ir::{Catalog, Change, Row};
use mq_values::{Fail, Items, MAX_FILE_BYTES, Refused, Words};
use std::alloc::Global;

/// Adds the rows of a file to a table, or to what is pending of it in the block that is there, appends the line with
/// their number to `out`, and answers that no line is a flaw; or why the statement is refused, and then nothing is changed
/// or appended (docs/MEANING.md, "Loading").
pub(crate) fn load<F: Shelf, G: Gate>(
    alloc: Global,
    engine: &mut Engine,
    table: Words,
    file: &Words,
    files: &mut F,
    out: &mut Vec<u8>,
    gate: &G,
) -> Result<bool, Stop>
    ensures done { (told : FileMap) (line : ℕ) → F.files files.old ≡ Some told
        → Ends (taken told engine.old line (bound.Load table file.now)) engine.old engine.new out.old.items out.new.items result }
    ensures files { F.files files.new ≡ F.files files.old }
    ensures later { F.faults files.old ≤ F.faults files.new }
    ensures not_fetched { IsErrOf result Stop.NotFetched → (engine.new ≡ engine.old) × (out.new ≡ out.old) }
    ensures failed { IsErrOf result Stop.NotFetched → Rose (F.faults files.old) (F.faults files.new) }
{
    let rows = file_rows(alloc, engine.catalog(), &table, file, files)?;
    Ok(append(alloc, engine, table, rows, out, gate)?)
}

// Adds rows to a table, or to what is pending of it.
fn append<G: Gate>(
    alloc: Global,
    engine: &mut Engine,
    table: Words,
    rows: Vec<Row>,
    out: &mut Vec<u8>,
    gate: &G,
) -> Result<bool, Fail<Refused>>
    ensures { Takes (changed engine.old (Append table rows.items)) engine.old engine.new out.old.items out.new.items result }
{
    let change = Change::Append {
        table,
        rows: Items::from_vec(rows),
    };
    do_change(alloc, engine, &change, out, gate)
}

// The rows that the file holds for the table.
fn file_rows<F: Shelf>(
    alloc: Global,
    catalog: &Catalog,
    table: &Words,
    file: &Words,
    files: &mut F,
) -> Result<Vec<Row>, Stop>
    ensures exact { (told : FileMap) → F.files files.old ≡ Some told
        → Found (result_map (λ rows. rows.items) result) (rows_of_file told catalog.now table.now file.now) }
    ensures files { F.files files.new ≡ F.files files.old }
    ensures later { F.faults files.old ≤ F.faults files.new }
    ensures failed { IsErrOf result Stop.NotFetched → Rose (F.faults files.old) (F.faults files.new) }
{
    let Some(schema) = catalog.table(table.as_str()) else {
        return Err(Stop::Refused(Refused::UnknownName(table.copy()?)));
    };
    let bytes = fetched(file, files)?;
    Ok(load_rows(alloc, &bytes, schema)?)
}

// The bytes of the file.
fn fetched<F: Shelf>(file: &Words, files: &mut F) -> Result<Vec<u8>, Stop>
    ensures exact { (told : FileMap) → F.files files.old ≡ Some told
        → Found (result_map (λ bytes. bytes.items) result) (file_bytes told file.now) }
    ensures files { F.files files.new ≡ F.files files.old }
    ensures later { F.faults files.old ≤ F.faults files.new }
    ensures failed { IsErrOf result Stop.NotFetched → Rose (F.faults files.old) (F.faults files.new) }
{
    match files.fetch(file.as_str(), MAX_FILE_BYTES as u32) {
        Ok(Fetched::Bytes(bytes)) => Ok(bytes),
        Ok(Fetched::TooLong) => Err(Stop::Refused(Refused::FileTooLong)),
        Ok(Fetched::Absent) => Err(Stop::Refused(Refused::NoFile)),
        Err(IoFault::Failed) => Err(Stop::NotFetched),
        Err(IoFault::Memory) => Err(Stop::Memory),
    }
}
