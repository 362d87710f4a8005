//! The items of each row of a table.
ghost use Rattle.std.specs.Prelude.{◌≡◌, ◌≤◌, ◌+◌, [], ◌∷◌, ◌++◌, Some, length, IfOk, IfSome, IsTrue, OnOk};
ghost use Rattle.mq_values.specs.Answers.{Gives};
ghost use Rattle.mq_values.specs.declared.limits.TheConstants.{MAX_BASE_ROWS};
ghost use Rattle.mq_ir.specs.BaseRows.{row_leaves};
ghost use Rattle.mq_ir.specs.Items.{items_at};
ghost use Rattle.mq_delta_items.specs.Columns.{columns_of};
ghost use Rattle.mq_delta_items.specs.Lines.{GoesByRow, few, items_in, line_of, lines_of};
ghost use Rattle.mq_delta_items.specs.Lining.{if_put, with_line};

use crate::columns::are_columns;
use crate::conditions::is_taken;
use mq_group::{RowPlace, evaluated};
use mq_ir::{FromPart, ItemPart, Row, kind_of};
use mq_values::{Fail, FaultKind, Items, Key, MAX_BASE_ROWS, Memory, Words};
use std::alloc::Global;
use std::marker::Model;

/// What a query makes of each row of its table: its items, or nothing where its conditions are not true of the row. Contracts see it
/// as the list of these.
#[derive(Drop)]
pub struct RowLines {
    pub(crate) lines: Items<Option<Key>>,
    pub(crate) taken: usize,
}

impl Model for RowLines {
    ghost use Rattle.std.specs.Prelude.{◌≡◌, List, Option, length};
    ghost use Rattle.mq_ir.specs.Keys.{Tuple};
    ghost use Rattle.mq_delta_items.specs.Lines.{items_in};

    ghost Value = { List (Option Tuple) };

    ghost view = { λ l. l.lines };

    ghost invariant = { λ l. l.taken ≡ length (items_in l.lines) };
}

impl RowLines {
    /// The items of the rows that are taken, in order. Keys are shared.
    pub fn items(&self, alloc: Global) -> Result<Items<Key>, Memory>
        ensures { IfOk result (λ items. items ≡ items_in self.now) }
    {
        items_among(alloc, self.lines.as_slice(), self.taken)
    }

    // No line, with room for so many.
    fn with_room(alloc: Global, count: usize) -> RowLines
        ensures { result ≡ [] }
    {
        RowLines {
            lines: Items::with_room(alloc, count),
            taken: 0,
        }
    }

    // Puts a line behind the others. `false`: then more rows would be taken than a query may have.
    fn put(&mut self, line: Option<Key>) -> Result<bool, Memory>
        requires { length (items_in self.old) ≤ MAX_BASE_ROWS }
        ensures { IfOk result (λ put. if_put put self.new ≡ few (self.old ++ line ∷ [])) }
    {
        let taken = taken_with(self.taken, &line);
        if taken > MAX_BASE_ROWS {
            return Ok(false);
        }
        self.lines.push(line)?;
        self.taken = taken;
        Ok(true)
    }
}

// How many rows are taken with that of this line.
fn taken_with(taken: usize, line: &Option<Key>) -> usize
    requires { taken ≤ MAX_BASE_ROWS }
    ensures { result ≡ taken + length (items_in (line.now ∷ [])) }
{
    match line {
        Some(_) => taken + 1,
        None => taken,
    }
}

// The items of lines, of which so many are expected.
fn items_among(alloc: Global, lines: &[Option<Key>], expected: usize) -> Result<Items<Key>, Memory>
    ensures { IfOk result (λ items. items ≡ items_in lines.now) }
{
    let mut items = Items::with_room(alloc, expected);
    'lines: for line in lines {
        put_item(&mut items, line)?;
    }
    Ok(items)
}

/// Puts the item of a line behind the others, where it has one.
pub(crate) fn put_item(items: &mut Items<Key>, line: &Option<Key>) -> Result<(), Memory>
    ensures { OnOk result (items.new ≡ items.old ++ items_in (line.now ∷ [])) }
{
    match line {
        Some(item) => items.push(item.copy()?),
        None => Ok(()),
    }
}

/// The table of a query that takes the rows of one table, and no groups of them.
pub fn only_table<'a>(from: &'a FromPart, part: &ItemPart) -> Option<&'a Words>
    ensures { IfSome result (λ table. GoesByRow from.now part.now table.now) }
{
    if part.group.is_some() {
        return None;
    }
    match from.tables.as_slice() {
        [table] => Some(table),
        _ => None,
    }
}

/// What a query makes of each of these rows. `None` comes exactly where a row faults, or where more are taken than a query may have.
/// `Memory` is the only error.
pub fn lines_over(
    alloc: Global,
    from: &FromPart,
    part: &ItemPart,
    rows: &[Row],
) -> Result<Option<RowLines>, Memory>
    ensures { IfOk result (λ found. found ≡ lines_of from.now part.now rows.now) }
{
    let columns = takes_columns(part);
    let mut lines = RowLines::with_room(alloc, rows.len());
    'rows: for row in rows {
        if !put_line(alloc, from, part, columns, row, &mut lines)? {
            return Ok(None);
        }
    }
    Ok(Some(lines))
}

// Puts the line of one row more behind the others. `false`: the row faults, or more are taken than a query may have.
fn put_line(
    alloc: Global,
    from: &FromPart,
    part: &ItemPart,
    columns: bool,
    row: &Row,
    lines: &mut RowLines,
) -> Result<bool, Memory>
    requires columns { IsTrue columns → part.now.items ≡ columns_of (length part.now.items) }
    requires few { length (items_in lines.old) ≤ MAX_BASE_ROWS }
    ensures { IfOk result (λ put. if_put put lines.new ≡ with_line (line_of from.now part.now row.now) lines.old) }
{
    match line_over(alloc, from, part, columns, row) {
        Ok(line) => lines.put(line),
        Err(Fail::Cause(_)) => Ok(false),
        Err(Fail::Memory) => Err(Memory),
    }
}

/// Whether the items are the columns of a row, in order. It is asked once for all rows.
pub(crate) fn takes_columns(part: &ItemPart) -> bool
    ensures { IsTrue result → part.now.items ≡ columns_of (length part.now.items) }
{
    are_columns(part.items.as_slice())
}

/// The items over a row, or none where a condition is not true of it; or the first fault. `columns` tells that the items are the
/// columns of a row, in order: a row that has just these is its own items, and shared.
pub(crate) fn line_over(
    alloc: Global,
    from: &FromPart,
    part: &ItemPart,
    columns: bool,
    row: &Row,
) -> Result<Option<Key>, Fail<FaultKind>>
    requires { IsTrue columns → part.now.items ≡ columns_of (length part.now.items) }
    ensures { Gives result (line_of from.now part.now row.now) }
{
    if !is_taken(alloc, from, row)? {
        return Ok(None);
    }
    Ok(Some(item_over(alloc, part, columns, row)?))
}

// The items over a row.
fn item_over(
    alloc: Global,
    part: &ItemPart,
    columns: bool,
    row: &Row,
) -> Result<Key, Fail<FaultKind>>
    requires { IsTrue columns → part.now.items ≡ columns_of (length part.now.items) }
    ensures { Gives result (items_at part.now.items (row_leaves (row.now ∷ []))) }
{
    if columns & (row.as_slice().len() == part.items.len()) {
        return Ok(row.copy()?);
    }
    item_evaluated(alloc, part, row)
}

// The same, evaluated from left to right.
fn item_evaluated(alloc: Global, part: &ItemPart, row: &Row) -> Result<Key, Fail<FaultKind>>
    ensures { Gives result (items_at part.now.items (row_leaves (row.now ∷ []))) }
{
    let mut place = RowPlace { row: Some(row) };
    match evaluated(alloc, part.items.as_slice(), &mut place) {
        Ok(item) => Ok(item),
        Err(Fail::Cause(fault)) => Err(Fail::Cause(kind_of(fault))),
        Err(Fail::Memory) => Err(Fail::Memory),
    }
}
