//! The items of each row of a table, after a change of it.
ghost use Rattle.std.specs.Prelude.{◌≡◌, ◌<◌, [], ◌∷◌, ◌++◌, List, Some, None, Ok, drop, length, slice_index_or, slice_set};
ghost use Rattle.std.specs.Prelude.{if◌then◌else◌, IfOk, IfSome, IsTrue, OnOk};
ghost use Rattle.std.specs.List.{enumerate_from};
ghost use Rattle.mq_values.specs.Answers.{Gives, result_map};
ghost use Rattle.mq_ir.specs.Keys.{Tuple};
ghost use Rattle.mq_ir.specs.Results.{each, each_in_turn};
ghost use Rattle.mq_delta_items.specs.Columns.{columns_of};
ghost use Rattle.mq_delta_items.specs.Following.{HasFollowed, lengthened, made_anew, no_change, shortened};
ghost use Rattle.mq_delta_items.specs.Following.{stay_of, went_of, with_exchange, unless_over};
ghost use Rattle.mq_delta_items.specs.Lines.{items_in, line_of, lines_of};
ghost use Rattle.mq_delta_items.specs.Touching.{IsTouchedBy};
ghost use Rattle.mq_delta_parts.specs.Woven.{IsChangeOf};

use crate::lines::{RowLines, line_over, put_item, takes_columns};
use mq_ir::{FromPart, ItemPart, Row};
use mq_tables::{Flags, Touched};
use mq_values::{Fail, FaultKind, Items, Key, MAX_BASE_ROWS, Memory};
use std::alloc::Global;
use std::mem;

/// The items of rows that went, and of those that came.
#[derive(Drop)]
pub struct ItemChange {
    pub gone: Items<Key>,
    pub come: Items<Key>,
}

/// Lets the lines of the rows of a table follow a change of it: `rows` are the rows as they stand now, `touched` is what the change
/// touched. The answer has the items that went and came. `None` comes exactly where the rows have no lines now (`lines_over`). After it,
/// and after `Memory`, which is the only error, the lines are in no stated state.
pub fn lines_after(
    alloc: Global,
    from: &FromPart,
    part: &ItemPart,
    touched: &Touched,
    rows: &[Row],
    lines: &mut RowLines,
) -> Result<Option<ItemChange>, Memory>
    ensures found { (before : List Tuple) → IsTouchedBy touched.now before rows.now → lines_of from.now part.now before ≡ Some lines.old
        → IfOk result (λ found. IfSome found (λ change.
        (lines_of from.now part.now rows.now ≡ Some lines.new)
        × IsChangeOf (items_in lines.old) change.gone change.come (items_in lines.new))) }
    ensures none { (before : List Tuple) → IsTouchedBy touched.now before rows.now → lines_of from.now part.now before ≡ Some lines.old
        → IfOk result (λ found. found ≡ None → lines_of from.now part.now rows.now ≡ None) }
{
    let followed = lines_followed(alloc, from, part, touched, rows, lines);
    if_few(lines, followed)
}

// What was followed, unless a row faulted, or more rows are taken than a query may have.
fn if_few(
    lines: &RowLines,
    followed: Result<ItemChange, Fail<FaultKind>>,
) -> Result<Option<ItemChange>, Memory>
    ensures { result ≡ unless_over (length (items_in lines.now)) followed }
{
    match followed {
        Ok(change) => Ok(if_within(lines.taken, change)),
        Err(Fail::Cause(_fault)) => Ok(None),
        Err(Fail::Memory) => Err(Memory),
    }
}

// A change after which so many rows are taken, unless these are too many.
fn if_within(taken: usize, change: ItemChange) -> Option<ItemChange>
    ensures { Ok result ≡ unless_over taken (Ok change) }
{
    if taken > MAX_BASE_ROWS {
        return None;
    }
    Some(change)
}

// The lines follow, form by form of what was touched.
fn lines_followed(
    alloc: Global,
    from: &FromPart,
    part: &ItemPart,
    touched: &Touched,
    rows: &[Row],
    lines: &mut RowLines,
) -> Result<ItemChange, Fail<FaultKind>>
    ensures { (before : List Tuple) → IsTouchedBy touched.now before rows.now → each (line_of from.now part.now) before ≡ Ok lines.old
        → HasFollowed (line_of from.now part.now) rows.now lines.old lines.new result }
{
    match touched {
        Touched::Added { first, .. } => {
            lines_added(alloc, from, part, behind(rows, *first), lines)
        }
        Touched::Replaced(replaced) => {
            lines_replaced(alloc, from, part, replaced.as_slice(), rows, lines)
        }
        Touched::Gone { flags, .. } => lines_gone(alloc, flags, lines),
    }
}

// ---- rows that came

// What stands behind the first `count` rows.
fn behind(rows: &[Row], count: usize) -> &[Row]
    ensures { result.now ≡ drop count rows.now }
{
    if rows.len() <= count {
        return &[];
    }
    rows.split_at(count).1
}

// Puts the lines of these rows behind the others.
fn lines_added(
    alloc: Global,
    from: &FromPart,
    part: &ItemPart,
    rows: &[Row],
    lines: &mut RowLines,
) -> Result<ItemChange, Fail<FaultKind>>
    ensures { Gives (result_map (λ change. (lines.new, change)) result) (lengthened (line_of from.now part.now) rows.now lines.old) }
{
    let columns = takes_columns(part);
    let mut come = Items::new(alloc);
    'rows: for row in rows {
        let line = line_over(alloc, from, part, columns, row)?;
        put_item(&mut come, &line)?;
        push_line(line, lines)?;
    }
    Ok(ItemChange {
        gone: Items::new(alloc),
        come,
    })
}

// ---- rows that were replaced

// Makes the lines at the places of these rows anew, of the rows that stand there now.
fn lines_replaced(
    alloc: Global,
    from: &FromPart,
    part: &ItemPart,
    replaced: &[(u32, Row)],
    rows: &[Row],
    lines: &mut RowLines,
) -> Result<ItemChange, Fail<FaultKind>>
    ensures { Gives (result_map (λ change. (lines.new, change)) result)
        (each_in_turn (made_anew (line_of from.now part.now) rows.now) replaced.now (lines.old, no_change)) }
{
    let columns = takes_columns(part);
    let mut change = ItemChange {
        gone: Items::new(alloc),
        come: Items::new(alloc),
    };
    'replaced: for row in replaced {
        make_anew(alloc, from, part, columns, row, rows, lines, &mut change)?;
    }
    Ok(change)
}

// Makes the line at the place of this row anew, where a row and a line stand there. `columns` is as of `line_over`.
fn make_anew(
    alloc: Global,
    from: &FromPart,
    part: &ItemPart,
    columns: bool,
    replaced: &(u32, Row),
    rows: &[Row],
    lines: &mut RowLines,
    change: &mut ItemChange,
) -> Result<(), Fail<FaultKind>>
    requires { IsTrue columns → part.now.items ≡ columns_of (length part.now.items) }
    ensures { Gives (result_map (λ _. (lines.new, change.new)) result)
        (made_anew (line_of from.now part.now) rows.now replaced.now (lines.old, change.old)) }
{
    let place = replaced.0 as usize;
    if rows.len() <= place {
        return Ok(());
    }
    if line_count(lines) <= place {
        return Ok(());
    }
    let line = line_over(alloc, from, part, columns, &rows[place])?;
    exchange(alloc, place, line, lines, change)?;
    Ok(())
}

// Puts a line in the place of that which stands at a place, and notes the items of both.
fn exchange(
    alloc: Global,
    place: usize,
    line: Option<Key>,
    lines: &mut RowLines,
    change: &mut ItemChange,
) -> Result<(), Memory>
    requires { place < length lines.old }
    ensures lines { OnOk result (lines.new ≡ slice_set lines.old place line) }
    ensures change { OnOk result (change.new ≡ with_exchange change.old (slice_index_or lines.old place None) line) }
{
    put_item(&mut change.come, &line)?;
    let old = set_line(alloc, place, line, lines);
    push_taken(&mut change.gone, old)
}

// ---- rows that went

// Takes away the lines of the rows that are gone.
fn lines_gone(
    alloc: Global,
    flags: &Flags,
    lines: &mut RowLines,
) -> Result<ItemChange, Fail<FaultKind>>
    ensures { Gives (result_map (λ change. (lines.new, change)) result) (Ok (shortened flags.now lines.old)) }
{
    let old = take_out(alloc, lines);
    let gone = part_lines(alloc, flags, old, lines)?;
    Ok(ItemChange {
        gone,
        come: Items::new(alloc),
    })
}

// Puts lines behind the others, but for those of rows that are gone: their items are the answer.
fn part_lines(
    alloc: Global,
    flags: &Flags,
    old: Items<Option<Key>>,
    lines: &mut RowLines,
) -> Result<Items<Key>, Memory>
    ensures left { OnOk result (lines.new ≡ lines.old ++ stay_of flags.now (enumerate_from 0 old)) }
    ensures gone { IfOk result (λ gone. gone ≡ items_in (went_of flags.now (enumerate_from 0 old))) }
{
    let mut gone = Items::new(alloc);
    'lines: for (at, line) in old.into_vec().into_iter().enumerate() {
        part_line(flags.is_gone(at), line, lines, &mut gone)?;
    }
    Ok(gone)
}

// Puts a line behind those that stay, or its items behind those that are gone.
fn part_line(
    is_gone: bool,
    line: Option<Key>,
    lines: &mut RowLines,
    gone: &mut Items<Key>,
) -> Result<(), Memory>
    ensures stay { OnOk result (lines.new ≡ lines.old ++ (if is_gone then [] else line ∷ [])) }
    ensures gone { OnOk result (gone.new ≡ gone.old ++ (if is_gone then items_in (line ∷ []) else [])) }
{
    if is_gone {
        push_taken(gone, line)
    } else {
        push_line(line, lines)
    }
}

// ---- lines

// How many lines there are.
fn line_count(lines: &RowLines) -> usize
    ensures { result ≡ length lines.now }
{
    lines.lines.len()
}

// Puts a line behind the others.
fn push_line(line: Option<Key>, lines: &mut RowLines) -> Result<(), Memory>
    ensures { OnOk result (lines.new ≡ lines.old ++ line ∷ []) }
{
    let more = taken_in(&line);
    lines.lines.push(line)?;
    // It tells that the sum fits.
    let _count = lines.lines.len();
    lines.taken += more;
    Ok(())
}

// Puts a line in the place of that which stands at a place, which is the answer.
fn set_line(alloc: Global, place: usize, line: Option<Key>, lines: &mut RowLines) -> Option<Key>
    requires { place < length lines.old }
    ensures put { lines.new ≡ slice_set lines.old place line }
    ensures old { result ≡ slice_index_or lines.old place None }
{
    let more = taken_in(&line);
    let mut all = mem::replace(&mut lines.lines, Items::new(alloc)).into_vec();
    let old = mem::replace(&mut all[place], line);
    lines.lines = Items::from_vec(all);
    // It tells that the sum fits.
    let _count = lines.lines.len();
    lines.taken = lines.taken - taken_in(&old) + more;
    old
}

// Takes all lines out, so that none is left. There is room for as many.
fn take_out(alloc: Global, lines: &mut RowLines) -> Items<Option<Key>>
    ensures none { lines.new ≡ [] }
    ensures all { result ≡ lines.old }
{
    let room = Items::with_room(alloc, lines.lines.len());
    lines.taken = 0;
    mem::replace(&mut lines.lines, room)
}

// How many rows are taken of one.
fn taken_in(line: &Option<Key>) -> usize
    ensures { result ≡ length (items_in (line.now ∷ [])) }
{
    match line {
        Some(_) => 1,
        None => 0,
    }
}

// Puts the items of a line behind others, where it has some.
fn push_taken(items: &mut Items<Key>, line: Option<Key>) -> Result<(), Memory>
    ensures { OnOk result (items.new ≡ items.old ++ items_in (line ∷ [])) }
{
    match line {
        Some(key) => items.push(key),
        None => Ok(()),
    }
}
