//! The rows that went and came between two lists of rows.
ghost use Rattle.std.specs.Prelude.{◌≡◌, ◌≢◌, ◌≤◌, ◌++◌, drop, take, IfOk, IfSome, OnOk};
ghost use Rattle.mq_delta_parts.specs.Woven.{IsChangeOf};
ghost use Rattle.mq_kept.specs.RowChanges as spec;
ghost use Rattle.mq_kept.specs.declared.row_changes.Step.TheVariants as step_of;

use crate::carrying::MOST_FOLLOWED;
use crate::comparing::is_same_key;
use mq_ir::Row;
use mq_values::{Items, Memory};
use std::alloc::Global;

// So many rows are looked through for the one that stands behind rows that went.
const MOST_SOUGHT: usize = 256;

/// The rows that went from a list, and those that came.
#[derive(Drop)]
pub struct RowChange {
    pub gone: Items<Row>,
    pub come: Items<Row>,
}

// What becomes of a row: it stays, it went, or another came in its place.
#[derive(Drop)]
enum Step {
    Stays,
    Went,
    Replaced,
}

// What was found ahead: so many rows went, and whether rows that went were looked for since one stayed. It decides only which rows are
// said to have gone and come.
#[derive(Drop)]
struct Outlook {
    going: usize,
    sought: bool,
}

/// The rows that went and came between two lists; nothing where more went or came than a view follows at once. A row that stands at
/// another place may be told as one that went and came. `Memory` is the only error.
pub fn rows_between(alloc: Global, old: &[Row], new: &[Row]) -> Result<Option<RowChange>, Memory>
    ensures { IfOk result (λ found. IfSome found (λ change. IsChangeOf old.now change.gone change.come new.now)) }
{
    let mut change = RowChange {
        gone: Items::new(alloc),
        come: Items::new(alloc),
    };
    let mut outlook = Outlook {
        going: 0,
        sought: false,
    };
    let mut at = 0;
    let mut beside = 0;
    'rows: while at < old.len() && beside < new.len() {
        if change.gone.len() > MOST_FOLLOWED {
            return Ok(None);
        }
        let old_row = &old[at];
        let new_row = &new[beside];
        let step = next_step(
            &mut outlook,
            old_row,
            new_row,
            behind(old, at),
            behind(new, beside),
        );
        let passed = passed_by(&step);
        add_step(step, old_row, new_row, &mut change)?;
        at += 1;
        beside += passed;
    }
    with_rest(old, at, new, beside, change)
}

// What becomes of a row, by the row of the other list that may be the same, and by both lists from there on.
fn next_step(outlook: &mut Outlook, old_row: &Row, new_row: &Row, old: &[Row], new: &[Row]) -> Step
    ensures { result ≡ step_of.Stays → old_row.now ≡ new_row.now }
{
    if outlook.going > 0 {
        outlook.going -= 1;
        return Step::Went;
    }
    if is_same_key(old_row, new_row) {
        outlook.sought = false;
        return Step::Stays;
    }
    if outlook.sought || are_alone(old, new) {
        return Step::Replaced;
    }
    outlook.sought = true;
    ahead(outlook, went_before(old, new_row))
}

// What becomes of a row that differs, where so many rows went, it among them.
fn ahead(outlook: &mut Outlook, went: usize) -> Step
    ensures { result ≢ step_of.Stays }
{
    if went == 0 {
        return Step::Replaced;
    }
    outlook.going = went - 1;
    Step::Went
}

// Whether the rows behind the first two are the same, or both at an end.
fn are_alone(old: &[Row], new: &[Row]) -> bool {
    match (old.get(1), new.get(1)) {
        (Some(a), Some(b)) => is_same_key(a, b),
        (None, None) => true,
        _ => false,
    }
}

// How many of these rows stand before one that is the same as this; none, where it is not among the first.
fn went_before(rows: &[Row], row: &Row) -> usize {
    for at in 0..rows.len() {
        if at > MOST_SOUGHT {
            return 0;
        }
        if is_same_key(&rows[at], row) {
            return at;
        }
    }
    0
}

// How many rows of the other list a step passes.
fn passed_by(step: &Step) -> usize
    ensures passed { result ≡ spec.passed_by step.now }
    ensures few { result ≤ 1 }
{
    match step {
        Step::Stays => 1,
        Step::Went => 0,
        Step::Replaced => 1,
    }
}

// Notes what went and came by a step over a row that was and one that is.
fn add_step(step: Step, old_row: &Row, new_row: &Row, change: &mut RowChange) -> Result<(), Memory>
    ensures { OnOk result (change.new ≡ spec.with_step step old_row.now new_row.now change.old) }
{
    match step {
        Step::Stays => Ok(()),
        Step::Went => change.gone.push(old_row.copy()?),
        Step::Replaced => {
            change.gone.push(old_row.copy()?)?;
            change.come.push(new_row.copy()?)
        }
    }
}

// Behind the end of one list all rows of the other went or came.
fn with_rest(
    old: &[Row],
    at: usize,
    new: &[Row],
    beside: usize,
    change: RowChange,
) -> Result<Option<RowChange>, Memory>
    ensures { IsChangeOf (take at old.now) change.gone change.come (take beside new.now)
        → IfOk result (λ found. IfSome found (λ after. IsChangeOf old.now after.gone after.come new.now)) }
{
    let gone = behind(old, at);
    let come = behind(new, beside);
    if gone.len() > MOST_FOLLOWED || come.len() > MOST_FOLLOWED {
        return Ok(None);
    }
    let mut change = change;
    add_rows(gone, &mut change.gone)?;
    add_rows(come, &mut change.come)?;
    Ok(Some(change))
}

// What stands behind the first `count` rows.
fn behind(rows: &[Row], count: usize) -> &[Row]
    ensures { result.now ≡ drop count rows.now }
{
    if rows.len() <= count {
        return &[];
    }
    rows.split_at(count).1
}

// These rows behind others.
fn add_rows(more: &[Row], rows: &mut Items<Row>) -> Result<(), Memory>
    ensures { OnOk result (rows.new ≡ rows.old ++ more.now) }
{
    for row in more {
        rows.push(row.copy()?)?;
    }
    Ok(())
}
