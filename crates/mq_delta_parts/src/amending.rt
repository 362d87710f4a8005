//! Cells that are amended by edits.
ghost use Rattle.std.specs.Prelude.{◌≡◌, ◌++◌, IfOk, OnOk};
ghost use Rattle.mq_delta_parts.specs.Edits.{Ascends, amended as spec_amended, begins_with as spec_begins_with};
ghost use Rattle.mq_delta_parts.specs.Spans.{IsSpan, Puts};

use crate::cuts::{behind, up_to};
use crate::edits::Edit;
use mq_values::{Items, Key, Memory};
use std::alloc::Global;

/// The cells after these edits, or `None` where a tuple would stand twice. `Memory` is the only error.
pub fn amended(
    alloc: Global,
    cells: &[(Key, Key)],
    edits: &[Edit],
) -> Result<Option<Items<(Key, Key)>>, Memory>
    ensures { Ascends cells.now → IfOk result (λ found. found ≡ spec_amended cells.now edits.now) }
{
    let room = cells.len().saturating_add(edits.len());
    let mut kept = Items::with_room(alloc, room);
    let mut rest = cells;
    'edits: for at in 0..edits.len() {
        match put_front(&mut kept, rest, &edits[at], behind(edits, at + 1))? {
            Some(end) => rest = behind(rest, end),
            None => return Ok(None),
        }
    }
    push_all(&mut kept, rest)?;
    Ok(Some(kept))
}

// Puts the cells below the tuple of an edit behind the others, and its own where its row came. The answer is how many cells that is of
// these, with the one at the tuple; `None` where the tuple would stand twice. `next` are the edits behind it.
fn put_front(
    kept: &mut Items<(Key, Key)>,
    cells: &[(Key, Key)],
    edit: &Edit,
    next: &[Edit],
) -> Result<Option<usize>, Memory>
    ensures { Ascends cells.now → IfOk result (λ end. Puts cells.now edit.now next.now kept.old end kept.new) }
{
    let span = span_of(cells, &edit.0);
    push_all(kept, up_to(cells, span.start))?;
    let Some(measures) = &edit.1 else {
        return Ok(Some(span.end));
    };
    if span.start < span.end {
        return Ok(None);
    }
    if begins_with(next, &edit.0) {
        return Ok(None);
    }
    kept.push((edit.0.copy()?, measures.copy()?))?;
    Ok(Some(span.end))
}

// The cells at a tuple: how many stand before them, and how many up to them.
#[derive(Drop)]
struct Span {
    start: usize,
    end: usize,
}

// Where the cell at a tuple stands, or would stand.
fn span_of(cells: &[(Key, Key)], tuple: &Key) -> Span
    ensures { Ascends cells.now → IsSpan cells.now tuple.now result.start result.end }
{
    match cells.binary_search_by(|cell| cell.0.cmp(tuple)) {
        Ok(at) => Span {
            start: at,
            end: at + 1,
        },
        Err(at) => Span { start: at, end: at },
    }
}

// Whether the first of these edits is of this tuple.
fn begins_with(edits: &[Edit], tuple: &Key) -> bool
    ensures { result ≡ spec_begins_with edits.now tuple.now }
{
    match edits.first() {
        Some(edit) => tuple.cmp(&edit.0).is_eq(),
        None => false,
    }
}

// Puts these cells behind the others.
fn push_all(kept: &mut Items<(Key, Key)>, cells: &[(Key, Key)]) -> Result<(), Memory>
    ensures { OnOk result (kept.new ≡ kept.old ++ cells.now) }
{
    'cells: for cell in cells {
        kept.push((cell.0.copy()?, cell.1.copy()?))?;
    }
    Ok(())
}
