//! The tuples of two lists that ascend.
ghost use Rattle.std.specs.Prelude.{◌≡◌, ◌≤◌, ◌++◌, drop, length, IfOk, OnOk};
ghost use Rattle.mq_delta_base.specs.Sets.{cmp_places, union as spec_union};
ghost use Rattle.mq_delta_base.specs.Unions.{IsNext, PushesBelow, place_behind};

use mq_join::PlaceRows;
use mq_values::Memory;
use std::alloc::Global;
use std::cmp::Ordering;

/// The tuples of either of two lists that ascend, in order. `Memory` is the only error.
pub fn union(alloc: Global, a: &PlaceRows, b: &PlaceRows) -> Result<PlaceRows, Memory>
    requires { a.now.width ≡ b.now.width }
    ensures { IfOk result (λ rows. rows ≡ record { width = a.now.width; rows = spec_union a.now.rows b.now.rows }) }
{
    let room = a.len().saturating_add(b.len());
    let mut rows = PlaceRows::with_room(alloc, a.width(), room)?;
    let mut at = 0;
    'others: for other in 0..b.len() {
        at = push_next(&mut rows, a, at, b.row(other))?;
    }
    push_rest(&mut rows, a, at)?;
    Ok(rows)
}

// Puts the tuples of `a` from `at` on that are below a tuple, and then that tuple, behind the others. The place behind those,
// and behind the same tuple, is the answer.
fn push_next(rows: &mut PlaceRows, a: &PlaceRows, at: usize, tuple: &[u32]) -> Result<usize, Memory>
    requires width { rows.old.width ≡ a.now.width }
    requires wide { length tuple.now ≡ a.now.width }
    requires within { at ≤ length a.now.rows }
    ensures width { OnOk result (rows.new.width ≡ rows.old.width) }
    ensures next { IfOk result (λ next. IsNext a.now.rows at tuple.now rows.old.rows next rows.new.rows) }
{
    let end = push_below(rows, a, at, tuple)?;
    rows.push(tuple)?;
    Ok(behind(a, end, tuple))
}

// Puts the tuples of `a` from `at` on that are below a tuple behind the others, and answers the place behind them.
fn push_below(
    rows: &mut PlaceRows,
    a: &PlaceRows,
    at: usize,
    tuple: &[u32],
) -> Result<usize, Memory>
    requires width { rows.old.width ≡ a.now.width }
    requires within { at ≤ length a.now.rows }
    ensures width { OnOk result (rows.new.width ≡ rows.old.width) }
    ensures below { IfOk result (λ end. PushesBelow a.now.rows at tuple.now rows.old.rows end rows.new.rows) }
{
    'below: for place in at..a.len() {
        if !order(a.row(place), tuple).is_lt() {
            return Ok(place);
        }
        rows.push(a.row(place))?;
    }
    Ok(a.len())
}

// The place behind a tuple, where it stands here.
fn behind(a: &PlaceRows, at: usize, tuple: &[u32]) -> usize
    ensures { result ≡ place_behind a.now.rows at tuple.now }
{
    if at >= a.len() {
        return at;
    }
    if order(a.row(at), tuple).is_eq() {
        at + 1
    } else {
        at
    }
}

fn order(a: &[u32], b: &[u32]) -> Ordering
    ensures { result ≡ cmp_places a.now b.now }
{
    a.cmp(b)
}

// Puts the tuples of `a` from `at` on behind the others.
fn push_rest(rows: &mut PlaceRows, a: &PlaceRows, at: usize) -> Result<(), Memory>
    requires width { rows.old.width ≡ a.now.width }
    requires within { at ≤ length a.now.rows }
    ensures { OnOk result (rows.new ≡ record rows.old { rows = rows.old.rows ++ drop at a.now.rows }) }
{
    'rest: for place in at..a.len() {
        rows.push(a.row(place))?;
    }
    Ok(())
}
