//! The items of a query, for each row or group.
ghost use Rattle.std.specs.Prelude.{◌≡◌, map, IfSome};
ghost use Rattle.mq_values.specs.Answers.{Gives};
ghost use Rattle.mq_ir.specs.Answer as answer;
ghost use Rattle.mq_ir.specs.Expression.{ev};
ghost use Rattle.mq_ir.specs.Items as spec;
ghost use Rattle.mq_ir.specs.Results.{each, marked};
ghost use Rattle.mq_group.specs.Members.{group_found, items_found, row_found};

use crate::places::{GroupPlace, RowPlace};
use crate::row_values::RowValues;
use mq_ir::{ColRef, Expr, ItemPart, kind_of, plain_fault};
use mq_scalar::{Env, eval};
use mq_values::{Fail, Items, Key, QueryFault, ValueFault};
use std::alloc::Global;

/// The items of a query for each of these rows or, where the query is grouped, for each group, evaluated from left to
/// right; or the first fault, which carries no rule, no partition and no cell (docs/MEANING.md, "Groups and items").
/// Where the query is grouped, the groups are those that `groups` gives for its columns.
pub fn items<R: RowValues>(
    alloc: Global,
    q: &ItemPart,
    rows: &[R],
    groups: &[Items<u32>],
) -> Result<Items<Key>, Fail<QueryFault>>
    requires { IfSome q.now.group (λ cols. groups.now ≡ spec.groups_of cols (map R.values rows.now)) }
    ensures { Gives result (marked (answer.plain_fault 0) (spec.item_rows q.now (map R.values rows.now))) }
{
    match &q.group {
        None => row_items(alloc, q.items.as_slice(), rows),
        Some(cols) => group_items(alloc, cols.as_slice(), q.items.as_slice(), rows, groups),
    }
}

fn row_items<R: RowValues>(
    alloc: Global,
    items: &[Expr],
    rows: &[R],
) -> Result<Items<Key>, Fail<QueryFault>>
    ensures { Gives result (each (row_found R.values items.now) rows.now) }
{
    let mut found = Items::with_room(alloc, rows.len());
    for row in rows {
        found.push(item_row(alloc, items, &mut RowPlace { row: Some(row) })?)?;
    }
    Ok(found)
}

fn group_items<R: RowValues>(
    alloc: Global,
    cols: &[ColRef],
    items: &[Expr],
    rows: &[R],
    groups: &[Items<u32>],
) -> Result<Items<Key>, Fail<QueryFault>>
    ensures { Gives result (each (group_found R.values cols.now rows.now items.now) groups.now) }
{
    let mut found = Items::with_room(alloc, groups.len());
    for group in groups {
        let group = group.as_slice();
        let mut env = GroupPlace { cols, rows, group };
        found.push(item_row(alloc, items, &mut env)?)?;
    }
    Ok(found)
}

// The items where `env` is; a value fault is a fault of the query.
fn item_row<V: Env>(alloc: Global, items: &[Expr], env: &mut V) -> Result<Key, Fail<QueryFault>>
    ensures { Gives result (items_found items.now (V.gives env.old)) }
{
    match evaluated(alloc, items, env) {
        Ok(key) => Ok(key),
        Err(Fail::Cause(fault)) => Err(Fail::Cause(plain_fault(0, kind_of(fault)))),
        Err(Fail::Memory) => Err(Fail::Memory),
    }
}

/// The values of the expressions where `env` is, from left to right, or the first fault.
pub fn evaluated<V: Env>(alloc: Global, es: &[Expr], env: &mut V) -> Result<Key, Fail<ValueFault>>
    ensures exact { Gives result (each (ev (V.gives env.old)) es.now) }
    ensures same { V.gives env.new ≡ V.gives env.old }
{
    let mut values = Items::with_room(alloc, es.len());
    for e in es {
        values.push(eval(alloc, e, env)?)?;
    }
    Ok(Key::new(alloc, values)?)
}
