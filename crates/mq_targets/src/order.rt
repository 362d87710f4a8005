//! The order in which targets are assigned.
ghost use Rattle.std.specs.Prelude.{◌≡◌, IfOk};
ghost use Rattle.std.specs.List.Sorted.{IsStrictlySortedBy};
ghost use Rattle.mq_values.specs.Order.{cmp_key};
ghost use Rattle.mq_ir.specs.Keys.{each_first};
ghost use Rattle.mq_ir.specs.Partitions.{ascending};
ghost use Rattle.mq_ir.specs.Printing as spec;
ghost use Rattle.mq_targets.specs.Choice as choice;

use mq_values::{Key, Memory, Value};
use std::cmp::Ordering;

// Which key comes first by one column of an ORDER BY.
fn cmp_column(column: u32, descending: bool, a: &[Value], b: &[Value]) -> Ordering
    ensures { result ≡ spec.cmp_column (column, descending) a.now b.now }
{
    let null = Value::Null;
    let first = a.get(column as usize).unwrap_or(&null);
    let second = b.get(column as usize).unwrap_or(&null);
    if descending {
        second.cmp(first)
    } else {
        first.cmp(second)
    }
}

// Which key comes first by an ORDER BY, with ties ascending.
fn cmp_by(order: &[(u32, bool)], a: &[Value], b: &[Value]) -> Ordering
    ensures { result ≡ choice.cmp_by order.now a.now b.now }
{
    for (column, descending) in order {
        let decided = cmp_column(*column, *descending, a, b);
        if decided.is_ne() {
            return decided;
        }
    }
    a.cmp(b)
}

// These keys, each once, by an ORDER BY with ties ascending.
pub fn sorted(keys: Vec<Key>, order: &[(u32, bool)]) -> Result<Vec<Key>, Memory>
    ensures { IfOk result (λ sorted. sorted.items ≡ ascending (choice.cmp_by order.now) (each_first keys.items)) }
{
    let mut keys = keys;
    keys.sort_by(|a, b| cmp_by(order, a.as_slice(), b.as_slice()))?;
    keys.dedup();
    Ok(keys)
}

// Ascending keys by an ORDER BY with ties ascending.
pub fn ordered(keys: Vec<Key>, order: &[(u32, bool)]) -> Result<Vec<Key>, Memory>
    requires { IsStrictlySortedBy cmp_key keys.items }
    ensures { IfOk result (λ ordered. ordered.items ≡ ascending (choice.cmp_by order.now) keys.items) }
{
    if order.is_empty() {
        return Ok(keys);
    }
    sorted(keys, order)
}
