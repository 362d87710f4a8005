//! The key that a condition asks for: it begins with comparisons that name each column of the key beside a literal.
ghost use Rattle.std.specs.Prelude.{◌≡◌, true, IfSome, IfOk};
ghost use Rattle.mq_values.specs.declared.operators.CmpOp.TheVariants.{Eq};
ghost use Rattle.mq_tables.specs.Wanted as spec;

use crate::numbered_key::NumberedKey;
use mq_ir::{Expr, Leaf, Schema};
use mq_values::{CmpOp, Items, Key, Memory, Value};
use std::alloc::Global;

/// The key of the rows that a condition may choose, where it asks for one.
pub fn wanted_key(
    alloc: Global,
    schema: &Schema,
    filter: &Option<Expr>,
) -> Result<Option<NumberedKey>, Memory>
    ensures { IfOk result (λ wanted. IfSome wanted (spec.Wants filter.now schema.now)) }
{
    let mut values = Items::with_room(alloc, schema.key.len());
    'columns: for column in schema.key.as_slice() {
        match wanted_in(*column, filter) {
            Some(v) => values.push(v.copy()?)?,
            None => return Ok(None),
        }
    }
    Ok(Some(NumberedKey::new(Key::new(alloc, values)?, 0)))
}

// The value that is wanted in a column.
fn wanted_in(column: u32, filter: &Option<Expr>) -> Option<&Value>
    ensures { IfSome result (λ v. spec.IsWanted filter.now column v.now) }
{
    let Some(e) = filter else {
        return None;
    };
    match e {
        Expr::And(es) => wanted_by_all(es.as_slice(), column),
        _ => wanted_by(e, column),
    }
}

// The value that the first comparisons of a conjunction want. They are evaluated in each row, and none of them faults.
fn wanted_by_all(es: &[Expr], column: u32) -> Option<&Value>
    ensures { IfSome result (λ v. spec.Refutes column (Expr.And es.now) v.now) }
{
    'conjuncts: for e in es {
        match wanted_by(e, column) {
            Some(v) => return Some(v),
            None => {}
        }
        if !is_comparison(e) {
            return None;
        }
    }
    None
}

// The value that the column has in each row of which the expression is not false, where it says so.
fn wanted_by(e: &Expr, column: u32) -> Option<&Value>
    ensures { IfSome result (λ v. spec.Refutes column e.now v.now) }
{
    let (a, b) = sides_of(e)?;
    match value_beside(a, b, column) {
        Some(v) => Some(v),
        None => value_beside(b, a, column),
    }
}

// The two sides of an equality.
fn sides_of(e: &Expr) -> Option<(&Expr, &Expr)>
    ensures { IfSome result (λ sides. e.now ≡ Expr.Cmp sides.0.now Eq sides.1.now) }
{
    match e {
        Expr::Cmp(a, CmpOp::Eq, b) => Some((a.get(), b.get())),
        _ => None,
    }
}

// The value `b`, where `a` is the column.
fn value_beside<'a>(a: &Expr, b: &'a Expr, column: u32) -> Option<&'a Value>
    ensures { IfSome result (λ v. spec.StandsBeside a.now b.now column v.now) }
{
    if !is_column(a, column) {
        return None;
    }
    match b {
        Expr::Lit(v) => Some(v),
        _ => None,
    }
}

fn is_column(e: &Expr, column: u32) -> bool
    ensures { result ≡ true → e.now ≡ Expr.Leaf (Leaf.Column 0 column) }
{
    match column_of(e) {
        Some(named) => named == column,
        None => false,
    }
}

fn column_of(e: &Expr) -> Option<u32>
    ensures { IfSome result (λ column. e.now ≡ Expr.Leaf (Leaf.Column 0 column)) }
{
    match e {
        Expr::Leaf(Leaf::Column(0, column)) => Some(*column),
        _ => None,
    }
}

// Whether the expression compares columns of the row and values.
fn is_comparison(e: &Expr) -> bool
    ensures { result ≡ true → spec.NeverFaults e.now }
{
    match e {
        Expr::Cmp(a, _, b) => is_plain(a.get()) && is_plain(b.get()),
        _ => false,
    }
}

// Whether the expression is a column of the row or a value.
fn is_plain(e: &Expr) -> bool
    ensures { result ≡ true → spec.HasValue e.now }
{
    match column_of(e) {
        Some(_) => true,
        None => is_literal(e),
    }
}

fn is_literal(e: &Expr) -> bool
    ensures { result ≡ true → spec.HasValue e.now }
{
    match e {
        Expr::Lit(_) => true,
        _ => false,
    }
}
