//! How bound expressions are made.

ghost use Rattle.std.specs.Prelude.{◌≡◌, IfOk};
ghost use Rattle.mq_bind_expr.specs.NameNodes as spec;
ghost use Rattle.mq_bind_expr.specs.FunctionNodes.{converted};

use mq_bind_scopes::{ExprKind, Found, column_kind};
use mq_ir::{Expr, Leaf};
use mq_values::{Boxed, Memory};
use std::alloc::Global;

/// A value of this kind.
pub fn a_value(e: Expr, kind: ExprKind) -> Found
    ensures { result ≡ spec.a_value e kind }
{
    Found {
        e,
        kind,
        equated: None,
    }
}

pub fn a_condition(e: Expr) -> Found
    ensures { result ≡ spec.a_condition e }
{
    Found {
        e,
        kind: ExprKind::Condition,
        equated: None,
    }
}

pub fn column_leaf(item: u32, column: u32) -> Expr
    ensures { result ≡ spec.column_leaf item column }
{
    Expr::Leaf(Leaf::Column(item, column))
}

/// A result brought to the kind of the whole, but where that is NULL.
pub fn converted(alloc: Global, kind: ExprKind, e: Expr) -> Result<Expr, Memory>
    ensures { IfOk result (λ r. r ≡ converted kind e) }
{
    match column_kind(kind) {
        Some(kind) => Ok(Expr::Convert(Boxed::new(alloc, e)?, kind)),
        None => Ok(e),
    }
}
