//! The conditions of a query, and whether they hold.
ghost use Rattle.std.specs.Prelude.{◌≡◌, ◌++◌, IfOk, OnOk};
ghost use Rattle.std.specs.Option.{option_to_list};
ghost use Rattle.mq_values.specs.Answers.{Gives};
ghost use Rattle.mq_values.specs.Truth.{is_true as spec_is_true};
ghost use Rattle.mq_ir.specs.BaseRows.{all_true as spec_all_true, conditions_of as spec_conditions_of};
ghost use Rattle.mq_join.specs.Walk.{is_taken as spec_is_taken};

use crate::from_items::ItemRows;
use crate::tuple_scope::TupleScope;
use mq_ir::{Expr, FromPart, kind_of};
use mq_scalar::{Env, holds};
use mq_values::{Fail, FaultKind, Items, Memory, ValueFault};
use std::alloc::Global;
use std::marker::Model;

/// A condition that is lent. Contracts see it as the expression.
#[derive(Drop)]
pub struct Condition<'b> {
    e: &'b Expr,
}

impl<'b> Model for Condition<'b> {
    ghost use Rattle.std.specs.Coded.{codes};
    ghost use Rattle.mq_ir.specs.contracts.expression.Expr as expr;
    ghost use Rattle.mq_ir.specs.declared.expression.Expr.{Expr as Seen};

    ghost Value = { Seen };

    ghost coded = { Prim.hlevel (codes, expr.the_row.coded) };

    ghost view = { λ condition. condition.e.now };
}

impl<'b> Condition<'b> {
    fn new(e: &'b Expr) -> Condition<'b>
        ensures { result ≡ e.now }
    {
        Condition { e }
    }

    /// The expression.
    pub fn expr(&self) -> &'b Expr
        ensures { result.now ≡ self.now }
    {
        self.e
    }
}

/// The ON conditions in text order, and then WHERE.
pub fn conditions_of(alloc: Global, q: &FromPart) -> Result<Items<Condition<'_>>, Memory>
    ensures { IfOk result (λ conditions. conditions ≡ spec_conditions_of q.now) }
{
    let mut conditions = Items::new(alloc);
    'ons: for on in q.ons.as_slice() {
        push_condition(&mut conditions, on)?;
    }
    push_condition(&mut conditions, &q.filter)?;
    Ok(conditions)
}

// Puts a condition behind the others, where there is one.
fn push_condition<'b>(
    conditions: &mut Items<Condition<'b>>,
    e: &'b Option<Expr>,
) -> Result<(), Memory>
    ensures { OnOk result (conditions.new ≡ conditions.old ++ option_to_list e.now) }
{
    match e {
        Some(e) => conditions.push(Condition::new(e)),
        None => Ok(()),
    }
}

/// Whether the rows at these places meet all conditions, or the first fault on the way. Behind a condition that is
/// not true none is evaluated (docs/MEANING.md, "Base rows").
pub fn is_taken(
    alloc: Global,
    conditions: &[Condition<'_>],
    items: &[ItemRows<'_>],
    places: &[usize],
) -> Result<bool, Fail<FaultKind>>
    ensures { Gives result (spec_is_taken conditions.now items.now places.now) }
{
    let mut scope = TupleScope { items, places };
    match all_true(alloc, conditions, &mut scope) {
        Ok(taken) => Ok(taken),
        Err(Fail::Cause(fault)) => Err(Fail::Cause(kind_of(fault))),
        Err(Fail::Memory) => Err(Fail::Memory),
    }
}

// Whether all conditions are true; the first that is not is the last that is evaluated.
fn all_true<V: Env>(
    alloc: Global,
    conditions: &[Condition<'_>],
    env: &mut V,
) -> Result<bool, Fail<ValueFault>>
    ensures exact { Gives result (spec_all_true (V.gives env.old) conditions.now) }
    ensures same { V.gives env.new ≡ V.gives env.old }
{
    'conditions: for condition in conditions {
        if !is_true(holds(alloc, condition.expr(), env)?) {
            return Ok(false);
        }
    }
    Ok(true)
}

// Unknown counts as not true.
fn is_true(truth: Option<bool>) -> bool
    ensures { result ≡ spec_is_true truth }
{
    match truth {
        Some(holds) => holds,
        None => false,
    }
}
