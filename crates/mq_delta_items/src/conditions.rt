//! Whether the conditions of a query are true of a row.
ghost use Rattle.std.specs.Prelude.{◌≡◌, [], ◌∷◌};
ghost use Rattle.std.specs.List.{filter_map};
ghost use Rattle.std.specs.Option.{option_to_list};
ghost use Rattle.mq_values.specs.Answers.{Gives};
ghost use Rattle.mq_ir.specs.BaseRows.{all_true, conditions_of, row_leaves};
ghost use Rattle.mq_ir.specs.Placed as placed;
ghost use Rattle.mq_ir.specs.Results.{marked};

use mq_group::RowPlace;
use mq_ir::{Expr, FromPart, Row, kind_of};
use mq_scalar::{Env, holds};
use mq_values::{Fail, FaultKind, ValueFault};
use std::alloc::Global;

/// Whether all conditions of a query are true of a row that stands as its one FROM item, or the first fault on the way. Behind a
/// condition that is not true none is evaluated (docs/MEANING.md, "Base rows").
pub fn is_taken(alloc: Global, from: &FromPart, row: &Row) -> Result<bool, Fail<FaultKind>>
    ensures { Gives result (marked placed.kind_of (all_true (row_leaves (row.now ∷ [])) (conditions_of from.now))) }
{
    match all_met(alloc, from, &mut RowPlace { row: Some(row) }) {
        Ok(taken) => Ok(taken),
        Err(Fail::Cause(fault)) => Err(Fail::Cause(kind_of(fault))),
        Err(Fail::Memory) => Err(Fail::Memory),
    }
}

// The ON conditions in text order, and then WHERE.
fn all_met<V: Env>(alloc: Global, from: &FromPart, env: &mut V) -> Result<bool, Fail<ValueFault>>
    ensures { Gives result (all_true (V.gives env.old) (conditions_of from.now)) }
{
    if !ons_met(alloc, from.ons.as_slice(), env)? {
        return Ok(false);
    }
    is_met(alloc, &from.filter, env)
}

// The ON conditions, up to the first that is not true.
fn ons_met<V: Env>(
    alloc: Global,
    ons: &[Option<Expr>],
    env: &mut V,
) -> Result<bool, Fail<ValueFault>>
    ensures exact { Gives result (all_true (V.gives env.old) (filter_map (λ on. on) ons.now)) }
    ensures same { V.gives env.new ≡ V.gives env.old }
{
    'ons: for on in ons {
        if !is_met(alloc, on, env)? {
            return Ok(false);
        }
    }
    Ok(true)
}

// A condition, where there is one.
fn is_met<V: Env>(alloc: Global, e: &Option<Expr>, env: &mut V) -> Result<bool, Fail<ValueFault>>
    ensures exact { Gives result (all_true (V.gives env.old) (option_to_list e.now)) }
    ensures same { V.gives env.new ≡ V.gives env.old }
{
    match e {
        Some(e) => is_true(alloc, e, env),
        None => Ok(true),
    }
}

// Unknown counts as not true.
fn is_true<V: Env>(alloc: Global, e: &Expr, env: &mut V) -> Result<bool, Fail<ValueFault>>
    ensures exact { Gives result (all_true (V.gives env.old) (e.now ∷ [])) }
    ensures same { V.gives env.new ≡ V.gives env.old }
{
    match holds(alloc, e, env)? {
        Some(true) => Ok(true),
        _ => Ok(false),
    }
}
