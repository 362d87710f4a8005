//! Parts of the conditions that tell early that a tuple is not kept.
ghost use Rattle.std.specs.Prelude.{◌≡◌, IfOk, OnOk};
ghost use Rattle.std.specs.List.{All};
ghost use Rattle.std.specs.Option.{IfSome};
ghost use Rattle.mq_join.specs.Deciding.{AddsDeciders, IsDecider, SeesBelow};

use crate::conditions::Condition;
use crate::sight::{all_see_below, sees_below, sight_of};
use mq_ir::Expr;
use mq_values::Memory;
use std::alloc::Global;

/// An expression that is evaluated before anything can fault: where it is false, the tuple is not kept, and also where it is
/// unknown, if it is safe to say so. It may see the rows of the first FROM items alone.
#[derive(Drop)]
pub struct Decider<'b> {
    pub e: &'b Expr,
    pub safe: bool,
    pub below: Option<usize>,
}

/// The conditions, and of an AND its members, from the first on as long as what stands before them never faults.
/// `count` is the number of FROM items.
#[tactic(auto, using(crate::proofs::DeciderLemmas::decider_steps))]
pub fn deciders_of<'b>(
    alloc: Global,
    conditions: &[Condition<'b>],
    count: usize,
) -> Result<Vec<Decider<'b>>, Memory>
    ensures { IfOk result (λ deciders. All (IsDecider conditions.now) deciders.items) }
{
    let mut deciders = Vec::new(alloc);
    'conditions: for condition in conditions {
        let e = condition.expr();
        add_deciders(e, count, &mut deciders)?;
        if !sees_below(e, count) {
            return Ok(deciders);
        }
    }
    Ok(deciders)
}

// Those of one condition. Where it is not an AND, it decides also where it is unknown.
#[tactic(auto, using(crate::proofs::DeciderLemmas::decider_steps))]
fn add_deciders<'b>(
    e: &'b Expr,
    count: usize,
    deciders: &mut Vec<Decider<'b>>,
) -> Result<(), Memory>
    ensures { OnOk result (AddsDeciders e.now deciders.old.items deciders.new.items) }
{
    match e {
        Expr::And(es) => add_members(es.as_slice(), count, deciders),
        _ => {
            deciders.push(decider_of(e, true, count))?;
            Ok(())
        }
    }
}

// The members of an AND. Behind one that is unknown the others are evaluated, so that none of these may fault.
#[tactic(auto, using(crate::proofs::DeciderLemmas::decider_steps))]
fn add_members<'b>(
    es: &'b [Expr],
    count: usize,
    deciders: &mut Vec<Decider<'b>>,
) -> Result<(), Memory>
    ensures { OnOk result (AddsDeciders (Expr.And es.now) deciders.old.items deciders.new.items) }
{
    let safe = all_see_below(es, count);
    'members: for e in es {
        deciders.push(decider_of(e, safe, count))?;
        if !sees_below(e, count) {
            return Ok(());
        }
    }
    Ok(())
}

fn decider_of<'b>(e: &'b Expr, safe: bool, count: usize) -> Decider<'b>
    ensures e { result.e.now ≡ e.now }
    ensures safe { result.safe ≡ safe }
    ensures sees { IfSome result.below (λ n. SeesBelow n e.now) }
{
    Decider {
        e,
        safe,
        below: sight_of(e, count),
    }
}
