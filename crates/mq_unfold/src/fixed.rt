//! Left sides that are the same single left side in every turn.
ghost use Rattle.std.specs.Prelude.{◌≡◌, [], ◌∷◌, true, length, Some, IfOk, IfSome};
ghost use Rattle.std.specs.List.{All};
ghost use Rattle.mq_ir.specs.Unfolding.{model_of};
ghost use Rattle.mq_unfold.specs.LeftSides.{rule_of};
ghost use Rattle.mq_ir.specs.Ready.{LeftHasPlaces};
ghost use Rattle.mq_unfold.specs.FixedLefts.{IsFixed, IsSteady, IsSteadyLeft, NamesKey};

use crate::rule_lefts::single_lefts;
use mq_ir::{Expr, Left, LeftItem, Model, Rule, SingleLeft, SinglePlace};
use mq_values::{Fail, Items, Key, Memory};
use std::alloc::Global;

/// The single left side for which the rule of a number stands in every turn, and the key that it names.
#[derive(Drop)]
pub struct Fixed {
    pub number: u32,
    pub left: SingleLeft,
    pub key: Key,
}

/// The one single left side of the rule of this number, where each of its places is a literal: it is the same in every
/// turn, and no turn has a fault there. `None` says nothing. `Memory` is the only error.
pub fn fixed_left(
    alloc: Global,
    m: &Model<'_>,
    number: u32,
    rule: &Rule,
) -> Result<Option<Fixed>, Memory>
    requires there { rule_of m.now.part.now.rules number ≡ Some rule.now }
    requires places { LeftHasPlaces (length m.now.part.now.dims) rule.now.left }
    ensures { IfOk result (λ found. IfSome found (IsFixed (model_of m.now))) }
{
    if !is_steady_left(&rule.left) {
        return Ok(None);
    }
    match single_lefts(alloc, m, 0, number, rule) {
        Ok(lefts) => match only_one(lefts) {
            Some(left) => with_key(alloc, number, left),
            None => Ok(None),
        },
        Err(Fail::Cause(_)) => Ok(None),
        Err(Fail::Memory) => Err(Memory),
    }
}

// Whether a left side is seen to be the same in every turn.
fn is_steady_left(left: &Left) -> bool
    ensures { result ≡ true → IsSteadyLeft left.now }
{
    match left {
        Left::Places(items) => are_steady(items.as_slice()),
        Left::Tuples(_, _) => false,
    }
}

fn are_steady(items: &[LeftItem]) -> bool
    ensures { result ≡ true → All IsSteady items.now }
{
    'items: for item in items {
        if !is_steady(item) {
            return false;
        }
    }
    true
}

fn is_steady(item: &LeftItem) -> bool
    ensures { result ≡ true → IsSteady item.now }
{
    match item {
        LeftItem::At(e) => is_literal(e),
        _ => false,
    }
}

#[tactic(auto, using(crate::proofs::FixedLemmas::literal_steady))]
fn is_literal(e: &Expr) -> bool
    ensures { result ≡ true → IsSteady (LeftItem.At e.now) }
{
    match e {
        Expr::Lit(_) => true,
        _ => false,
    }
}

// The one that there is.
fn only_one(lefts: Items<SingleLeft>) -> Option<SingleLeft>
    ensures { IfSome result (λ left. lefts ≡ left ∷ []) }
{
    if lefts.len() != 1 {
        return None;
    }
    lefts.into_vec().pop()
}

// A left side with the key that it names, where it has no symbolic place.
fn with_key(alloc: Global, number: u32, left: SingleLeft) -> Result<Option<Fixed>, Memory>
    ensures { IfOk result (λ found. IfSome found (λ f. (f.number ≡ number) × (f.left ≡ left) × NamesKey left.places f.key)) }
{
    match key_named(alloc, left.places.as_slice())? {
        Some(key) => Ok(Some(Fixed { number, left, key })),
        None => Ok(None),
    }
}

// The key that these places name, where none is symbolic.
fn key_named(alloc: Global, places: &[SinglePlace]) -> Result<Option<Key>, Memory>
    ensures { IfOk result (λ found. IfSome found (NamesKey places.now)) }
{
    let mut values = Items::with_room(alloc, places.len());
    'places: for place in places {
        match place {
            SinglePlace::At(v) => values.push(v.copy()?)?,
            SinglePlace::Sym(_) => return Ok(None),
        }
    }
    Ok(Some(Key::new(alloc, values)?))
}
