//! What is found of a model once, before its turns.
ghost use Rattle.std.specs.Prelude.{◌≡◌, IfOk, IfSome};
ghost use Rattle.mq_ir.specs.Unfolding.{model_of, Model as Modeled};
ghost use Rattle.mq_ir.specs.Ready.{LeftsHavePlaces};
ghost use Rattle.mq_unfold.specs.FixedLefts.{AreFixed, IsFixed};

use mq_ir::Model;
use mq_refs::RefsOrder;
use mq_unfold::{Fixed, fixed_left};
use mq_values::Memory;
use std::alloc::Global;

/// What is found of a model once: what is known of the order of the references' cells, and, for its rules in text order, the
/// left sides that are known to be the same in every turn. Definitions see that it is so by `IsPrepared` (specs/Known).
#[derive(Clone, Copy)]
pub struct Prepared<'a> {
    pub refs: RefsOrder,
    pub fixed: &'a [Option<Fixed>],
}

/// The left sides of the rules that are the same in every turn, where there may be several turns; else none.
pub fn fixed_lefts(alloc: Global, m: &Model<'_>, turns: u32) -> Result<Vec<Option<Fixed>>, Memory>
    requires { LeftsHavePlaces m.now.part.now }
    ensures { IfOk result (λ fixed. AreFixed (model_of m.now) fixed.items) }
{
    let mut fixed = Vec::new(alloc);
    if turns <= 1 {
        return Ok(fixed);
    }
    let mut number = 0u32;
    'rules: for rule in m.part.rules.as_slice() {
        let Some(next) = number.checked_add(1) else {
            return Ok(fixed);
        };
        number = next;
        fixed.push(fixed_left(alloc, m, number, rule)?)?;
    }
    Ok(fixed)
}

/// The left side of the rule of this number that is the same in every turn, where it is known.
pub fn fixed_at<'a>(fixed: &'a [Option<Fixed>], number: u32) -> Option<&'a Fixed>
    ensures own { IfSome result (λ f. f.now.number ≡ number) }
    ensures is { (model : Modeled) → AreFixed model fixed.now → IfSome result (λ f. IsFixed model f.now) }
{
    let Some(at) = number.checked_sub(1) else {
        return None;
    };
    match fixed.get(at as usize) {
        Some(found) => of_number(found, number),
        None => None,
    }
}

fn of_number(found: &Option<Fixed>, number: u32) -> Option<&Fixed>
    ensures own { IfSome result (λ f. f.now.number ≡ number) }
    ensures is { (model : Modeled) → IfSome found.now (IsFixed model) → IfSome result (λ f. IsFixed model f.now) }
{
    match found {
        Some(f) if f.number == number => Some(f),
        _ => None,
    }
}
