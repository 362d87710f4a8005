//! The first fault among results.
ghost use Rattle.std.specs.Prelude.{◌≡◌, ◌≤◌, length};
ghost use Rattle.std.specs.Option.{option_copied, option_map};
ghost use Rattle.mq_ir.specs.Shape.{cmp_by_rule};
ghost use Rattle.mq_cells.specs.Faults.{least_with, numbered, sooner_of};
ghost use Rattle.mq_cells.specs.Stores.{first_faulted};
ghost use Rattle.mq_cells.specs.Stores as spec;
ghost use Rattle.mq_cells.specs.declared.bounds.TheConstants.{MAX_ASSIGNMENTS};

use crate::held::Held;
use mq_ir::Slot;
use mq_values::Key;
use std::cmp::Ordering;

// An assignment behind its number.
type Numbered<'a> = (u32, &'a (Key, u32, u32));

/// The number of the assignment that is the least by its rule and then its cell among those whose result is a fault, or
/// `None` where none is.
pub fn least_fault<H: Held>(held: &H, assigned: &[(Key, u32, u32)]) -> Option<u32>
    requires { length assigned.now ≤ MAX_ASSIGNMENTS }
    ensures { result ≡ first_faulted (H.stands held.now) assigned.now }
{
    let mut least: Option<Numbered<'_>> = None;
    let mut at = assigned.len();
    // From the last to the first: of those that are alike the first is kept.
    'looking: while at > 0 {
        at -= 1;
        least = with_next(held, (at as u32, &assigned[at]), least);
    }
    match least {
        Some((number, _)) => Some(number),
        None => None,
    }
}

// The sooner of `next` and `least`, where the result of `next` is a fault.
fn with_next<'a, H: Held>(
    held: &H,
    next: Numbered<'a>,
    least: Option<Numbered<'a>>,
) -> Option<Numbered<'a>>
    ensures { option_map numbered result ≡ least_with (H.stands held.now) (numbered next.entry) (option_map numbered least.entry) }
{
    if is_faulted(held.result(&next.1.0, next.1.1)) {
        Some(sooner(next, least))
    } else {
        least
    }
}

// Whether a fault stands here.
fn is_faulted(slot: Option<&Slot>) -> bool
    ensures { result ≡ spec.is_faulted (option_copied slot.entry) }
{
    matches!(slot, Some(Slot::Faulted(_)))
}

// The one that comes first by rule, then cell: `one`, where they are alike or there is no other.
fn sooner<'a>(one: Numbered<'a>, other: Option<Numbered<'a>>) -> Numbered<'a>
    ensures { numbered result ≡ sooner_of (numbered one.entry) (option_map numbered other.entry) }
{
    let Some(other) = other else {
        return one;
    };
    if by_rule(one.1, other.1).is_gt() {
        other
    } else {
        one
    }
}

// Assignments by rule, then cell.
fn by_rule(a: &(Key, u32, u32), b: &(Key, u32, u32)) -> Ordering
    ensures { result ≡ cmp_by_rule a.now b.now }
{
    match a.2.cmp(&b.2) {
        Ordering::Equal => a.0.cmp(&b.0),
        other => other,
    }
}
