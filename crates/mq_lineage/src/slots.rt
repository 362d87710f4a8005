//! Slots that are compared.
ghost use Rattle.std.specs.Prelude.{◌≡◌};
ghost use Rattle.std.specs.Bool.{Decides};

use mq_ir::Slot;
use mq_values::{Value, ValueFault, cmp_total};

/// Whether two slots are one.
pub fn is_same_slot(a: &Slot, b: &Slot) -> bool
    ensures { Decides result (a.now ≡ b.now) }
{
    match (a, b) {
        (Slot::Done(a), Slot::Done(b)) => is_same_value(a, b),
        (Slot::Faulted(a), Slot::Faulted(b)) => is_same_fault(*a, *b),
        (Slot::Poisoned, Slot::Poisoned) => true,
        _ => false,
    }
}

/// Whether two values are one.
pub fn is_same_value(a: &Value, b: &Value) -> bool
    ensures { Decides result (a.now ≡ b.now) }
{
    cmp_total(a, b).is_eq()
}

fn is_same_fault(a: ValueFault, b: ValueFault) -> bool
    ensures { Decides result (a ≡ b) }
{
    a == b
}
