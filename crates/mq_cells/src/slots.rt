//! Slots that are read.
ghost use Rattle.std.specs.Prelude.{◌≡◌, Some, unwrap_or, IfOk};
ghost use Rattle.std.specs.Option.{option_copied};
ghost use Rattle.mq_values.specs.declared.value.Value.TheVariants.{Null};
ghost use Rattle.mq_ir.specs.Slots.{done_value};
ghost use Rattle.mq_cells.specs.IndexedStores.{is_sound};

use mq_ir::Slot;
use mq_values::{Memory, Value};

/// The same slot once more. A text is shared, not copied.
pub fn copy_slot(slot: &Slot) -> Result<Slot, Memory>
    ensures { IfOk result (λ s. s ≡ slot.now) }
{
    match slot {
        Slot::Done(v) => Ok(Slot::Done(v.copy()?)),
        Slot::Faulted(fault) => Ok(Slot::Faulted(*fault)),
        Slot::Poisoned => Ok(Slot::Poisoned),
    }
}

/// Whether a slot has a value.
pub fn is_done(slot: &Slot) -> bool
    ensures { result ≡ is_sound (Some slot.now) }
{
    matches!(slot, Slot::Done(_))
}

/// The value of a slot that has one.
pub fn value_of(slot: &Slot) -> Result<Value, Memory>
    ensures { IfOk result (λ v. v ≡ done_value slot.now) }
{
    match slot {
        Slot::Done(v) => v.copy(),
        _ => Ok(Value::Null),
    }
}

/// The same value, lent; `None` where it is null.
pub fn lent_value(slot: &Slot) -> Option<&Value>
    ensures { unwrap_or (option_copied result) Null ≡ done_value slot.now }
{
    match slot {
        Slot::Done(v) => Some(v),
        _ => None,
    }
}
