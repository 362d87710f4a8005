//! The printed names of faults.
ghost use Rattle.std.specs.Prelude.{◌≡◌};
ghost use Rattle.mq_ir.specs.Lines as spec;
ghost use Rattle.mq_ir.specs.Placed.{kind_of as kind_of_fault};

use mq_ir::kind_of;
use mq_values::{FaultKind, ValueFault};

/// The printed name of a value's fault (docs/LANGUAGE.md, "Faults").
pub fn fault_name(fault: &ValueFault) -> &'static str
    ensures { result.now ≡ spec.fault_name (kind_of_fault fault.now) }
{
    kind_name(kind_of(*fault))
}

/// The printed name of a fault's kind (docs/LANGUAGE.md, "Faults").
pub fn kind_name(kind: FaultKind) -> &'static str
    ensures { result.now ≡ spec.fault_name kind }
{
    match kind {
        FaultKind::NotUnique => "NOT_UNIQUE",
        FaultKind::Overflow => "OVERFLOW",
        FaultKind::DivideByZero => "DIVIDE_BY_ZERO",
        FaultKind::TextTooLong => "TEXT_TOO_LONG",
        FaultKind::Cycle => "CYCLE",
        FaultKind::AssignedTwice => "ASSIGNED_TWICE",
        FaultKind::SelfOrder => "SELF_ORDER",
        FaultKind::TooManyCells => "TOO_MANY_CELLS",
        FaultKind::TooManyUnfolded => "TOO_MANY_UNFOLDED",
        FaultKind::TooManyRows => "TOO_MANY_ROWS",
        FaultKind::DateRange => "DATE_RANGE",
    }
}
