//! Faults inside a partition.
ghost use Rattle.std.specs.Prelude.{◌≡◌};
ghost use Rattle.mq_ir.specs.Placed as spec;

use mq_values::{FaultKind, Key, QueryFault, ValueFault};
use std::marker::Model;

/// A fault inside a partition: the rule's number, or 0 where it is none, and the cell, or the empty key. Contracts see it
/// as `Placed` of mq_ir's `specs/Placed`.
#[derive(Drop)]
pub struct PlacedFault {
    kind: FaultKind,
    rule: u32,
    cell: Key,
}

impl Model for PlacedFault {
    ghost use Rattle.mq_ir.specs.Placed.{Placed};

    ghost Value = { Placed };

    ghost view = { λ f. record { kind = f.kind; rule = f.rule; cell = f.cell } };
}

impl PlacedFault {
    /// A fault of this kind at a cell.
    pub fn new(rule: u32, cell: Key, kind: FaultKind) -> PlacedFault
        ensures { result ≡ spec.placed_fault rule cell kind }
    {
        PlacedFault { kind, rule, cell }
    }

    /// The same fault, in the partition with this key.
    pub fn at_partition(self, partition: Key) -> QueryFault
        ensures { result ≡ spec.at_partition partition self }
    {
        QueryFault {
            kind: self.kind,
            rule: self.rule,
            partition,
            cell: self.cell,
        }
    }
}

/// A fault outside of partitions and cells: of a rule, or of none where its number is 0.
pub fn plain_fault(rule: u32, kind: FaultKind) -> QueryFault
    ensures { result ≡ spec.plain_fault rule kind }
{
    PlacedFault::new(rule, Key::empty(), kind).at_partition(Key::empty())
}

/// The kind of a value's fault.
pub fn kind_of(fault: ValueFault) -> FaultKind
    ensures { result ≡ spec.kind_of fault }
{
    match fault {
        ValueFault::Overflow => FaultKind::Overflow,
        ValueFault::DivideByZero => FaultKind::DivideByZero,
        ValueFault::TextTooLong => FaultKind::TextTooLong,
        ValueFault::DateRange => FaultKind::DateRange,
    }
}
