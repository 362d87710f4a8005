use crate::key::Key;
use crate::words::Words;
use thiserror::Error;

/// Why a value cannot be worked out (docs/LANGUAGE.md, "Faults").
#[derive(Clone, Copy, Debug, PartialEq, Eq, Error)]
pub enum ValueFault {
    #[error("a number is out of range")]
    Overflow,
    #[error("a divisor is zero")]
    DivideByZero,
    #[error("a text is longer than 256 bytes")]
    TextTooLong,
    #[error("a date is out of range")]
    DateRange,
}

/// Why a query has no rows (docs/LANGUAGE.md, "Faults").
#[derive(Clone, Copy, Debug, PartialEq, Eq)]
pub enum FaultKind {
    NotUnique,
    Overflow,
    DivideByZero,
    TextTooLong,
    Cycle,
    AssignedTwice,
    SelfOrder,
    TooManyCells,
    TooManyUnfolded,
    TooManyRows,
    DateRange,
}

/// A fault and where it came: the rule's number from 1, or 0 outside of the rules, the partition's key and the cell's.
#[derive(Debug, Drop, PartialEq, Eq)]
pub struct QueryFault {
    pub kind: FaultKind,
    pub rule: u32,
    pub partition: Key,
    pub cell: Key,
}

/// Why a statement was refused, with the detail that is printed (docs/LANGUAGE.md, "Refusals").
#[derive(Debug, Drop, PartialEq, Eq)]
pub enum Refused {
    TooDeep,
    Syntax,
    UnknownName(Words),
    DuplicateName(Words),
    KindMismatch,
    ModelForm(u32),
    Limit(u32),
    InUse(Words),
    NoFile,
    FileTooLong,
    LoadHeader,
    LoadRow(u32),
    ChangeValue(u32, ValueFault),
    NotNull(Words),
    DuplicateKey(Key),
    /// BEGIN in a block, with the line of its BEGIN.
    BlockOpen(u32),
    /// What may not stand in a block, with the line of its BEGIN.
    InBlock(u32),
    NoBlock,
    /// COMMIT of a block in which a statement was refused, with the line of the first.
    BlockBroken(u32),
    /// A view has no partition of this key.
    NoPartition(Key),
    /// A partition has no cell of this key.
    NoCell(Key),
}
