use crate::boxed::Boxed;
use crate::items::Items;
use crate::value::Value;

/// An aggregate of the values of some rows or cells.
#[derive(Clone, Copy, Debug, PartialEq, Eq)]
pub enum Agg {
    Sum,
    Avg,
    Min,
    Max,
    Count,
}

/// A comparison of two values.
#[derive(Clone, Copy, Debug, PartialEq, Eq)]
pub enum CmpOp {
    Eq,
    Ne,
    Lt,
    Le,
    Gt,
    Ge,
}

/// What a rule does with a cell that is not there.
#[derive(Clone, Copy, Debug, PartialEq, Eq)]
pub enum Mode {
    Update,
    Upsert,
    UpsertAll,
}

/// How a term goes into a sum: added, taken away, or joined as a text.
#[derive(Clone, Copy, Debug, PartialEq, Eq)]
pub enum SumOp {
    Add,
    Sub,
    Join,
}

/// How a term goes into a product.
#[derive(Clone, Copy, Debug, PartialEq, Eq)]
pub enum ProdOp {
    Mul,
    Div,
}

/// A function of values. `Round` carries the scale.
#[derive(Clone, Copy, Debug, PartialEq, Eq)]
pub enum Func {
    Abs,
    Floor,
    Length,
    Round(u8),
    Nvl,
}

/// What a symbolic item of a rule asks of a dimension's value, with its operands evaluated.
#[derive(Debug, Drop, PartialEq, Eq)]
pub enum DimTest {
    Any,
    At(Value),
    Cmp(CmpOp, Value),
    Between(Value, Value),
    In(Items<Value>),
    Null,
    And(Items<DimTest>),
    Or(Items<DimTest>),
    Not(Boxed<DimTest>),
}
