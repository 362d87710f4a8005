use mq_values::{Agg, Boxed, CmpOp, Func, Items, Kind, ProdOp, SumOp, Value, Words};

/// A column or a cell's measure, as `A` or `T.A` (docs/LANGUAGE.md, "Expressions").
/// The names are the words as they are spelled.
#[derive(Drop)]
pub struct Path {
    pub first: Option<Words>,
    pub last: Words,
}

/// An expression (docs/LANGUAGE.md, "Expressions"). A chain of one member is that member, and brackets make no node.
/// The flag of a test says that NOT stands in it.
#[cycle(expressions)]
#[derive(Drop)]
pub enum E {
    /// Two members or more, with OR between them.
    Or(Items<E>),
    /// Two members or more, with AND between them.
    And(Items<E>),
    Not(Boxed<E>),
    Cmp(Boxed<E>, CmpOp, Boxed<E>),
    /// `x [NOT] BETWEEN low AND high`.
    Between(Boxed<E>, bool, Boxed<E>, Boxed<E>),
    /// `x [NOT] IN (members)`.
    InList(Boxed<E>, bool, Items<E>),
    IsNull(Boxed<E>, bool),
    IsPresent(Boxed<E>, bool),
    IsAny(Boxed<E>),
    /// The first member, and one term or more, from left to right.
    Sum(Boxed<E>, Items<SumTerm>),
    /// The first member, and one term or more, from left to right.
    Prod(Boxed<E>, Items<ProdTerm>),
    Neg(Boxed<E>),
    Lit(Value),
    Name(Path),
    /// A cell, as `M[1, D = 2]`.
    Cell(Path, Items<Place>),
    Agg(Agg, Boxed<E>),
    /// `COUNT(*)`.
    CountAll,
    /// An aggregate of cells, as `SUM(M)[D < 5]`: the measure and the places.
    RangeAgg(Agg, Words, Items<Place>),
    /// The expression that all arms are compared with, where there is one, the arms, and what stands behind ELSE.
    Case(Option<Boxed<E>>, Items<Arm>, Option<Boxed<E>>),
    Cast(Boxed<E>, Kind),
    Call(Func, Items<E>),
    /// `CV(name)` or `CV()`.
    Cv(Option<Words>),
    /// `ITERATION_NUMBER`.
    Turn,
    Previous(Boxed<E>),
    /// `PRESENTV(cell, yes, no)`.
    PresentV(Items<E>),
    /// `PRESENTNNV(cell, yes, no)`.
    PresentNnv(Items<E>),
}

/// A place between square brackets.
#[cycle(expressions)]
#[derive(Drop)]
pub enum Place {
    Any,
    Expr(E),
}

/// A sign and what stands behind it in a sum.
#[cycle(expressions)]
#[derive(Drop)]
pub struct SumTerm {
    pub op: SumOp,
    pub e: E,
}

/// A sign and what stands behind it in a product.
#[cycle(expressions)]
#[derive(Drop)]
pub struct ProdTerm {
    pub op: ProdOp,
    pub e: E,
}

/// `WHEN test THEN value`.
#[cycle(expressions)]
#[derive(Drop)]
pub struct Arm {
    pub test: E,
    pub value: E,
}
