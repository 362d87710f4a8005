use mq_values::{Agg, Boxed, CmpOp, Func, Items, Kind, ProdOp, SumOp, Value};

/// An expression whose names are bound (docs/MEANING.md, "Expressions"). The flag of a test says that NOT stands in it.
#[cycle(expressions)]
#[derive(Drop)]
pub enum Expr {
    /// Two members or more, with OR between them.
    Or(Items<Expr>),
    /// Two members or more, with AND between them.
    And(Items<Expr>),
    Not(Boxed<Expr>),
    Cmp(Boxed<Expr>, CmpOp, Boxed<Expr>),
    /// `x [NOT] BETWEEN low AND high`.
    Between(Boxed<Expr>, bool, Boxed<Expr>, Boxed<Expr>),
    /// `x [NOT] IN (members)`.
    InList(Boxed<Expr>, bool, Items<Expr>),
    IsNull(Boxed<Expr>, bool),
    /// Whether a cell is present: the leaf is a `Present`.
    IsPresent(Leaf, bool),
    /// A first value, and what is added to it, taken from it or joined to it, from left to right.
    Sum(Boxed<Expr>, Items<BoundSum>),
    /// A first value, and what it is multiplied with or divided by, from left to right.
    Prod(Boxed<Expr>, Items<BoundProd>),
    Neg(Boxed<Expr>),
    Lit(Value),
    Leaf(Leaf),
    /// The value that all arms are compared with, where there is one, the arms, and what stands behind ELSE.
    Case(Option<Boxed<Expr>>, Items<BoundArm>, Option<Boxed<Expr>>),
    Cast(Boxed<Expr>, Kind),
    /// A result that is brought to the kind of the whole, as that of an arm of CASE.
    Convert(Boxed<Expr>, Kind),
    Call(Func, Items<Expr>),
    /// `PRESENTV(cell, yes, no)`: `present` asks whether the cell is in the input.
    PresentV {
        present: Leaf,
        yes: Boxed<Expr>,
        no: Boxed<Expr>,
    },
    /// `PRESENTNNV(cell, yes, no)`: `not_null` is asked only where `present` holds.
    PresentNnv {
        present: Leaf,
        not_null: Leaf,
        yes: Boxed<Expr>,
        no: Boxed<Expr>,
    },
}

/// One operator of a sum with its right operand.
#[cycle(expressions)]
#[derive(Drop)]
pub struct BoundSum {
    pub op: SumOp,
    pub e: Expr,
}

/// One operator of a product with its right operand.
#[cycle(expressions)]
#[derive(Drop)]
pub struct BoundProd {
    pub op: ProdOp,
    pub e: Expr,
}

/// `WHEN test THEN value`.
#[cycle(expressions)]
#[derive(Drop)]
pub struct BoundArm {
    pub test: Expr,
    pub value: Expr,
}

/// What an expression reads from where it stands. Items, columns, measures, dimensions and references are numbered from 0.
#[cycle(expressions)]
#[derive(Drop)]
pub enum Leaf {
    /// A column of a row of the base query: the number of the FROM item, and that of the column.
    Column(u32, u32),
    /// A measure of the cell at these dimension values.
    Cell(u32, Items<Expr>),
    /// An aggregate of a measure over the cells that meet every place.
    Range(Agg, u32, Items<Test>),
    /// A measure of a reference, of the cell at these dimension values.
    RefCell(u32, u32, Items<Expr>),
    /// A dimension of the cell that is being assigned.
    Cv(u32),
    /// The number of the present turn.
    Turn,
    /// Whether the cell at these dimension values is in the partition's input.
    Present(Items<Expr>),
    /// Whether this measure of that cell, read without NAV, is not null.
    NotNull(u32, Items<Expr>),
    /// An aggregate over the rows of a group; COUNT of all rows where no expression stands.
    GroupAgg(Agg, Option<Boxed<Expr>>),
    /// A measure of the cell at these dimension values, as it was when the present turn began.
    Previous(u32, Items<Expr>),
}

/// What a symbolic place of a left side, or a place of a range, asks of its dimension.
#[cycle(expressions)]
#[derive(Drop)]
pub enum Test {
    Any,
    At(Expr),
    Cmp(CmpOp, Expr),
    Between(Expr, Expr),
    In(Items<Expr>),
    Null,
    And(Items<Test>),
    Or(Items<Test>),
    Not(Boxed<Test>),
}

/// A place of a range aggregate.
pub type RangePlace = Test;

/// What an expression is worth where it stands: a value, or, for a condition, whether it holds (`None`: unknown).
#[derive(Drop)]
pub enum Worth {
    Value(Value),
    Truth(Option<bool>),
}
