//! What names mean in a part of a statement, where in it an expression stands, and what binding makes of one.

use crate::kinds::ExprKind;
use mq_ir::{ColRef, Expr, Test};
use mq_values::{Items, Words};

/// A column of the FROM items, or of a reference's query, that an expression may name.
#[derive(Drop)]
pub struct RowColumn {
    pub name: Words,
    pub kind: ExprKind,
    pub at: ColRef,
}

/// A column of a model: a partition column, a dimension or a measure.
#[derive(Drop)]
pub struct Named {
    pub name: Words,
    pub kind: ExprKind,
}

/// A printed column of a query; it has a name where it has an alias or is a plain column.
#[derive(Drop)]
pub struct Printed {
    pub name: Option<Words>,
    pub kind: ExprKind,
}

/// What the rules of a model may name of a reference.
#[derive(Drop)]
pub struct ReferenceNames {
    pub name: Words,
    pub dims: Items<Named>,
    pub measures: Items<Named>,
}

/// What the rules of a model may name, and whether they are iterated.
#[derive(Drop)]
pub struct ModelNames {
    pub dims: Items<Named>,
    pub measures: Items<Named>,
    pub refs: Items<ReferenceNames>,
    pub iterates: bool,
}

/// What names mean in a part of a statement: the FROM items by their aliases, and their columns; the columns that
/// GROUP BY names, where the query is grouped; the columns of the model, for its SELECT list; and the names of its rules.
#[derive(Drop)]
pub struct Scope {
    pub aliases: Items<Words>,
    pub columns: Items<RowColumn>,
    pub group: Option<Items<ColRef>>,
    pub shown: Items<Named>,
    pub model: ModelNames,
}

/// The part of a statement that an expression stands in.
#[derive(Clone, Copy)]
pub enum Part {
    /// Over a row, without aggregates: ON, WHERE, a change, the lists of a reference.
    Row,
    /// An item of a query: its SELECT list, or the lists of its model.
    Item,
    /// The SELECT list of a query with MODEL.
    Shown,
    /// The left side of a rule.
    Left,
    /// The right side of a rule.
    Right,
    Until,
}

/// Whose cells a bracket names.
#[derive(Clone, Copy)]
pub enum Owner {
    Main,
    Reference(u32),
    /// A reference that is not there.
    Nothing,
}

/// A place of a bracket, counted from 0, and whether a condition stands in it.
#[derive(Clone, Copy)]
pub struct Bracket {
    pub owner: Owner,
    pub place: u32,
    pub is_condition: bool,
}

/// Where an expression stands: its part of the statement; the last FROM item in sight, where not all are; whether it is
/// inside an aggregate; the innermost bracket of a rule around it; and whether it is the whole of that bracket's place.
#[derive(Clone, Copy)]
pub struct Position {
    pub part: Part,
    pub last_item: Option<u32>,
    pub in_aggregate: bool,
    pub bracket: Option<Bracket>,
    pub is_whole: bool,
}

/// A bound expression with its kind. An equality has the kind of its right side in `equated`, since in a single cell that is an index.
#[derive(Drop)]
pub struct Found {
    pub e: Expr,
    pub kind: ExprKind,
    pub equated: Option<ExprKind>,
}

/// A bound place of a bracket, as a test of its dimension, with `equated` as in `Found`.
#[derive(Drop)]
pub struct Placed {
    pub test: Test,
    pub equated: Option<ExprKind>,
}
