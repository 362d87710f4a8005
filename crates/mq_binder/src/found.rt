//! What the walk over a statement has found of its parts.

use mq_bind_scopes::{ExprKind, Named, Printed, ReferenceNames, RowColumn, Scope};
use mq_ir::{
    ColRef, Expr, FromPart, Left, LeftItem, ListSource, ModelPart, PlainPart, RefPart, Rule,
};
use mq_values::{Boxed, Items, Kind, Words};

/// FROM items: their tables, their aliases, and all their columns in order.
#[derive(Drop)]
pub struct Sources {
    pub tables: Items<Words>,
    pub aliases: Items<Words>,
    pub columns: Items<RowColumn>,
}

/// What stands before the items of a query: its rows, on the heap so that they are one word beside steps that may fail,
/// what names mean over them, and the columns of GROUP BY.
#[derive(Drop)]
pub struct Base {
    pub from: Boxed<FromPart>,
    pub scope: Scope,
    pub cols: Items<ColRef>,
}

/// A query without MODEL and without an order, with its printed columns.
#[derive(Drop)]
pub struct PlainFound {
    pub part: PlainPart,
    pub printed: Items<Printed>,
}

/// An item of a list of a model or of a reference.
#[derive(Drop)]
pub struct ListItem {
    pub e: Expr,
    pub column: Named,
    pub kind: Kind,
}

/// The three lists of a model.
#[derive(Drop)]
pub struct Lists {
    pub parts: Items<ListItem>,
    pub dims: Items<ListItem>,
    pub measures: Items<ListItem>,
}

/// A reference, and what rules may name of it.
#[derive(Drop)]
pub struct ReferenceFound {
    pub part: RefPart,
    pub names: ReferenceNames,
}

/// What a FOR goes through, with the kinds of its values row by row, and the subqueries of the model's FORs up to here.
#[derive(Drop)]
pub struct ListFound {
    pub source: ListSource,
    pub kinds: Items<Items<ExprKind>>,
    pub lists: Items<PlainPart>,
}

/// A place of a left side, and the subqueries of the model's FORs up to here.
#[derive(Drop)]
pub struct LeftItemFound {
    pub item: LeftItem,
    pub lists: Items<PlainPart>,
}

/// A left side, likewise.
#[derive(Drop)]
pub struct LeftFound {
    pub left: Left,
    pub lists: Items<PlainPart>,
}

/// Rules, likewise.
#[derive(Drop)]
pub struct RulesFound {
    pub rules: Items<Rule>,
    pub lists: Items<PlainPart>,
}

/// A MODEL clause: its bound form, the items of its query, its columns, and the columns of GROUP BY where the query is grouped.
#[derive(Drop)]
pub struct ModelFound {
    pub part: ModelPart,
    pub items: Items<Expr>,
    pub columns: Items<Named>,
    pub group: Option<Items<ColRef>>,
}
