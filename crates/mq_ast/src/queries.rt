use crate::expressions::{E, Path};
use mq_values::{Items, Mode, Num, Words};

/// A query (docs/LANGUAGE.md, "Queries"): its plain part, its MODEL clause, and the keys of ORDER BY.
#[derive(Drop)]
pub struct Query {
    pub plain: Plain,
    pub model: Option<ModelTree>,
    pub order: Items<OrderKey>,
}

/// SELECT, FROM, WHERE and GROUP BY. With `star` the list `sels` is empty.
#[derive(Drop)]
pub struct Plain {
    pub star: bool,
    pub sels: Items<Sel>,
    pub froms: Items<FromItem>,
    pub filter: Option<E>,
    pub group: Items<Path>,
}

/// An item of a SELECT list, or of a list of columns of a model, with its alias.
#[derive(Drop)]
pub struct Sel {
    pub e: E,
    pub alias: Option<Words>,
}

/// A table of FROM, its alias, and the condition behind ON of a JOIN.
/// The first item, an item behind a comma and one behind CROSS JOIN have no condition.
#[derive(Drop)]
pub struct FromItem {
    pub table: Words,
    pub alias: Option<Words>,
    pub on: Option<E>,
}

/// A key of ORDER BY. `desc` says that DESC stands behind it.
#[derive(Drop)]
pub struct OrderKey {
    pub name: Words,
    pub desc: bool,
}

/// An option of a model or of a reference.
#[derive(Clone, Copy, PartialEq, Eq)]
pub enum Opt {
    IgnoreNav,
    KeepNav,
    UniqueDimension,
}

/// A MODEL clause (docs/LANGUAGE.md, "The MODEL clause").
#[derive(Drop)]
pub struct ModelTree {
    /// The options at MODEL.
    pub opts: Items<Opt>,
    /// The options behind MEASURES.
    pub main_opts: Items<Opt>,
    /// RETURN UPDATED ROWS.
    pub updated_only: bool,
    pub refs: Items<RefTree>,
    pub main: Option<Words>,
    pub parts: Items<Sel>,
    pub dims: Items<Sel>,
    pub measures: Items<Sel>,
    /// The mode at RULES.
    pub mode: Option<Mode>,
    /// AUTOMATIC ORDER.
    pub auto: bool,
    /// The number of turns, a number without a point.
    pub iterate: Option<Num>,
    pub until: Option<E>,
    pub rules: Items<RuleTree>,
}

/// A REFERENCE of a MODEL clause.
#[derive(Drop)]
pub struct RefTree {
    pub name: Words,
    pub query: Plain,
    pub dims: Items<Sel>,
    pub measures: Items<Sel>,
    pub opts: Items<Opt>,
}

/// A rule: the mode, the measure and its left side, the keys of ORDER BY, and the right side.
#[derive(Drop)]
pub struct RuleTree {
    pub mode: Option<Mode>,
    pub measure: Words,
    pub left: LeftTree,
    pub order: Items<OrderKey>,
    pub right: E,
}

/// What stands between the square brackets of a rule's left side.
#[derive(Drop)]
pub enum LeftTree {
    Places(Items<LeftPlace>),
    /// `FOR (dims) IN (list)`.
    Tuples { dims: Items<Words>, list: ForList },
}

/// A place of a left side.
#[derive(Drop)]
pub enum LeftPlace {
    Any,
    Expr(E),
    /// `FOR dim IN (list)`. In a list of values each value is a list of one.
    ForIn {
        dim: Words,
        list: ForList,
    },
    /// `FOR dim FROM start TO stop INCREMENT step`, or DECREMENT with `down`.
    ForRange {
        dim: Words,
        start: E,
        stop: E,
        step: E,
        down: bool,
    },
}

/// What a FOR goes through: values, or the rows of a query.
#[derive(Drop)]
pub enum ForList {
    Values(Items<Items<E>>),
    Rows(Plain),
}
