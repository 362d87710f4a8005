use crate::expression::{Expr, Test};
use mq_values::{DimTest, Items, Key, Kind, Mode, QueryFault, Refused, Value, ValueFault, Words};

/// The FROM items of a query, each with its ON condition where it has one, and WHERE (docs/MEANING.md, "Base rows").
#[derive(Drop)]
pub struct FromPart {
    pub tables: Items<Words>,
    pub ons: Items<Option<Expr>>,
    pub filter: Option<Expr>,
}

/// A column of a base row: the number of the FROM item, and that of the column in it.
#[derive(Clone, Copy)]
pub struct ColRef {
    pub item: u32,
    pub column: u32,
}

/// What is evaluated for each base row or, where `group` has the columns of GROUP BY, for each group
/// (docs/MEANING.md, "Items").
#[derive(Drop)]
pub struct ItemPart {
    pub group: Option<Items<ColRef>>,
    pub items: Items<Expr>,
}

/// A query without MODEL and without an order, as in FOR and in REFERENCE.
#[derive(Drop)]
pub struct PlainPart {
    pub from: FromPart,
    pub items: ItemPart,
}

/// A reference model: its dimensions and measures over the columns of its query, with the kinds of the dimensions
/// and then of the measures (docs/MEANING.md, "References").
#[derive(Drop)]
pub struct RefPart {
    pub source: PlainPart,
    pub dims: Items<Expr>,
    pub measures: Items<Expr>,
    pub kinds: Items<Kind>,
    pub ignore_nav: bool,
}

/// How often the rules run at most, and the condition that ends them earlier (docs/MEANING.md, "Iteration").
#[derive(Drop)]
pub struct Iterate {
    pub turns: u32,
    pub until: Option<Expr>,
}

/// The values of a FOR: those listed, or the rows of the FOR subquery of this number.
#[derive(Drop)]
pub enum ListSource {
    Values(Items<Items<Expr>>),
    Rows(u32),
}

/// A place of a left side: one value, a test, or values one after another.
#[derive(Drop)]
pub enum LeftItem {
    At(Expr),
    Sym(Test),
    List(ListSource),
    Steps {
        start: Expr,
        stop: Expr,
        step: Expr,
        down: bool,
    },
}

/// A left side: a place for each dimension, or one FOR that names them all, in this order.
#[derive(Drop)]
pub enum Left {
    Places(Items<LeftItem>),
    Tuples(Items<u32>, ListSource),
}

/// A rule: a measure of the cells that `left` names becomes the value of `right`. `order` has the dimensions of its
/// ORDER BY, each with whether it descends.
#[derive(Drop)]
pub struct Rule {
    pub mode: Mode,
    pub measure: u32,
    pub left: Left,
    pub order: Items<(u32, bool)>,
    pub right: Expr,
}

/// A MODEL clause. The items of its query are `parts` partition columns, then its dimensions, then its measures.
/// `lists` has its FOR subqueries in text order. `part_kinds` has the kinds of the partition columns, and `names` the
/// names of the measures.
#[derive(Drop)]
pub struct ModelPart {
    pub parts: u32,
    pub part_kinds: Items<Kind>,
    pub dims: Items<Kind>,
    pub measures: Items<Kind>,
    pub names: Items<Words>,
    pub ignore_nav: bool,
    pub updated_only: bool,
    pub auto: bool,
    pub iterate: Option<Iterate>,
    pub rules: Items<Rule>,
    pub refs: Items<RefPart>,
    pub lists: Items<PlainPart>,
}

/// A query. `print` and `order` number the columns of the model (partition columns, dimensions, measures) or, without
/// MODEL, the items; `order` says of each whether it descends.
#[derive(Drop)]
pub struct BoundQuery {
    pub from: FromPart,
    pub items: ItemPart,
    pub model: Option<ModelPart>,
    pub print: Items<u32>,
    pub order: Items<(u32, bool)>,
}

/// A reference as it was computed: its cells, ascending by their dimension tuples, each with its measures.
#[derive(Drop)]
pub struct RefArray {
    pub cells: Items<(Key, Key)>,
}

/// A lent MODEL clause with the rows of its FOR subqueries and its references as they were computed. Definitions see
/// it as `specs/Unfolding` has it, by `model_of`.
#[derive(Clone, Copy)]
pub struct Model<'a> {
    pub part: &'a ModelPart,
    pub lists: &'a [Items<Key>],
    pub refs: &'a [RefArray],
}

/// A left side without FOR: a value or a test for each dimension (docs/MEANING.md, "Left sides").
#[derive(Drop)]
pub struct SingleLeft {
    pub measure: u32,
    pub places: Items<SinglePlace>,
    pub order: Items<(u32, bool)>,
}

/// A place of a single left side.
#[derive(Drop)]
pub enum SinglePlace {
    At(Value),
    Sym(DimTest),
}

/// The input of a partition: its key, its cells ascending by their dimension tuples, and the least tuple that stands
/// twice (docs/MEANING.md, "Partitions").
#[derive(Drop)]
pub struct PartInput {
    pub key: Key,
    pub cells: Items<(Key, Key)>,
    pub repeated: Option<Key>,
}

/// What a model in automatic order does to a partition, without a value: the cells of its input, all cells in the end,
/// and what is assigned, as (cell, measure, rule), each ascending (docs/MEANING.md, "Automatic order").
#[derive(Drop)]
pub struct PartShape {
    pub base: Items<Key>,
    pub cells: Items<Key>,
    pub assigned: Items<(Key, u32, u32)>,
}

/// A cell of a result, and whether it was a target of a rule.
#[derive(Drop)]
pub struct OutCell {
    pub key: Key,
    pub measures: Key,
    pub updated: bool,
}

/// What the rules make of a partition: its cells, ascending, or the first fault.
#[derive(Drop)]
pub enum PartResult {
    Rows(Items<OutCell>),
    Fault(QueryFault),
}

/// A measure of a cell. Names are ordered by their keys, and then by their measures.
#[derive(Debug, Drop, PartialEq, Eq, PartialOrd, Ord)]
pub struct CellName {
    pub key: Key,
    pub measure: u32,
}

/// What a right side looks at: a measure of a cell, or whether a cell is in the input (docs/MEANING.md, "Looks").
/// Measures come before presences.
#[derive(Debug, Drop, PartialEq, Eq, PartialOrd, Ord)]
pub enum Look {
    Measure(CellName),
    Presence(Key),
}

/// What stands at an assigned measure: its value, the fault of its own evaluation, or that it looks at one that has
/// no value.
#[derive(Drop)]
pub enum Slot {
    Done(Value),
    Faulted(ValueFault),
    Poisoned,
}

/// A step of a derivation: a measure of a cell, the rule that assigns it, or `None` where none does, and what stands
/// there.
#[derive(Drop)]
pub struct DerivationStep {
    pub name: CellName,
    pub rule: Option<u32>,
    pub slot: Slot,
}

/// Where the value of a measure of a cell comes from, step by step; each step looks at earlier ones alone
/// (docs/MEANING.md, "Derivations").
#[derive(Drop)]
pub struct Derivation {
    pub steps: Items<DerivationStep>,
}

/// What explaining a cell gives: its derivation, the fault for which there is none, or that its partition or the cell is
/// not there (docs/MEANING.md, "Derivations").
#[derive(Drop)]
pub enum Explained {
    Steps(Derivation),
    Fault(QueryFault),
    NoPartition,
    NoCell,
}

/// What a comparison says of a scenario: the answer over its tables, or the number of its first refused change and the
/// refusal (docs/MEANING.md, "Scenarios").
#[derive(Drop)]
pub enum Compared {
    Shown(Answer),
    Stopped(u32, Refused),
}

/// What a query gives: its rows as they are printed, or its first fault (docs/MEANING.md, "Answers").
#[derive(Drop)]
pub enum Answer {
    Rows(RowList),
    Fault(QueryFault),
}

/// Rows in printed order.
pub type RowList = Items<Key>;
