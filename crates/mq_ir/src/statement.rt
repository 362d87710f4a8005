use crate::expression::Expr;
use crate::query::BoundQuery;
use mq_values::{Items, Key, Kind, Words};

/// The values of a row, one for each column.
pub type Row = Key;

/// A column of a table. `not_null` is true also for each column of the key.
#[derive(Drop)]
pub struct Column {
    pub name: Words,
    pub kind: Kind,
    pub not_null: bool,
}

/// The columns of a table, in order, and the numbers of those that PRIMARY KEY names, in its order.
#[derive(Drop)]
pub struct Schema {
    pub cols: Items<Column>,
    pub key: Items<u32>,
}

/// A table to be created.
#[derive(Drop)]
pub struct TableDef {
    pub name: Words,
    pub schema: Schema,
}

/// A change of the rows of a table (docs/MEANING.md, "Changes"). The rows of `Insert` have an expression for each
/// column, those of `Append` are rows of the table already.
#[derive(Drop)]
pub enum Change {
    Insert {
        table: Words,
        rows: Items<Items<Expr>>,
    },
    Append {
        table: Words,
        rows: Items<Row>,
    },
    Update {
        table: Words,
        sets: Items<(u32, Expr)>,
        filter: Option<Expr>,
    },
    Delete {
        table: Words,
        filter: Option<Expr>,
    },
}

/// A cell of a view, to be explained: the number of its measure, and the values of the columns of its partition and of
/// its dimensions (docs/MEANING.md, "Derivations").
#[derive(Drop)]
pub struct CellAsked {
    pub view: Words,
    pub measure: u32,
    pub part: Items<Expr>,
    pub cell: Items<Expr>,
}

/// A statement whose names are bound under a catalog (docs/MEANING.md, "Statements"). `Load` has the table and the
/// file, `Under` the scenario and the change that it takes in, `Compare` the view and the scenarios.
#[derive(Drop)]
pub enum Bound {
    CreateTable(TableDef),
    DropTable(Words),
    CreateView(Words, BoundQuery),
    DropView(Words),
    Change(Change),
    Load(Words, Words),
    Show(Words),
    Query(BoundQuery),
    Begin,
    Commit,
    Rollback,
    CreateScenario(Words),
    DropScenario(Words),
    Under(Words, Change),
    Compare(Words, Items<Words>),
    ExplainCell(CellAsked),
}
