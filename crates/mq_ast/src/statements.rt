use crate::expressions::E;
use crate::queries::Query;
use mq_values::{Items, Kind, Words};

/// A statement (docs/LANGUAGE.md, "Statements"). The names are the words as they are spelled.
#[derive(Drop)]
pub enum Stmt {
    /// Without PRIMARY KEY the list `key` is empty.
    CreateTable {
        name: Words,
        cols: Items<ColDef>,
        key: Items<Words>,
    },
    DropTable {
        name: Words,
    },
    CreateView {
        name: Words,
        query: Query,
    },
    DropView {
        name: Words,
    },
    Change(ChangeTree),
    Load {
        name: Words,
        file: Words,
    },
    Show {
        name: Words,
    },
    Query(Query),
    Begin,
    Commit,
    Rollback,
    CreateScenario {
        name: Words,
    },
    DropScenario {
        name: Words,
    },
    /// A change that a scenario takes in.
    Under {
        scenario: Words,
        change: ChangeTree,
    },
    Compare {
        view: Words,
        scenarios: Items<Words>,
    },
    /// Without PARTITION the list `part` is empty.
    ExplainCell {
        view: Words,
        measure: Words,
        part: Items<E>,
        cell: Items<E>,
    },
}

/// A change of the rows of a table.
#[derive(Drop)]
pub enum ChangeTree {
    Insert {
        name: Words,
        cols: Option<Items<Words>>,
        rows: Items<Items<E>>,
    },
    Update {
        name: Words,
        sets: Items<(Words, E)>,
        filter: Option<E>,
    },
    Delete {
        name: Words,
        filter: Option<E>,
    },
}

/// A column of CREATE TABLE. A scale above 255 stands as 255.
#[derive(Drop)]
pub struct ColDef {
    pub name: Words,
    pub kind: Kind,
    pub not_null: bool,
}
