//! Statements as they are read.

use crate::notation::{Notation, Written};
use mq_ast::{ChangeTree, ColDef, E, Stmt};
use mq_values::Words;

impl Written for Stmt {
    fn write(&self, out: &mut Notation) {
        match self {
            Stmt::CreateTable { name, cols, key } => {
                out.open("table");
                name.write(out);
                out.all(cols.as_slice());
                out.node("key", key.as_slice());
                out.close();
            }
            Stmt::DropTable { name } => out.pair("drop-table", name, &()),
            Stmt::CreateView { name, query } => out.pair("view", name, query),
            Stmt::DropView { name } => out.pair("drop-view", name, &()),
            Stmt::Show { name } => out.pair("show", name, &()),
            Stmt::Load { name, file } => out.pair("load", name, file),
            Stmt::Query(query) => query.write(out),
            Stmt::Change(change) => change.write(out),
            Stmt::Begin => out.word("begin"),
            Stmt::Commit => out.word("commit"),
            Stmt::Rollback => out.word("rollback"),
            _ => write_scenario(self, out),
        }
    }
}

// What scenarios are for, and a cell that is explained.
fn write_scenario(statement: &Stmt, out: &mut Notation) {
    match statement {
        Stmt::CreateScenario { name } => out.pair("scenario", name, &()),
        Stmt::DropScenario { name } => out.pair("drop-scenario", name, &()),
        Stmt::Under { scenario, change } => out.pair("under", scenario, change),
        Stmt::Compare { view, scenarios } => {
            out.open("compare");
            view.write(out);
            out.all(scenarios.as_slice());
            out.close();
        }
        Stmt::ExplainCell {
            view,
            measure,
            part,
            cell,
        } => {
            out.open("explain");
            view.write(out);
            measure.write(out);
            out.node("partition", part.as_slice());
            out.all(cell.as_slice());
            out.close();
        }
        _ => {}
    }
}

impl Written for ChangeTree {
    fn write(&self, out: &mut Notation) {
        match self {
            ChangeTree::Insert { name, cols, rows } => {
                out.open("insert");
                name.write(out);
                if let Some(columns) = cols {
                    out.node("columns", columns.as_slice());
                }
                out.all(rows.as_slice());
                out.close();
            }
            ChangeTree::Update { name, sets, filter } => {
                out.open("update");
                name.write(out);
                out.all(sets.as_slice());
                out.some("where", filter);
                out.close();
            }
            ChangeTree::Delete { name, filter } => {
                out.open("delete");
                name.write(out);
                out.some("where", filter);
                out.close();
            }
        }
    }
}

impl Written for ColDef {
    fn write(&self, out: &mut Notation) {
        out.open("column");
        self.name.write(out);
        self.kind.write(out);
        out.flag(self.not_null, "not-null");
        out.close();
    }
}

/// What a column is set to.
impl Written for (Words, E) {
    fn write(&self, out: &mut Notation) {
        out.pair("set", &self.0, &self.1);
    }
}
