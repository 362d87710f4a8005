//! Bound statements.

use crate::notation::{Notation, Written};
use mq_ir::{Bound, CellAsked, Change, Column, Expr, TableDef};

impl Written for Bound {
    fn write(&self, out: &mut Notation) {
        match self {
            Bound::CreateTable(def) => def.write(out),
            Bound::DropTable(name) => out.pair("drop-table", name, &()),
            Bound::CreateView(name, query) => out.pair("view", name, query),
            Bound::DropView(name) => out.pair("drop-view", name, &()),
            Bound::Change(change) => change.write(out),
            Bound::Load(name, file) => out.pair("load", name, file),
            Bound::Show(name) => out.pair("show", name, &()),
            Bound::Query(query) => query.write(out),
            Bound::Begin => out.word("begin"),
            Bound::Commit => out.word("commit"),
            Bound::Rollback => out.word("rollback"),
            Bound::CreateScenario(name) => out.pair("scenario", name, &()),
            Bound::DropScenario(name) => out.pair("drop-scenario", name, &()),
            Bound::Under(scenario, change) => out.pair("under", scenario, change),
            Bound::Compare(view, scenarios) => {
                out.open("compare");
                view.write(out);
                out.all(scenarios.as_slice());
                out.close();
            }
            Bound::ExplainCell(asked) => asked.write(out),
        }
    }
}

impl Written for CellAsked {
    fn write(&self, out: &mut Notation) {
        out.open("explain");
        self.view.write(out);
        out.show(&self.measure);
        out.node("partition", self.part.as_slice());
        out.all(self.cell.as_slice());
        out.close();
    }
}

impl Written for TableDef {
    fn write(&self, out: &mut Notation) {
        out.open("table");
        self.name.write(out);
        out.all(self.schema.cols.as_slice());
        out.node("key", self.schema.key.as_slice());
        out.close();
    }
}

impl Written for Column {
    fn write(&self, out: &mut Notation) {
        out.open("column");
        self.name.write(out);
        self.kind.write(out);
        out.flag(self.not_null, "not-null");
        out.close();
    }
}

impl Written for Change {
    fn write(&self, out: &mut Notation) {
        match self {
            Change::Insert { table, rows } => {
                out.open("insert");
                table.write(out);
                out.all(rows.as_slice());
                out.close();
            }
            Change::Update {
                table,
                sets,
                filter,
            } => {
                out.open("update");
                table.write(out);
                out.all(sets.as_slice());
                out.some("where", filter);
                out.close();
            }
            Change::Delete { table, filter } => {
                out.open("delete");
                table.write(out);
                out.some("where", filter);
                out.close();
            }
            Change::Append { table, .. } => table.write(out),
        }
    }
}

/// What a column is set to.
impl Written for (u32, Expr) {
    fn write(&self, out: &mut Notation) {
        out.pair("set", &self.0, &self.1);
    }
}
