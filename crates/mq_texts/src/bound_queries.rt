//! Bound queries and their parts, rules among them.

use crate::notation::{Notation, Written};
use mq_ir::{
    BoundQuery, ColRef, FromPart, ItemPart, Iterate, Left, LeftItem, ListSource, ModelPart,
    PlainPart, RefPart, Rule,
};

impl Written for BoundQuery {
    fn write(&self, out: &mut Notation) {
        out.open("query");
        self.from.write(out);
        self.items.write(out);
        self.model.write(out);
        out.node("print", self.print.as_slice());
        out.node("order", self.order.as_slice());
        out.close();
    }
}

impl Written for PlainPart {
    fn write(&self, out: &mut Notation) {
        out.open("plain");
        self.from.write(out);
        self.items.write(out);
        out.close();
    }
}

/// The FROM items, each with its condition where it has one, and WHERE.
impl Written for FromPart {
    fn write(&self, out: &mut Notation) {
        out.open("from");
        for (table, on) in self.tables.as_slice().iter().zip(self.ons.as_slice()) {
            table.write(out);
            out.some("on", on);
        }
        out.close();
        out.some("where", &self.filter);
    }
}

impl Written for ItemPart {
    fn write(&self, out: &mut Notation) {
        if let Some(columns) = &self.group {
            out.open("group");
            out.all(columns.as_slice());
            out.close();
        }
        out.node("items", self.items.as_slice());
    }
}

impl Written for ColRef {
    fn write(&self, out: &mut Notation) {
        out.show(&self.item);
        out.add_shown(":", &self.column);
    }
}

impl Written for ModelPart {
    fn write(&self, out: &mut Notation) {
        out.open("model");
        out.show(&self.parts);
        out.node("parts", self.part_kinds.as_slice());
        out.node("dims", self.dims.as_slice());
        out.node("measures", self.measures.as_slice());
        out.node("names", self.names.as_slice());
        out.flag(self.ignore_nav, "ignore");
        out.flag(self.updated_only, "updated");
        out.flag(self.auto, "automatic");
        self.iterate.write(out);
        out.all(self.refs.as_slice());
        out.all(self.lists.as_slice());
        out.all(self.rules.as_slice());
        out.close();
    }
}

impl Written for Iterate {
    fn write(&self, out: &mut Notation) {
        out.open("iterate");
        out.show(&self.turns);
        out.some("until", &self.until);
        out.close();
    }
}

impl Written for RefPart {
    fn write(&self, out: &mut Notation) {
        out.open("reference");
        self.source.write(out);
        out.node("dims", self.dims.as_slice());
        out.node("measures", self.measures.as_slice());
        out.node("kinds", self.kinds.as_slice());
        out.flag(self.ignore_nav, "ignore");
        out.close();
    }
}

impl Written for Rule {
    fn write(&self, out: &mut Notation) {
        out.open("rule");
        self.mode.write(out);
        out.show(&self.measure);
        self.left.write(out);
        out.node("order", self.order.as_slice());
        self.right.write(out);
        out.close();
    }
}

impl Written for Left {
    fn write(&self, out: &mut Notation) {
        match self {
            Left::Places(items) => out.node("places", items.as_slice()),
            Left::Tuples(dims, source) => {
                out.open("tuples");
                out.node("dims", dims.as_slice());
                source.write(out);
                out.close();
            }
        }
    }
}

impl Written for LeftItem {
    fn write(&self, out: &mut Notation) {
        match self {
            LeftItem::At(e) => e.write(out),
            LeftItem::Sym(test) => test.write(out),
            LeftItem::List(source) => {
                out.open("for");
                source.write(out);
                out.close();
            }
            LeftItem::Steps {
                start,
                stop,
                step,
                down,
            } => {
                out.open("steps");
                out.flag(*down, "down");
                start.write(out);
                stop.write(out);
                step.write(out);
                out.close();
            }
        }
    }
}

impl Written for ListSource {
    fn write(&self, out: &mut Notation) {
        match self {
            ListSource::Values(rows) => out.all(rows.as_slice()),
            ListSource::Rows(n) => {
                out.word("list");
                out.add_shown(":", n);
            }
        }
    }
}

/// A key of an order, by the number of its column.
impl Written for (u32, bool) {
    fn write(&self, out: &mut Notation) {
        out.show(&self.0);
        out.flag(self.1, "desc");
    }
}
