//! Queries and their parts as they are read, rules among them.

use crate::notation::{Notation, Written};
use mq_ast::{
    ForList, FromItem, LeftPlace, LeftTree, ModelTree, Opt, OrderKey, Plain, Query, RefTree,
    RuleTree, Sel,
};
use mq_values::Mode;

impl Written for Query {
    fn write(&self, out: &mut Notation) {
        out.open("query");
        self.plain.write(out);
        self.model.write(out);
        out.all(self.order.as_slice());
        out.close();
    }
}

impl Written for Plain {
    fn write(&self, out: &mut Notation) {
        out.open("select");
        out.flag(self.star, "*");
        out.all(self.sels.as_slice());
        out.all(self.froms.as_slice());
        out.some("where", &self.filter);
        out.node("group", self.group.as_slice());
        out.close();
    }
}

impl Written for Sel {
    fn write(&self, out: &mut Notation) {
        match &self.alias {
            Some(alias) => {
                out.open("as");
                self.e.write(out);
                alias.write(out);
                out.close();
            }
            None => self.e.write(out),
        }
    }
}

impl Written for FromItem {
    fn write(&self, out: &mut Notation) {
        out.open("from");
        self.table.write(out);
        self.alias.write(out);
        out.some("on", &self.on);
        out.close();
    }
}

impl Written for OrderKey {
    fn write(&self, out: &mut Notation) {
        out.open("by");
        self.name.write(out);
        out.flag(self.desc, "desc");
        out.close();
    }
}

impl Written for ModelTree {
    fn write(&self, out: &mut Notation) {
        out.open("model");
        out.all(self.opts.as_slice());
        out.flag(self.updated_only, "updated");
        out.all(self.refs.as_slice());
        out.some("main", &self.main);
        out.node("parts", self.parts.as_slice());
        out.node("dims", self.dims.as_slice());
        out.node("measures", self.measures.as_slice());
        out.all(self.main_opts.as_slice());
        self.mode.write(out);
        out.flag(self.auto, "automatic");
        out.some("iterate", &self.iterate);
        out.some("until", &self.until);
        out.all(self.rules.as_slice());
        out.close();
    }
}

impl Written for Opt {
    fn write(&self, out: &mut Notation) {
        match self {
            Opt::IgnoreNav => out.word("ignore"),
            Opt::KeepNav => out.word("keep"),
            Opt::UniqueDimension => out.word("unique"),
        }
    }
}

impl Written for Mode {
    fn write(&self, out: &mut Notation) {
        out.show(self);
    }
}

impl Written for RefTree {
    fn write(&self, out: &mut Notation) {
        out.open("reference");
        self.name.write(out);
        self.query.write(out);
        out.node("dims", self.dims.as_slice());
        out.node("measures", self.measures.as_slice());
        out.all(self.opts.as_slice());
        out.close();
    }
}

impl Written for RuleTree {
    fn write(&self, out: &mut Notation) {
        out.open("rule");
        self.mode.write(out);
        self.measure.write(out);
        self.left.write(out);
        out.all(self.order.as_slice());
        self.right.write(out);
        out.close();
    }
}

impl Written for LeftTree {
    fn write(&self, out: &mut Notation) {
        match self {
            LeftTree::Places(places) => out.node("places", places.as_slice()),
            LeftTree::Tuples { dims, list } => {
                out.open("tuples");
                out.node("dims", dims.as_slice());
                list.write(out);
                out.close();
            }
        }
    }
}

impl Written for LeftPlace {
    fn write(&self, out: &mut Notation) {
        match self {
            LeftPlace::Any => out.word("ANY"),
            LeftPlace::Expr(e) => e.write(out),
            LeftPlace::ForIn { dim, list } => {
                out.open("for");
                dim.write(out);
                list.write(out);
                out.close();
            }
            LeftPlace::ForRange {
                dim,
                start,
                stop,
                step,
                down,
            } => {
                out.open("steps");
                out.flag(*down, "down");
                dim.write(out);
                start.write(out);
                stop.write(out);
                step.write(out);
                out.close();
            }
        }
    }
}

impl Written for ForList {
    fn write(&self, out: &mut Notation) {
        match self {
            ForList::Values(rows) => out.all(rows.as_slice()),
            ForList::Rows(query) => query.write(out),
        }
    }
}
