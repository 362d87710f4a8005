//! Bound expressions. Items, columns, measures, dimensions and references stand by their numbers.

use crate::notation::{Notation, Written};
use crate::pending::{Part, Pending};
use mq_ir::{Expr, Leaf, Test};

impl<'a> Pending<'a> {
    /// The node of an expression, whose parts are still to be written.
    pub fn bound(&mut self, e: &'a Expr, out: &mut Notation) {
        match e {
            Expr::Or(members) => self.list("or", members.as_slice(), out),
            Expr::And(members) => self.list("and", members.as_slice(), out),
            Expr::Not(e) => self.node("not", &[Part::Bound(e.get())], out),
            Expr::Sum(first, terms) => {
                self.list("sum", terms.as_slice(), out);
                self.put(Part::Bound(first.get()));
            }
            Expr::Prod(first, factors) => {
                self.list("prod", factors.as_slice(), out);
                self.put(Part::Bound(first.get()));
            }
            Expr::Neg(e) => self.node("neg", &[Part::Bound(e.get())], out),
            Expr::Lit(value) => value.write(out),
            Expr::Leaf(leaf) => self.leaf(leaf, out),
            _ => self.bound_test(e, out),
        }
    }

    fn bound_test(&mut self, e: &'a Expr, out: &mut Notation) {
        match e {
            Expr::Cmp(a, op, b) => {
                self.node("", &[Part::Bound(a.get()), Part::Bound(b.get())], out);
                out.add_shown("", op);
            }
            Expr::Between(e, not, low, high) => {
                let low = Part::Bound(low.get());
                let parts = [Part::Bound(e.get()), low, Part::Bound(high.get())];
                self.node("between", &parts, out);
                out.flag(*not, "not");
            }
            Expr::InList(e, not, members) => {
                self.list("in", members.as_slice(), out);
                self.put(Part::Bound(e.get()));
                out.flag(*not, "not");
            }
            Expr::IsNull(e, not) => {
                self.node("null", &[Part::Bound(e.get())], out);
                out.flag(*not, "not");
            }
            Expr::IsPresent(leaf, not) => {
                self.node("present", &[Part::Leaf(leaf)], out);
                out.flag(*not, "not");
            }
            _ => self.bound_call(e, out),
        }
    }

    fn bound_call(&mut self, e: &'a Expr, out: &mut Notation) {
        match e {
            Expr::Case(first, arms, other) => self.case(first, arms.as_slice(), other, out),
            Expr::Cast(e, kind) => {
                self.node("CAST:", &[Part::Bound(e.get())], out);
                out.add_shown("", kind);
            }
            Expr::Convert(e, kind) => {
                self.node("CONVERT:", &[Part::Bound(e.get())], out);
                out.add_shown("", kind);
            }
            Expr::Call(func, args) => {
                self.list("", args.as_slice(), out);
                out.add_shown("", func);
            }
            Expr::PresentV { present, yes, no } => {
                let (yes, no) = (Part::Bound(yes.get()), Part::Bound(no.get()));
                self.node("PRESENTV", &[Part::Leaf(present), yes, no], out);
            }
            Expr::PresentNnv {
                present,
                not_null,
                yes,
                no,
            } => {
                let (yes, no) = (Part::Bound(yes.get()), Part::Bound(no.get()));
                let parts = [Part::Leaf(present), Part::Leaf(not_null), yes, no];
                self.node("PRESENTNNV", &parts, out);
            }
            _ => {}
        }
    }

    /// A test of a dimension.
    pub fn test(&mut self, test: &'a Test, out: &mut Notation) {
        match test {
            Test::Any => out.word("?any"),
            Test::Null => out.word("?null"),
            Test::At(e) => self.node("?at", &[Part::Bound(e)], out),
            Test::Cmp(op, e) => {
                self.node("?", &[Part::Bound(e)], out);
                out.add_shown("", op);
            }
            Test::Between(low, high) => {
                self.node("?between", &[Part::Bound(low), Part::Bound(high)], out)
            }
            Test::In(members) => self.list("?in", members.as_slice(), out),
            Test::And(tests) => self.list("?and", tests.as_slice(), out),
            Test::Or(tests) => self.list("?or", tests.as_slice(), out),
            Test::Not(test) => self.node("?not", &[Part::Test(test.get())], out),
        }
    }

    /// What an expression reads from where it stands.
    pub fn leaf(&mut self, leaf: &'a Leaf, out: &mut Notation) {
        match leaf {
            Leaf::Column(item, column) => {
                out.word("COL");
                out.add_shown(":", item);
                out.add_shown(":", column);
            }
            Leaf::Cv(dim) => {
                out.word("CV");
                out.add_shown(":", dim);
            }
            Leaf::Turn => out.word("TURN"),
            Leaf::Range(agg, measure, tests) => {
                self.list("range", tests.as_slice(), out);
                out.add_shown(":", agg);
                out.add_shown(":", measure);
            }
            Leaf::GroupAgg(agg, None) => {
                self.node("group", &[], out);
                out.add_shown(":", agg);
            }
            Leaf::GroupAgg(agg, Some(e)) => {
                self.node("group", &[Part::Bound(e.get())], out);
                out.add_shown(":", agg);
            }
            _ => self.cell(leaf, out),
        }
    }

    fn cell(&mut self, leaf: &'a Leaf, out: &mut Notation) {
        match leaf {
            Leaf::Cell(measure, index) => {
                self.list("cell", index.as_slice(), out);
                out.add_shown(":", measure);
            }
            Leaf::NotNull(measure, index) => {
                self.list("set", index.as_slice(), out);
                out.add_shown(":", measure);
            }
            Leaf::Previous(measure, index) => {
                self.list("previous", index.as_slice(), out);
                out.add_shown(":", measure);
            }
            Leaf::RefCell(reference, measure, index) => {
                self.list("ref", index.as_slice(), out);
                out.add_shown(":", reference);
                out.add_shown(":", measure);
            }
            Leaf::Present(index) => self.list("in-input", index.as_slice(), out),
            _ => {}
        }
    }
}
