//! Expressions as they are read.

use crate::notation::{Notation, Written};
use crate::pending::{Part, Pending};
use mq_ast::E;

impl<'a> Pending<'a> {
    /// The node of an expression, whose parts are still to be written.
    pub fn tree(&mut self, e: &'a E, out: &mut Notation) {
        match e {
            E::Or(members) => self.list("or", members.as_slice(), out),
            E::And(members) => self.list("and", members.as_slice(), out),
            E::Not(e) => self.node("not", &[Part::Tree(e.get())], out),
            E::Sum(first, terms) => {
                self.list("sum", terms.as_slice(), out);
                self.put(Part::Tree(first.get()));
            }
            E::Prod(first, factors) => {
                self.list("prod", factors.as_slice(), out);
                self.put(Part::Tree(first.get()));
            }
            E::Neg(e) => self.node("neg", &[Part::Tree(e.get())], out),
            E::Lit(value) => value.write(out),
            E::Name(path) => path.write(out),
            E::Cell(path, places) => {
                self.list("cell", places.as_slice(), out);
                path.write(out);
            }
            E::CountAll => out.word("COUNT(*)"),
            E::Turn => out.word("TURN"),
            _ => self.test_tree(e, out),
        }
    }

    fn test_tree(&mut self, e: &'a E, out: &mut Notation) {
        match e {
            E::Cmp(a, op, b) => {
                self.node("", &[Part::Tree(a.get()), Part::Tree(b.get())], out);
                out.add_shown("", op);
            }
            E::Between(e, not, low, high) => {
                let low = Part::Tree(low.get());
                let parts = [Part::Tree(e.get()), low, Part::Tree(high.get())];
                self.node("between", &parts, out);
                out.flag(*not, "not");
            }
            E::InList(e, not, members) => {
                self.list("in", members.as_slice(), out);
                self.put(Part::Tree(e.get()));
                out.flag(*not, "not");
            }
            E::IsNull(e, not) => {
                self.node("null", &[Part::Tree(e.get())], out);
                out.flag(*not, "not");
            }
            E::IsPresent(e, not) => {
                self.node("present", &[Part::Tree(e.get())], out);
                out.flag(*not, "not");
            }
            E::IsAny(e) => self.node("is-any", &[Part::Tree(e.get())], out),
            _ => self.call_tree(e, out),
        }
    }

    fn call_tree(&mut self, e: &'a E, out: &mut Notation) {
        match e {
            E::Agg(agg, e) => {
                self.node("", &[Part::Tree(e.get())], out);
                out.add_shown("", agg);
            }
            E::RangeAgg(agg, name, places) => {
                self.list("range:", places.as_slice(), out);
                out.add_shown("", agg);
                name.write(out);
            }
            E::Case(first, arms, other) => self.case(first, arms.as_slice(), other, out),
            E::Cast(e, kind) => {
                self.node("CAST:", &[Part::Tree(e.get())], out);
                out.add_shown("", kind);
            }
            E::Call(func, args) => {
                self.list("", args.as_slice(), out);
                out.add_shown("", func);
            }
            E::Cv(name) => {
                out.open("CV");
                name.write(out);
                out.close();
            }
            E::Previous(e) => self.node("PREVIOUS", &[Part::Tree(e.get())], out),
            E::PresentV(args) => self.list("PRESENTV", args.as_slice(), out),
            E::PresentNnv(args) => self.list("PRESENTNNV", args.as_slice(), out),
            _ => {}
        }
    }
}
