//! Expressions are written from a list of what is still to be written, so that no call nests as deep as the tree.

use crate::notation::{Notation, Written};
use mq_ast::{Arm, E, Place, ProdTerm, SumTerm};
use mq_ir::{BoundArm, BoundProd, BoundSum, Expr, Leaf, Test};
use mq_values::{Boxed, ProdOp, SumOp};

/// What is still to be written of an expression, bound or not.
#[derive(Clone, Copy)]
pub(crate) enum Part<'a> {
    Close,
    Word(&'static str),
    Open(&'static str),
    OpenSum(SumOp),
    OpenProd(ProdOp),
    Tree(&'a E),
    Bound(&'a Expr),
    Leaf(&'a Leaf),
    Test(&'a Test),
}

/// What is still to be written, the next part last.
#[derive(Drop)]
pub(crate) struct Pending<'a> {
    parts: Vec<Part<'a>>,
    is_lacking: bool,
}

/// A member of a list, put before what is still to be written.
pub(crate) trait Listed {
    fn put<'a>(&'a self, pending: &mut Pending<'a>);
}

fn write(first: Part<'_>, out: &mut Notation) {
    let mut pending = Pending {
        parts: Vec::new(out.alloc),
        is_lacking: false,
    };
    pending.put(first);
    // Each part is taken once, and there are far fewer.
    for _ in 0..u64::MAX {
        match pending.parts.pop() {
            Some(part) => pending.part(part, out),
            None => break,
        }
    }
    if pending.is_lacking {
        out.is_lacking = true;
    }
}

impl<'a> Pending<'a> {
    pub fn put(&mut self, part: Part<'a>) {
        if self.parts.push(part).is_err() {
            self.is_lacking = true;
        }
    }

    /// These parts come before what is still to be written.
    pub fn parts(&mut self, parts: &[Part<'a>]) {
        for part in parts.iter().rev() {
            self.put(*part);
        }
    }

    /// The members of a node and the end of it.
    pub fn members<T: Listed>(&mut self, members: &'a [T]) {
        self.put(Part::Close);
        for member in members.iter().rev() {
            member.put(self);
        }
    }

    pub fn list<T: Listed>(&mut self, head: &str, members: &'a [T], out: &mut Notation) {
        out.open(head);
        self.members(members);
    }

    pub fn node(&mut self, head: &str, parts: &[Part<'a>], out: &mut Notation) {
        out.open(head);
        self.put(Part::Close);
        self.parts(parts);
    }

    pub fn case<T: Listed, A: Listed>(
        &mut self,
        first: &'a Option<Boxed<T>>,
        arms: &'a [A],
        other: &'a Option<Boxed<T>>,
        out: &mut Notation,
    ) {
        out.open("CASE");
        self.put(Part::Close);
        if let Some(e) = other {
            self.put(Part::Close);
            e.get().put(self);
            self.put(Part::Open("else"));
        }
        for arm in arms.iter().rev() {
            arm.put(self);
        }
        if let Some(e) = first {
            e.get().put(self);
        }
    }

    fn part(&mut self, part: Part<'a>, out: &mut Notation) {
        match part {
            Part::Close => out.close(),
            Part::Word(word) => out.word(word),
            Part::Open(head) => out.open(head),
            Part::OpenSum(op) => {
                out.open("");
                out.add_shown("", &op);
            }
            Part::OpenProd(op) => {
                out.open("");
                out.add_shown("", &op);
            }
            Part::Tree(e) => self.tree(e, out),
            Part::Bound(e) => self.bound(e, out),
            Part::Leaf(leaf) => self.leaf(leaf, out),
            Part::Test(test) => self.test(test, out),
        }
    }
}

impl Written for E {
    fn write(&self, out: &mut Notation) {
        write(Part::Tree(self), out);
    }
}

impl Written for Expr {
    fn write(&self, out: &mut Notation) {
        write(Part::Bound(self), out);
    }
}

impl Written for Test {
    fn write(&self, out: &mut Notation) {
        write(Part::Test(self), out);
    }
}

impl Listed for E {
    fn put<'a>(&'a self, pending: &mut Pending<'a>) {
        pending.put(Part::Tree(self));
    }
}

impl Listed for Place {
    fn put<'a>(&'a self, pending: &mut Pending<'a>) {
        match self {
            Place::Any => pending.put(Part::Word("ANY")),
            Place::Expr(e) => pending.put(Part::Tree(e)),
        }
    }
}

impl Listed for SumTerm {
    fn put<'a>(&'a self, pending: &mut Pending<'a>) {
        pending.parts(&[Part::OpenSum(self.op), Part::Tree(&self.e), Part::Close]);
    }
}

impl Listed for ProdTerm {
    fn put<'a>(&'a self, pending: &mut Pending<'a>) {
        pending.parts(&[Part::OpenProd(self.op), Part::Tree(&self.e), Part::Close]);
    }
}

impl Listed for Arm {
    fn put<'a>(&'a self, pending: &mut Pending<'a>) {
        let (test, value) = (Part::Tree(&self.test), Part::Tree(&self.value));
        pending.parts(&[Part::Open("when"), test, value, Part::Close]);
    }
}

impl Listed for Expr {
    fn put<'a>(&'a self, pending: &mut Pending<'a>) {
        pending.put(Part::Bound(self));
    }
}

impl Listed for Test {
    fn put<'a>(&'a self, pending: &mut Pending<'a>) {
        pending.put(Part::Test(self));
    }
}

impl Listed for BoundSum {
    fn put<'a>(&'a self, pending: &mut Pending<'a>) {
        pending.parts(&[Part::OpenSum(self.op), Part::Bound(&self.e), Part::Close]);
    }
}

impl Listed for BoundProd {
    fn put<'a>(&'a self, pending: &mut Pending<'a>) {
        pending.parts(&[Part::OpenProd(self.op), Part::Bound(&self.e), Part::Close]);
    }
}

impl Listed for BoundArm {
    fn put<'a>(&'a self, pending: &mut Pending<'a>) {
        let (test, value) = (Part::Bound(&self.test), Part::Bound(&self.value));
        pending.parts(&[Part::Open("when"), test, value, Part::Close]);
    }
}
