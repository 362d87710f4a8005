//! Statements, read and bound under the tables that are there, and models. A tree stays on the heap, in the hands of one function
//! that lends it.

use crate::answers::Reply;
use crate::texts::cells;
use mq_ast::Stmt;
use mq_binder::bind;
use mq_ir::{Bound, Catalog, Change, FromPart, Model, ModelPart, RefArray, TableDef};
use mq_lexer::tokens;
use mq_parse_stmt::parse;
use mq_values::{Boxed, Fail, Refused};
use std::alloc::Global;

/// The text of a query up to its rules, and its references as they were set.
#[derive(Drop)]
pub(crate) struct Front {
    text: String,
    refs: Vec<RefArray>,
}

impl Front {
    pub fn new(alloc: Global) -> Front {
        Front {
            text: String::new(alloc),
            refs: Vec::new(alloc),
        }
    }

    /// Takes this as the text of a query up to its rules. Its references are still to come.
    pub fn set(&mut self, text: &str, reply: &mut Reply) {
        self.text.clear();
        self.refs.clear();
        reply.note(self.text.push_str(text));
    }

    /// Takes these cells as those of the next reference.
    pub fn add_reference(&mut self, text: &str, reply: &mut Reply) {
        let cells = cells(text, reply);
        reply.note(self.refs.push(RefArray { cells }));
    }

    /// What the query with these rules is bound to.
    pub fn query(&self, known: &Catalog, rules: &str, reply: &mut Reply) -> Option<Boxed<Bound>> {
        let mut text = String::new(reply.alloc);
        reply.note(text.push_str(self.text.as_str()));
        reply.note(text.push_str(rules));
        reply.note(text.push(')'));
        bound(known, text.as_str(), reply)
    }

    /// The model with the references that were set.
    pub fn model_of<'a>(&'a self, part: &'a ModelPart) -> Model<'a> {
        Model {
            part,
            lists: &[],
            refs: &self.refs,
        }
    }
}

// On the heap. It is generic, so that no tree is looked into.
fn boxed<T: Drop>(
    alloc: Global,
    read: Result<T, Fail<Refused>>,
) -> Result<Boxed<T>, Fail<Refused>> {
    Ok(Boxed::new(alloc, read?)?)
}

fn statement_of(alloc: Global, text: &str) -> Result<Boxed<Stmt>, Fail<Refused>> {
    let found = tokens(alloc, text)?;
    boxed(alloc, parse(alloc, &found))
}

fn bound_under(alloc: Global, c: &Catalog, text: &str) -> Result<Boxed<Bound>, Fail<Refused>> {
    let statement = statement_of(alloc, text)?;
    boxed(alloc, bind(alloc, c, statement.get()))
}

/// What the statement is bound to.
pub(crate) fn bound(known: &Catalog, text: &str, reply: &mut Reply) -> Option<Boxed<Bound>> {
    let found = reply.found(bound_under(reply.alloc, known, text));
    reply.read(found)
}

/// The table of a CREATE TABLE.
pub(crate) fn table_of(bound: Bound) -> Option<TableDef> {
    match bound {
        Bound::CreateTable(def) => Some(def),
        other => none_of(other),
    }
}

// Lets go of another form. It is generic, so that no tree is looked into.
fn none_of<T: Drop, U>(_other: T) -> Option<U> {
    None
}

/// The change that a statement makes.
pub(crate) fn change_of(bound: &Bound) -> Option<&Change> {
    match bound {
        Bound::Change(change) => Some(change),
        _ => None,
    }
}

/// The FROM items of a query.
pub(crate) fn from_of(bound: &Bound) -> Option<&FromPart> {
    match bound {
        Bound::Query(query) => Some(&query.from),
        _ => None,
    }
}

/// The model of a query.
pub(crate) fn part_of(bound: &Bound) -> Option<&ModelPart> {
    match bound {
        Bound::Query(query) => query.model.as_ref(),
        _ => None,
    }
}
