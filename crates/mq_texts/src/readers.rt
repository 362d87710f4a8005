//! What can be asked of a text, and what comes of it.

use crate::notation::{Notation, Written};
use mq_ast::Stmt;
use mq_binder::bind;
use mq_ir::{Bound, Catalog};
use mq_lexer::Token;
use mq_parse_expr::{read_expr, read_exprs, read_round, read_tuple};
use mq_parse_query::{Naming, Row, read_list, read_query, read_where};
use mq_parse_stmt::parse;
use mq_parse_words::{read_int, read_kind, read_name, read_path, read_text};
use mq_render::refusal_text;
use mq_values::{Boxed, Fail, Refused};
use std::alloc::Global;

/// Writes what a statement is bound to, or what the reader of this name gives for the tokens from the first on.
pub(crate) fn read(asked: &str, known: &Catalog, t: &[Token<'_>], out: &mut Notation) {
    let (alloc, len) = (out.alloc, t.len());
    match asked {
        "bound" => whole(bound(alloc, known, t), out),
        "statement" => whole(parse(alloc, t), out),
        "query" => front(read_query(alloc, t, 0), len, out),
        "where" => front(read_where(alloc, t, 0), len, out),
        "names" => front(read_list::<Naming>(alloc, t, 0), len, out),
        "rows" => front(read_list::<Row>(alloc, t, 0), len, out),
        "expression" => front(read_expr(alloc, t, 0), len, out),
        "expressions" => front(read_exprs(alloc, t, 0), len, out),
        "tuple" => front(read_tuple(alloc, t, 0), len, out),
        "brackets" => front(read_round(alloc, t, 0), len, out),
        "name" => front(read_name(alloc, t, 0), len, out),
        "text" => front(read_text(alloc, t, 0), len, out),
        "path" => front(read_path(alloc, t, 0), len, out),
        "integer" => front(read_int(t, 0), len, out),
        "kind" => front(read_kind(t, 0), len, out),
        _ => out.add("unknown"),
    }
}

/// What all tokens are read as or bound to, or the refusal.
pub(crate) fn whole<T: Written + Drop, R: Written + Drop>(found: Result<T, R>, out: &mut Notation) {
    match &found {
        Ok(form) => form.write(out),
        Err(refused) => refused.write(out),
    }
}

// What the first tokens are read as, and how many are left behind them, where there are any; or the refusal.
fn front<T: Written + Drop, R: Written + Drop>(
    found: Result<(T, usize), R>,
    len: usize,
    out: &mut Notation,
) {
    match &found {
        Ok((tree, to)) => {
            tree.write(out);
            if *to < len {
                out.add_shown("\t", &(len - *to));
                out.add(" left");
            }
        }
        Err(refused) => refused.write(out),
    }
}

/// What a statement is bound to.
pub(crate) fn bound(
    alloc: Global,
    known: &Catalog,
    t: &[Token<'_>],
) -> Result<Bound, Fail<Refused>> {
    let statement = statement(alloc, t)?;
    bind(alloc, known, statement.get())
}

// The statement on the heap, so that it is one word where it is bound.
fn statement(alloc: Global, t: &[Token<'_>]) -> Result<Boxed<Stmt>, Fail<Refused>> {
    Ok(Boxed::new(alloc, parse(alloc, t)?)?)
}

/// The refusal as a script of one line prints it, without the end of the line.
impl Written for Fail<Refused> {
    fn write(&self, out: &mut Notation) {
        match self {
            Fail::Cause(refused) => {
                let done = refusal_text(1, refused, &mut out.text);
                out.note(done);
                out.text.pop();
            }
            Fail::Memory => out.is_lacking = true,
        }
    }
}
