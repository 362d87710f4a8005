//! The tokens of texts.

use crate::answers::Reply;
use crate::texts::text;
use mq_lexer::{Sort, Token, tokens};

fn sort_name(sort: Sort) -> &'static str {
    match sort {
        Sort::Word => "Word ",
        Sort::Number => "Number ",
        Sort::Text => "Text ",
        Sort::Sign => "Sign ",
        Sort::Bad => "Bad ",
    }
}

/// Each token with its sort, its line and its bytes.
pub(crate) fn spelled(field: &str, reply: &mut Reply) {
    let text = text(field, reply);
    if let Some(found) = reply.made(tokens(reply.alloc, text.as_str())) {
        add_tokens(&found, reply);
    }
}

fn add_tokens(found: &[Token<'_>], reply: &mut Reply) {
    reply.add_if(found.is_empty(), "none");
    for (at, token) in found.iter().enumerate() {
        reply.add_if(at > 0, "\t");
        reply.add(sort_name(token.sort));
        reply.number(token.line as u64);
        reply.add(" ");
        reply.bytes(token.text.as_bytes());
    }
}
