//! Shows what texts are read as and bound to: a table comes in on standard input, a row a line, each with what is asked.
//! Out comes each line with the tree, the bound form or the refusal. It is how the parsers and the binder are tested.
//! It has no contracts: what it writes is compared with a table that was worked out by hand.
#![tactic(auto)]

mod bound;
mod bound_queries;
mod bound_statements;
mod notation;
mod pending;
mod queries;
mod readers;
mod rows;
mod statements;
mod trees;

use mq_ir::{ByName, Catalog};
use notation::Notation;
use std::alloc::AllocError;
use std::io::{self, Write};

fn main(rt: HostRuntime) -> io::Result<()> {
    let mut out = io::writer(&rt);
    let mut known = Catalog {
        tables: ByName::new(rt.alloc()),
        views: ByName::new(rt.alloc()),
        scenarios: ByName::new(rt.alloc()),
    };
    for line in rt.lines(rt.alloc()) {
        let mut answer = Notation::new(rt.alloc());
        rows::answer(&mut known, line?.as_str(), &mut answer);
        if answer.is_lacking {
            return Err(AllocError.into());
        }
        out.write_all(&answer.text)?;
    }
    Ok(())
}
