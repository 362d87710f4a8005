//! A run of a script statement by statement: behind each what is kept of a view, and how much was read of that so far.

use crate::heads::ask;
use crate::shows::{add_kept, add_last, add_lines};
use crate::texts::joined;
use mq_engine::Engine;
use mq_io::{MapShelf, OpenGate};
use mq_lexer::{Statement, statements, tokens};
use mq_tool::do_statement;
use mq_values::Memory;
use std::alloc::Global;
use std::thread::Threads;

const WORKERS: u32 = 4;

/// What a row asks to be shown: its head, the view that is watched, and how many statements of a base come before the row's own.
#[derive(Drop)]
struct Watch<'a> {
    head: &'a str,
    view: &'a str,
    hidden: usize,
}

/// The lines of each statement, or the last of them alone where the head asks for that, and what is kept of the view behind them. Those of
/// the base are not shown.
pub(crate) fn add_watched<R: Threads + Sync>(
    rt: &R,
    alloc: Global,
    head: &str,
    view: &str,
    base: &[u8],
    script: &[u8],
    answer: &mut Vec<u8>,
) -> Result<(), Memory> {
    let whole = joined(alloc, base, script)?;
    let hidden = count_of(alloc, base)?;
    let watch = Watch { head, view, hidden };
    add_script(rt, alloc, &watch, text_of(&whole), answer)
}

fn add_script<R: Threads + Sync>(
    rt: &R,
    alloc: Global,
    watch: &Watch<'_>,
    script: &str,
    answer: &mut Vec<u8>,
) -> Result<(), Memory> {
    let tokens = tokens(alloc, script)?;
    let statements = statements(alloc, &tokens)?;
    let mut engine = Engine::new(alloc, WORKERS);
    add_statements(rt, alloc, watch, &statements, &mut engine, answer)
}

fn add_statements<R: Threads + Sync>(
    rt: &R,
    alloc: Global,
    watch: &Watch<'_>,
    statements: &[Statement<'_, '_>],
    engine: &mut Engine,
    answer: &mut Vec<u8>,
) -> Result<(), Memory> {
    for (number, statement) in statements.iter().enumerate() {
        let lines = lines_of(rt, alloc, engine, statement)?;
        if number >= watch.hidden {
            add_lines_of(watch, &lines, answer)?;
            add_kept(engine.kept(watch.view), engine.reads(), answer)?;
        }
    }
    Ok(())
}

// Does a statement, which finds no files, and answers its lines.
fn lines_of<R: Threads + Sync>(
    rt: &R,
    alloc: Global,
    engine: &mut Engine,
    statement: &Statement<'_, '_>,
) -> Result<Vec<u8>, Memory> {
    let mut files = MapShelf::new(Vec::new(alloc), Vec::new(alloc));
    let mut lines = Vec::new(alloc);
    match do_statement(
        rt, alloc, engine, statement, &mut files, &mut lines, &OpenGate,
    ) {
        Ok(_) => Ok(lines),
        Err(_) => Err(Memory),
    }
}

fn add_lines_of(watch: &Watch<'_>, lines: &[u8], answer: &mut Vec<u8>) -> Result<(), Memory> {
    if ask(watch.head, "last").is_some() {
        add_last(lines, 0, answer)
    } else {
        add_lines(lines, 0, answer)
    }
}

// How many statements a script has.
fn count_of(alloc: Global, script: &[u8]) -> Result<usize, Memory> {
    let tokens = tokens(alloc, text_of(script))?;
    Ok(statements(alloc, &tokens)?.len())
}

// The text of a script, which is one.
fn text_of(script: &[u8]) -> &str {
    str::from_utf8(script).unwrap_or("")
}
