//! The table, line by line: a line `## name` begins a row, and the lines behind it are its script. A line that begins
//! with one sign `#` is a comment.

use crate::heads::{ask, count, name_of};
use crate::rules::add_by_rule;
use crate::runs::run_script;
use crate::shows::{add_last, add_lines, add_met, add_status, lines};
use crate::texts::{bytes_of, joined};
use crate::watches::add_watched;
use mq_values::Memory;
use std::alloc::Global;
use std::thread::Threads;

/// The row that is being read, and the scripts of those before it that have been named as bases.
#[derive(Drop)]
pub(crate) struct Table {
    head: String,
    text: String,
    breaks: usize,
    open: bool,
    bases: Vec<(String, Vec<u8>)>,
    files: Vec<(String, Vec<u8>)>,
}

impl Table {
    pub fn new(alloc: Global) -> Table {
        Table {
            head: String::new(alloc),
            text: String::new(alloc),
            breaks: 0,
            open: false,
            bases: Vec::new(alloc),
            files: Vec::new(alloc),
        }
    }
}

/// What a line makes known: the answer of the row before, where it begins a new one.
pub(crate) fn answered<R: Threads + Sync>(
    rt: &R,
    alloc: Global,
    table: &mut Table,
    line: &str,
) -> Result<Vec<u8>, Memory> {
    if let Some(head) = line.strip_prefix("## ") {
        let answer = ended(rt, alloc, table)?;
        table.head.clear();
        table.head.push_str(head)?;
        table.text.clear();
        table.breaks = 0;
        table.open = true;
        return Ok(answer);
    }
    if !line.starts_with('#') {
        add_line(table, line)?;
    }
    Ok(Vec::new(alloc))
}

// Empty lines at the end are no part of a script, and so is the end of its last line.
fn add_line(table: &mut Table, line: &str) -> Result<(), Memory> {
    if !line.is_empty() {
        for _ in 0..table.breaks {
            table.text.push('\n')?;
        }
        table.text.push_str(line)?;
        table.breaks = 0;
    }
    table.breaks = table.breaks.wrapping_add(1);
    Ok(())
}

/// The answer of the last row.
pub(crate) fn ended<R: Threads + Sync>(
    rt: &R,
    alloc: Global,
    table: &mut Table,
) -> Result<Vec<u8>, Memory> {
    let mut answer = Vec::new(alloc);
    if table.open {
        let bytes = bytes_of(alloc, table.head.as_str(), table.text.as_str())?;
        if ask(table.head.as_str(), "file").is_some() {
            keep(alloc, table.head.as_str(), bytes, &mut table.files)?;
        } else {
            add_answer(rt, alloc, table, bytes, &mut answer)?;
        }
    }
    Ok(answer)
}

// The name of the row, and the lines of its script, which is kept where others may begin with it.
fn add_answer<R: Threads + Sync>(
    rt: &R,
    alloc: Global,
    table: &mut Table,
    script: Vec<u8>,
    answer: &mut Vec<u8>,
) -> Result<(), Memory> {
    answer.extend_from_slice(b"## ")?;
    answer.extend_from_slice(name_of(table.head.as_str()).as_bytes())?;
    answer.push(b'\n')?;
    if ask(table.head.as_str(), "base").is_some() {
        let copy = script.clone()?;
        keep(alloc, table.head.as_str(), copy, &mut table.bases)?;
    }
    if ask(table.head.as_str(), "rule").is_some() {
        let scripts = count(table.head.as_str(), "rule", 0);
        return add_by_rule(rt, alloc, table.text.as_str(), scripts, answer);
    }
    add_shown(rt, alloc, table, script, answer)
}

// The lines of a script, over the base that it begins with.
fn add_shown<R: Threads + Sync>(
    rt: &R,
    alloc: Global,
    table: &Table,
    script: Vec<u8>,
    answer: &mut Vec<u8>,
) -> Result<(), Memory> {
    let head = table.head.as_str();
    if let Some(view) = ask(head, "kept") {
        let base = base_asked(table).unwrap_or(b"");
        return add_watched(rt, alloc, head, view, base, &script, answer);
    }
    match ask(head, "over") {
        Some(name) => match base_of(&table.bases, name) {
            Some(base) => add_over(rt, alloc, table, base, &script, answer),
            None => Ok(answer.extend_from_slice(b"no such base\n")?),
        },
        None => add_run(rt, alloc, table, script, 0, answer),
    }
}

// Keeps bytes under the name of their row.
fn keep(
    alloc: Global,
    head: &str,
    bytes: Vec<u8>,
    kept: &mut Vec<(String, Vec<u8>)>,
) -> Result<(), Memory> {
    let name = String::from_str(alloc, name_of(head))?;
    Ok(kept.push((name, bytes))?)
}

// The base that the row asks for.
fn base_asked(table: &Table) -> Option<&[u8]> {
    match ask(table.head.as_str(), "over") {
        Some(name) => base_of(&table.bases, name),
        None => None,
    }
}

fn base_of<'a>(bases: &'a [(String, Vec<u8>)], name: &str) -> Option<&'a [u8]> {
    for (known, script) in bases {
        if known.as_str() == name {
            return Some(script);
        }
    }
    None
}

// The lines of a script over what a base leaves; those of the base are not shown.
fn add_over<R: Threads + Sync>(
    rt: &R,
    alloc: Global,
    table: &Table,
    base: &[u8],
    script: &[u8],
    answer: &mut Vec<u8>,
) -> Result<(), Memory> {
    let before = joined(alloc, base, b"")?;
    let hidden = lines(run_script(rt, alloc, "", before, &[])?.sink.taken());
    let whole = joined(alloc, base, script)?;
    add_run(rt, alloc, table, whole, hidden, answer)
}

fn add_run<R: Threads + Sync>(
    rt: &R,
    alloc: Global,
    table: &Table,
    script: Vec<u8>,
    hidden: usize,
    answer: &mut Vec<u8>,
) -> Result<(), Memory> {
    let head = table.head.as_str();
    let done = run_script(rt, alloc, head, script, &table.files)?;
    if ask(head, "last").is_some() {
        add_last(done.sink.taken(), hidden, answer)?;
    } else {
        add_lines(done.sink.taken(), hidden, answer)?;
    }
    add_status(done.status, answer)?;
    if ask(head, "meet").is_some() {
        add_met(done.met, answer)?;
    }
    Ok(())
}
