//! Scripts by rule: looks at a view beside its query asked afresh, while the tables change.
ghost use Rattle.std.specs.Prelude.{◌<◌};

use crate::runs::run_script;
use mq_values::{Memory, Num};
use std::alloc::Global;
use std::thread::Threads;

// How many changes a script has.
const CHANGES: usize = 12;

/// Runs so many scripts by rule, each twice: with looks at a view, and with its query in their place. The first line is the query, the
/// others make its tables. Shows how many print the same both ways, and what the others print.
pub(crate) fn add_by_rule<R: Threads + Sync>(
    rt: &R,
    alloc: Global,
    text: &str,
    scripts: usize,
    answer: &mut Vec<u8>,
) -> Result<(), Memory> {
    let (query, tables) = match text.split_once('\n') {
        Some((query, tables)) => (query, tables),
        None => (text, ""),
    };
    let mut alike: usize = 0;
    for number in 0..scripts {
        if is_alike(rt, alloc, query, tables, number as u64, answer)? {
            alike = alike.wrapping_add(1);
        }
    }
    put("alike ", alike as u64, answer)?;
    Ok(answer.push(b'\n')?)
}

// Whether the script of this number prints the same both ways.
fn is_alike<R: Threads + Sync>(
    rt: &R,
    alloc: Global,
    query: &str,
    tables: &str,
    number: u64,
    answer: &mut Vec<u8>,
) -> Result<bool, Memory> {
    let looks = script_of(alloc, query, tables, "SHOW V", number)?;
    let queries = script_of(alloc, query, tables, query, number)?;
    let looks = run_script(rt, alloc, "", looks, &[])?;
    let queries = run_script(rt, alloc, "", queries, &[])?;
    if looks.sink.taken() == queries.sink.taken() {
        return Ok(true);
    }
    answer.extend_from_slice(looks.sink.taken())?;
    answer.extend_from_slice(queries.sink.taken())?;
    Ok(false)
}

// The script of this number, with this look behind each change.
fn script_of(
    alloc: Global,
    query: &str,
    tables: &str,
    look: &str,
    number: u64,
) -> Result<Vec<u8>, Memory> {
    let mut script = Vec::new(alloc);
    add(tables, &mut script)?;
    add("\nCREATE VIEW V AS ", &mut script)?;
    add(query, &mut script)?;
    let mut state = number;
    for _ in 0..CHANGES {
        add(";\n", &mut script)?;
        state = add_change(state, &mut script)?;
        add(";\n", &mut script)?;
        add(look, &mut script)?;
    }
    Ok(script)
}

// A change that is drawn, and the state behind it.
fn add_change(state: u64, script: &mut Vec<u8>) -> Result<u64, Memory> {
    let kind = next(state);
    let row = next(kind);
    let cell = next(row);
    let value = next(cell);
    let p = below(row, 3);
    let d = below(cell, 6);
    let m = below(value, 4);
    match below(kind, 10) {
        0 => add_insert(p, d, m, script)?,
        1 => add_insert(p, d, m, script)?,
        2 => add_insert(p, d, m, script)?,
        3 => add_update(p, d, m, script)?,
        4 => add_update(p, d, m, script)?,
        5 => add_delete(p, d, script)?,
        6 => put("UPDATE T SET D = D + 1 WHERE P = ", p, script)?,
        7 => put("DELETE FROM T WHERE P = ", p, script)?,
        8 => add_rate(d, m, script)?,
        _ => add_list(d, m, script)?,
    }
    Ok(value)
}

fn add_insert(p: u64, d: u64, m: u64, script: &mut Vec<u8>) -> Result<(), Memory> {
    put("INSERT INTO T VALUES (", p, script)?;
    put(", ", d, script)?;
    put(", ", m, script)?;
    add(")", script)
}

fn add_update(p: u64, d: u64, m: u64, script: &mut Vec<u8>) -> Result<(), Memory> {
    put("UPDATE T SET M = ", m, script)?;
    put(" WHERE P = ", p, script)?;
    put(" AND D = ", d, script)
}

fn add_delete(p: u64, d: u64, script: &mut Vec<u8>) -> Result<(), Memory> {
    put("DELETE FROM T WHERE P = ", p, script)?;
    put(" AND D = ", d, script)
}

fn add_rate(k: u64, x: u64, script: &mut Vec<u8>) -> Result<(), Memory> {
    if x == 0 {
        return put("DELETE FROM R WHERE K = ", k, script);
    }
    put("INSERT INTO R VALUES (", k, script)?;
    put(", ", x, script)?;
    add(")", script)
}

fn add_list(n: u64, coin: u64, script: &mut Vec<u8>) -> Result<(), Memory> {
    if coin < 2 {
        return put("DELETE FROM L WHERE N = ", n, script);
    }
    put("INSERT INTO L VALUES (", n, script)?;
    add(")", script)
}

// The state behind this one.
fn next(state: u64) -> u64 {
    state.wrapping_mul(1103515245).wrapping_add(12345) % 2147483648
}

// A number below a bound, by a state.
fn below(state: u64, bound: u64) -> u64
    requires { 0 < bound }
{
    state / 65536 % bound
}

fn put(text: &str, number: u64, bytes: &mut Vec<u8>) -> Result<(), Memory> {
    add(text, bytes)?;
    Num::new(number as i128, 0).print(bytes)
}

fn add(text: &str, bytes: &mut Vec<u8>) -> Result<(), Memory> {
    Ok(bytes.extend_from_slice(text.as_bytes())?)
}
