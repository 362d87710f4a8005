//! A session with the view and two scenarios, and what it answers, as texts.
ghost use Rattle.std.specs.Prelude.{◌≡◌, None, IfOk};

use crate::ready::query_is_ready;
use crate::scenarios::planned::{Step, change, query, table};
use mq_engine::Engine;
use mq_io::OpenGate;
use mq_ir::{Answer, BoundQuery, Change, Compared};
use mq_values::{Boxed, MAX_SCENARIO_CHANGES, Memory, Num, Refused, Value, Words, print};
use std::alloc::Global;
use std::thread::Threads;

// The name of the view.
const VIEW: &str = "V";

// A session with the table, which is empty.
fn begun(alloc: Global) -> Result<Engine, Memory> {
    let mut engine = Engine::new(alloc, 1);
    engine.create_table(alloc, table(alloc)?)?;
    Ok(engine)
}

// Makes a change of the table. It stands on the heap meanwhile, for the proof.
fn apply(alloc: Global, engine: &mut Engine, step: Step) -> Result<(), Memory> {
    let change = Boxed::new(alloc, change(alloc, step)?)?;
    apply_change(alloc, engine, change.get())
}

fn apply_change(alloc: Global, engine: &mut Engine, change: &Change) -> Result<(), Memory> {
    if engine.in_block() {
        return Err(Memory);
    }
    match engine.apply(alloc, change, &OpenGate) {
        Ok(_) => Ok(()),
        Err(_) => Err(Memory),
    }
}

fn put_view(alloc: Global, engine: &mut Engine, q: BoundQuery) -> Result<(), Memory> {
    if engine.catalog().is_view(VIEW) | !query_is_ready(&q) {
        return Err(Memory);
    }
    engine.create_view(alloc, VIEW, q, &OpenGate)
}

// Puts a change behind those of a scenario.
fn put_change(alloc: Global, engine: &mut Engine, name: &str, step: Step) -> Result<(), Memory> {
    if engine.catalog().change_count(name) >= MAX_SCENARIO_CHANGES {
        return Err(Memory);
    }
    engine.add_change(name, change(alloc, step)?)?;
    Ok(())
}

fn put_scenario(
    alloc: Global,
    engine: &mut Engine,
    name: &str,
    steps: &[Step],
) -> Result<(), Memory> {
    if engine.catalog().is_scenario(name) {
        return Err(Memory);
    }
    engine.create_scenario(alloc, name)?;
    for step in steps {
        put_change(alloc, engine, name, *step)?;
    }
    Ok(())
}

fn put_rows(alloc: Global, engine: &mut Engine) -> Result<(), Memory> {
    for (p, d, m) in [(1, 1, 10), (1, 2, 20), (2, 1, 5), (2, 2, 7)] {
        apply(alloc, engine, Step::Insert(p, d, m))?;
    }
    Ok(())
}

/// The session: of the changes of TWICE the second repeats a key.
pub fn planned(alloc: Global) -> Result<Engine, Memory> {
    let mut engine = begun(alloc)?;
    put_rows(alloc, &mut engine)?;
    put_view(alloc, &mut engine, query(alloc)?.into_inner())?;
    put_scenario(
        alloc,
        &mut engine,
        "UP",
        &[Step::Set(10, 11), Step::Set(20, 25)],
    )?;
    put_scenario(
        alloc,
        &mut engine,
        "TWICE",
        &[Step::Set(5, 6), Step::Insert(1, 1, 0)],
    )?;
    Ok(engine)
}

/// The names of both scenarios.
pub fn names(alloc: Global) -> Result<Vec<Words>, Memory> {
    let mut names = Vec::new(alloc);
    for name in ["UP", "TWICE"] {
        names.push(Words::new(alloc, name)?)?;
    }
    Ok(names)
}

// A row in brackets.
fn write_row(values: &[Value], out: &mut Vec<u8>) -> Result<(), Memory> {
    out.push(b'(')?;
    for (at, value) in values.iter().enumerate() {
        if at > 0 {
            out.push(b' ')?;
        }
        print(value, out)?;
    }
    out.push(b')')?;
    Ok(())
}

fn write_answer(answer: &Answer, out: &mut Vec<u8>) -> Result<(), Memory> {
    let Answer::Rows(rows) = answer else {
        return Ok(out.extend_from_slice(b" a fault")?);
    };
    for row in rows.as_slice() {
        write_row(row.as_slice(), out)?;
    }
    Ok(())
}

fn write_refusal(number: u32, refused: &Refused, out: &mut Vec<u8>) -> Result<(), Memory> {
    out.push(b' ')?;
    print(&Value::Num(Num::new(number as i128, 0)), out)?;
    match refused {
        Refused::DuplicateKey(_) => Ok(out.extend_from_slice(b" repeats a key")?),
        _ => Ok(out.extend_from_slice(b" is refused otherwise")?),
    }
}

fn write_compared(found: &Compared, out: &mut Vec<u8>) -> Result<(), Memory> {
    match found {
        Compared::Shown(answer) => write_answer(answer, out),
        Compared::Stopped(number, refused) => write_refusal(*number, refused, out),
    }
}

// What was found of each scenario, behind its name.
fn write_all(names: &[Words], found: &[Compared], out: &mut Vec<u8>) -> Result<(), Memory> {
    for (name, compared) in names.iter().zip(found) {
        out.extend_from_slice(name.as_str().as_bytes())?;
        write_compared(compared, out)?;
    }
    Ok(())
}

/// What the view answers over the tables as they stand.
pub fn show<R: Threads + Sync>(
    rt: &R,
    alloc: Global,
    engine: &mut Engine,
    out: &mut Vec<u8>,
) -> Result<(), Memory> {
    match engine.answer(rt, alloc, VIEW, &OpenGate) {
        Ok(answer) => write_answer(&answer, out),
        Err(_) => Err(Memory),
    }
}

/// What it answers under each scenario, by the call that is only lent the session.
pub fn write_beside<R: Threads + Sync>(
    rt: &R,
    alloc: Global,
    engine: &Engine,
    names: &[Words],
    out: &mut Vec<u8>,
) -> Result<(), Memory> {
    match engine.compare(rt, alloc, VIEW, names, &OpenGate) {
        Ok(found) => write_all(names, &found, out),
        Err(_) => Err(Memory),
    }
}

/// The same by the call that may make the changes in place.
pub fn write_in_place<R: Threads + Sync>(
    rt: &R,
    alloc: Global,
    engine: &mut Engine,
    names: &[Words],
    out: &mut Vec<u8>,
) -> Result<(), Memory> {
    match engine.compare_in_place(rt, alloc, VIEW, names, &OpenGate) {
        Ok(found) => write_all(names, &found, out),
        Err(_) => Err(Memory),
    }
}
