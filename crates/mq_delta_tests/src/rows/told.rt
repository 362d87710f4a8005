//! Kept rows, and what becomes of them, as texts.
ghost use Rattle.mq_tables.specs.Held.{RowsFit};
ghost use Rattle.mq_tables.specs.Staging.{StandsOn};

use crate::rows::changes::{Step, made, tables_with};
use crate::rows::queries::{Query, from_part_of};
use mq_delta_base::{KeptRows, delta_rows, kept_rows_in};
use mq_ir::FromPart;
use mq_tables::{Staged, Tables};
use mq_values::{FaultKind, Memory, Num, QueryFault, Value, print};
use std::alloc::Global;

// The places of a base row in brackets.
fn write_places(places: &[u32], out: &mut Vec<u8>) -> Result<(), Memory> {
    out.push(b'(')?;
    for (at, place) in places.iter().enumerate() {
        if at > 0 {
            out.push(b' ')?;
        }
        print(&Value::Num(Num::new(*place as i128, 0)), out)?;
    }
    out.push(b')')?;
    Ok(())
}

fn write_rows(kept: &KeptRows, out: &mut Vec<u8>) -> Result<(), Memory> {
    for at in 0..kept.len() {
        write_places(kept.row(at), out)?;
    }
    Ok(())
}

fn fault_text(kind: FaultKind) -> &'static [u8] {
    match kind {
        FaultKind::DivideByZero => b"divides by zero",
        _ => b"faults otherwise",
    }
}

/// Kept rows, or the fault.
pub fn write_kept(kept: &Result<KeptRows, QueryFault>, out: &mut Vec<u8>) -> Result<(), Memory> {
    match kept {
        Ok(rows) => write_rows(rows, out),
        Err(fault) => Ok(out.extend_from_slice(fault_text(fault.kind))?),
    }
}

/// Kept rows before a change, and those after it as they are found from them.
#[derive(Drop)]
pub struct Found {
    pub before: KeptRows,
    pub after: Result<KeptRows, QueryFault>,
}

/// What is found after a staged change, or none where the query faults before it.
pub fn rows_after(
    alloc: Global,
    q: &FromPart,
    tables: &Tables,
    staged: &Staged,
) -> Result<Option<Found>, Memory>
    requires { StandsOn tables.now staged.now }
{
    match kept_rows_in(alloc, q, tables)? {
        Ok(before) => {
            let after = delta_rows(alloc, q, &before, tables, staged)?;
            Ok(Some(Found { before, after }))
        }
        Err(_) => Ok(None),
    }
}

// What is found after a change, and behind it the kept rows before it, as they still are.
fn write_found(found: &Found, out: &mut Vec<u8>) -> Result<(), Memory> {
    write_kept(&found.after, out)?;
    out.extend_from_slice(b" from ")?;
    write_rows(&found.before, out)
}

// The same as a text; nothing where the query faults before the change.
fn text_of(alloc: Global, found: Option<Found>) -> Result<Vec<u8>, Memory> {
    let mut out = Vec::new(alloc);
    if let Some(found) = &found {
        write_found(found, &mut out)?;
    }
    Ok(out)
}

/// The same after steps of the first table, which has these rows.
pub fn told(
    alloc: Global,
    query: Query,
    rows: &[(i128, i128)],
    steps: &[Step],
) -> Result<Vec<u8>, Memory> {
    let q = from_part_of(alloc, query)?;
    let tables = tables_with(alloc, rows)?;
    told_of(alloc, q.get(), &tables, steps)
}

fn told_of(alloc: Global, q: &FromPart, tables: &Tables, steps: &[Step]) -> Result<Vec<u8>, Memory>
    requires { RowsFit tables.now }
{
    match made(alloc, tables, "T", steps)? {
        Some(staged) => text_of(alloc, rows_after(alloc, q, tables, &staged)?),
        None => Ok(Vec::new(alloc)),
    }
}
