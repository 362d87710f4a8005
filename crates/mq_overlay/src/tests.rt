// Scenarios over two tables, with ample memory: the rows as they come out by hand. Whether they do is told as a truth by
// small functions: a test that holds what is let go is dear to prove.
ghost use Rattle.std.specs.Prelude.{◌≤◌, length};
ghost use Rattle.mq_values.specs.declared.limits.TheConstants.{MAX_SCENARIO_CHANGES};

use crate::overlay;
use mq_ir::{Change, Column, Expr, Leaf, Schema, TableDef};
use mq_tables::{TableSet, Tables};
use mq_values::{
    Boxed, CmpOp, Fail, Items, Kind, MAX_SCENARIO_CHANGES, Memory, Num, Refused, Value, Words,
    print,
};
use std::alloc::Global;
use std::test::Fail as Failed;

// A change of a table of numbers: a key, and what stands beside it.
#[derive(Clone, Copy)]
enum Step {
    Insert(i32, i32),
    Update(i32, i32),
    Delete(i32),
}

// The tables as they stand.
const STANDING: &[u8] = b"T(1 10 )(2 20 )U(7 70 )X";

fn value(number: i32) -> Value {
    Value::Num(Num::new(number as i128, 0))
}

fn two<T: Drop>(alloc: Global, first: T, second: T) -> Result<Items<T>, Memory> {
    let mut both = Items::new(alloc);
    both.push(first)?;
    both.push(second)?;
    Ok(both)
}

fn column(alloc: Global, name: &str) -> Result<Column, Memory> {
    Ok(Column {
        name: Words::new(alloc, name)?,
        kind: Kind::Int,
        not_null: true,
    })
}

// A table of two columns, of which the first is the key.
fn table(alloc: Global, name: &str) -> Result<TableDef, Memory> {
    let mut key = Items::new(alloc);
    key.push(0)?;
    Ok(TableDef {
        name: Words::new(alloc, name)?,
        schema: Schema {
            cols: two(alloc, column(alloc, "K")?, column(alloc, "V")?)?,
            key,
        },
    })
}

// The rows whose key is this number.
fn with_key(alloc: Global, key: i32) -> Result<Expr, Memory> {
    let column = Boxed::new(alloc, Expr::Leaf(Leaf::Column(0, 0)))?;
    let literal = Boxed::new(alloc, Expr::Lit(value(key)))?;
    Ok(Expr::Cmp(column, CmpOp::Eq, literal))
}

fn insert(alloc: Global, table: Words, key: i32, beside: i32) -> Result<Change, Memory> {
    let mut rows = Items::new(alloc);
    rows.push(two(alloc, Expr::Lit(value(key)), Expr::Lit(value(beside)))?)?;
    Ok(Change::Insert { table, rows })
}

fn update(alloc: Global, table: Words, key: i32, beside: i32) -> Result<Change, Memory> {
    let mut sets = Items::new(alloc);
    sets.push((1, Expr::Lit(value(beside))))?;
    let filter = Some(with_key(alloc, key)?);
    Ok(Change::Update {
        table,
        sets,
        filter,
    })
}

fn change(alloc: Global, name: &str, step: Step) -> Result<Change, Memory> {
    let table = Words::new(alloc, name)?;
    match step {
        Step::Insert(key, beside) => insert(alloc, table, key, beside),
        Step::Update(key, beside) => update(alloc, table, key, beside),
        Step::Delete(key) => {
            let filter = Some(with_key(alloc, key)?);
            Ok(Change::Delete { table, filter })
        }
    }
}

fn changes(alloc: Global, steps: &[(&str, Step)]) -> Result<Vec<Change>, Memory> {
    let mut changes = Vec::new(alloc);
    for (name, step) in steps {
        changes.push(change(alloc, name, *step)?)?;
    }
    Ok(changes)
}

// Adds an empty table, where none has its name.
fn add_table(tables: &mut Tables, def: TableDef) -> Result<(), Memory> {
    if tables.table(def.name.as_str()).is_none() {
        tables.add(def)?;
    }
    Ok(())
}

fn apply(alloc: Global, tables: &mut Tables, change: &Change) -> Result<(), Memory> {
    match tables.apply(alloc, change) {
        Ok(_) => Ok(()),
        Err(_) => Err(Memory),
    }
}

fn add_row(
    alloc: Global,
    tables: &mut Tables,
    name: &str,
    key: i32,
    beside: i32,
) -> Result<(), Memory> {
    let row = change(alloc, name, Step::Insert(key, beside))?;
    apply(alloc, tables, &row)
}

fn empty_tables(alloc: Global) -> Result<Tables, Memory> {
    let mut tables = Tables::new(alloc);
    add_table(&mut tables, table(alloc, "T")?)?;
    add_table(&mut tables, table(alloc, "U")?)?;
    Ok(tables)
}

// Two tables, with two rows and with one.
fn tables(alloc: Global) -> Result<Tables, Memory> {
    let mut tables = empty_tables(alloc)?;
    add_row(alloc, &mut tables, "T", 1, 10)?;
    add_row(alloc, &mut tables, "T", 2, 20)?;
    add_row(alloc, &mut tables, "U", 7, 70)?;
    Ok(tables)
}

// The rows of a table, each in brackets behind its name.
fn write_rows<T: TableSet>(tables: &T, name: &str, out: &mut Vec<u8>) -> Result<(), Memory> {
    out.extend_from_slice(name.as_bytes())?;
    for row in tables.rows(name).unwrap_or(&[]) {
        out.push(b'(')?;
        for value in row.as_slice() {
            print(value, out)?;
            out.push(b' ')?;
        }
        out.push(b')')?;
    }
    Ok(())
}

fn write_tables<T: TableSet>(tables: &T, out: &mut Vec<u8>) -> Result<(), Memory> {
    write_rows(tables, "T", out)?;
    write_rows(tables, "U", out)?;
    write_rows(tables, "X", out)
}

fn write_refusal(number: u32, refused: &Refused, out: &mut Vec<u8>) -> Result<(), Memory> {
    print(&Value::Num(Num::new(number as i128, 0)), out)?;
    match refused {
        Refused::DuplicateKey(_) => Ok(out.extend_from_slice(b" repeats a key")?),
        Refused::UnknownName(_) => Ok(out.extend_from_slice(b" is of no table")?),
        _ => Ok(out.extend_from_slice(b" is refused otherwise")?),
    }
}

// The tables under these changes, or the refused one.
fn under(alloc: Global, tables: &Tables, changes: &[Change]) -> Result<Vec<u8>, Memory>
    requires { length changes.now ≤ MAX_SCENARIO_CHANGES }
{
    let mut out = Vec::new(alloc);
    match overlay(alloc, tables, changes) {
        Ok(under) => write_tables(&under, &mut out)?,
        Err(Fail::Cause((number, refused))) => write_refusal(number, &refused, &mut out)?,
        Err(Fail::Memory) => return Err(Memory),
    }
    Ok(out)
}

fn are_written(alloc: Global, tables: &Tables, wanted: &[u8]) -> Result<bool, Memory> {
    let mut out = Vec::new(alloc);
    write_tables(tables, &mut out)?;
    Ok(out.as_slice() == wanted)
}

fn comes_to(
    alloc: Global,
    tables: &Tables,
    changes: &[Change],
    wanted: &[u8],
) -> Result<bool, Memory> {
    if changes.len() > MAX_SCENARIO_CHANGES {
        return Ok(false);
    }
    let out = under(alloc, tables, changes)?;
    Ok(out.as_slice() == wanted)
}

fn steps_come_to(
    alloc: Global,
    tables: &Tables,
    steps: &[(&str, Step)],
    wanted: &[u8],
) -> Result<bool, Memory> {
    let changes = changes(alloc, steps)?;
    comes_to(alloc, tables, changes.as_slice(), wanted)
}

// Whether these changes leave what is wanted, and the tables beside it as they stood.
fn leaves(alloc: Global, steps: &[(&str, Step)], wanted: &[u8]) -> Result<bool, Memory> {
    let tables = tables(alloc)?;
    let met = steps_come_to(alloc, &tables, steps, wanted)?;
    Ok(met & are_written(alloc, &tables, STANDING)?)
}

#[test]
fn a_scenario_changes_tables_beside_those_that_stand(rt: HostRuntime) -> Result<(), Failed> {
    let cases: [(&[(&str, Step)], &[u8]); 7] = [
        (&[], STANDING),
        (
            &[
                ("T", Step::Update(1, 11)),
                ("T", Step::Insert(3, 30)),
                ("T", Step::Update(3, 31)),
            ],
            b"T(1 11 )(2 20 )(3 31 )U(7 70 )X",
        ),
        (
            &[
                ("U", Step::Delete(7)),
                ("T", Step::Delete(1)),
                ("T", Step::Insert(1, 15)),
            ],
            b"T(2 20 )(1 15 )UX",
        ),
        (
            &[
                ("T", Step::Update(2, 21)),
                ("T", Step::Insert(2, 5)),
                ("X", Step::Delete(1)),
            ],
            b"2 repeats a key",
        ),
        (
            &[
                ("T", Step::Insert(3, 30)),
                ("U", Step::Insert(8, 80)),
                ("T", Step::Insert(3, 40)),
            ],
            b"3 repeats a key",
        ),
        (
            &[("X", Step::Delete(1)), ("T", Step::Insert(1, 1))],
            b"1 is of no table",
        ),
        (
            &[("T", Step::Delete(5)), ("T", Step::Update(5, 1))],
            STANDING,
        ),
    ];
    for (steps, wanted) in cases {
        assert!(rt; leaves(rt.alloc(), steps, wanted)?);
    }
    Ok(())
}
