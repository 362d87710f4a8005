//! A row of the table: what is asked, and of what, with a tab between them.

use crate::notation::Notation;
use crate::readers::{bound, read, whole};
use mq_ir::{Bound, Catalog, Change, Scenario, TableDef, TableEntry, View};
use mq_lexer::{Token, tokens};
use mq_values::{Items, Memory, Words};
use std::alloc::Global;

/// The row, and behind a tab the answer. A row without a tab stays as it is.
pub(crate) fn answer(known: &mut Catalog, row: &str, out: &mut Notation) {
    out.add(row);
    if let Some((asked, text)) = row.split_once('\t') {
        out.add("\t");
        let done = match asked.split_once(' ') {
            Some((asked, count)) => repeatedly(known, asked, count, text, out),
            None => told(known, asked, text, out),
        };
        out.note(done);
    }
    out.add("\n");
}

// What is asked with a count behind it.
fn repeatedly(
    known: &mut Catalog,
    asked: &str,
    count: &str,
    text: &str,
    out: &mut Notation,
) -> Result<(), Memory> {
    match asked {
        "known" => add_changes(known, count, text, out),
        _ => counted(known, asked, count, text, out),
    }
}

// Of a text that repeats pieces only the words of its tree are counted.
fn counted(
    known: &mut Catalog,
    asked: &str,
    count: &str,
    text: &str,
    out: &mut Notation,
) -> Result<(), Memory> {
    let text = repeated(out.alloc, count, text)?;
    let start = out.text.len();
    told(known, asked, text.as_str(), out)?;
    let words = out.words;
    if words > 0 {
        out.text.truncate(start);
        out.add_shown("", &words);
        out.add(" words");
    }
    Ok(())
}

// The pieces between tabs with blanks between them, each second one as often as the count says.
fn repeated(alloc: Global, count: &str, pieces: &str) -> Result<String, Memory> {
    let count = count.parse::<usize>().unwrap_or(1);
    let mut text = String::new(alloc);
    let mut is_repeated = false;
    for piece in pieces.split('\t') {
        let times = if is_repeated { count } else { 1 };
        for _ in 0..times {
            text.push_str(piece)?;
            text.push(' ')?;
        }
        is_repeated = !is_repeated;
    }
    Ok(text)
}

fn told(known: &mut Catalog, asked: &str, text: &str, out: &mut Notation) -> Result<(), Memory> {
    let found = tokens(out.alloc, text)?;
    match asked {
        "known" => add(known, &found, out),
        "both" => {
            read("statement", known, &found, out);
            out.add("\t");
            out.words = 0;
            read("bound", known, &found, out);
            Ok(())
        }
        _ => {
            read(asked, known, &found, out);
            Ok(())
        }
    }
}

// What a CREATE makes is there from now on.
fn add(known: &mut Catalog, t: &[Token<'_>], out: &mut Notation) -> Result<(), Memory> {
    match bound(out.alloc, known, t) {
        Ok(Bound::CreateTable(def)) => put_table(known, def),
        Ok(Bound::CreateView(name, query)) => put_view(known, View { name, query }),
        Ok(Bound::CreateScenario(name)) => {
            let changes = Items::new(out.alloc);
            put_scenario(known, Scenario { name, changes })
        }
        other => {
            whole(other, out);
            Ok(())
        }
    }
}

fn put_table(known: &mut Catalog, def: TableDef) -> Result<(), Memory> {
    let TableDef { name, schema } = def;
    if known.tables.has(name.as_str()) {
        return Ok(());
    }
    known.tables.put(TableEntry { name, schema })
}

fn put_view(known: &mut Catalog, view: View) -> Result<(), Memory> {
    if known.views.has(view.name.as_str()) {
        return Ok(());
    }
    known.views.put(view)
}

fn put_scenario(known: &mut Catalog, scenario: Scenario) -> Result<(), Memory> {
    if known.scenarios.has(scenario.name.as_str()) {
        return Ok(());
    }
    known.scenarios.put(scenario)
}

// The scenario of an UNDER has its change as often as the count says from now on, and no others.
fn add_changes(
    known: &mut Catalog,
    count: &str,
    text: &str,
    out: &mut Notation,
) -> Result<(), Memory> {
    let found = tokens(out.alloc, text)?;
    let mut changes = Items::new(out.alloc);
    for _ in 1..count.parse::<usize>().unwrap_or(1) {
        if let Some((_, change)) = taken_in(out.alloc, known, &found) {
            changes.push(change)?;
        }
    }
    match taken_in(out.alloc, known, &found) {
        Some((name, change)) => {
            changes.push(change)?;
            known.scenarios.remove(name.as_str());
            put_scenario(known, Scenario { name, changes })
        }
        None => {
            out.add("unknown");
            Ok(())
        }
    }
}

// The scenario of an UNDER, and its change.
fn taken_in(alloc: Global, known: &Catalog, t: &[Token<'_>]) -> Option<(Words, Change)> {
    match bound(alloc, known, t) {
        Ok(Bound::Under(name, change)) => Some((name, change)),
        _ => None,
    }
}
