//! The FOR subqueries of a model over tables.
ghost use Rattle.std.specs.Prelude.{◌≡◌, ◌+◌, position, IfOk};
ghost use Rattle.std.specs.List.{enumerate_from, list_any};
ghost use Rattle.mq_values.specs.Answers.{Gives};
ghost use Rattle.mq_ir.specs.Answer as spec;
ghost use Rattle.mq_ir.specs.Results.{each};

use crate::sources::items_over;
use mq_ir::{Left, LeftItem, ListSource, ModelPart, PlainPart, Rule, plain_fault};
use mq_tables::TableSet;
use mq_values::{Fail, Items, Key, Memory, QueryFault};
use std::alloc::Global;

/// The rows of each FOR subquery of a model, in text order, or the first fault, which carries its rule
/// (docs/MEANING.md, "Answers").
pub fn lists_over<T: TableSet>(
    alloc: Global,
    tables: &T,
    part: &ModelPart,
) -> Result<Items<Items<Key>>, Fail<QueryFault>>
    ensures { Gives result (each (spec.list_rows (T.tables tables.now) part.now) (enumerate_from 0 part.now.lists)) }
{
    each_list(alloc, tables, part, part.lists.as_slice())
}

// The rows of each of these FOR subqueries, which are numbered from 0.
fn each_list<T: TableSet>(
    alloc: Global,
    tables: &T,
    part: &ModelPart,
    sources: &[PlainPart],
) -> Result<Items<Items<Key>>, Fail<QueryFault>>
    ensures { Gives result (each (spec.list_rows (T.tables tables.now) part.now) (enumerate_from 0 sources.now)) }
{
    let mut lists = Items::new(alloc);
    'sources: for (number, source) in sources.iter().enumerate() {
        lists.push(list_over(alloc, tables, part, number, source)?)?;
    }
    Ok(lists)
}

// The rows of the FOR subquery of this number.
fn list_over<T: TableSet>(
    alloc: Global,
    tables: &T,
    part: &ModelPart,
    number: usize,
    list: &PlainPart,
) -> Result<Items<Key>, Fail<QueryFault>>
    ensures { Gives result (spec.list_rows (T.tables tables.now) part.now (number, list.now)) }
{
    match items_over(alloc, tables, &list.from, &list.items) {
        Ok(rows) => Ok(rows),
        Err(Fail::Cause(fault)) => {
            let rule = rule_of_list(part, number)?;
            Err(Fail::Cause(plain_fault(rule, fault.kind)))
        }
        Err(Fail::Memory) => Err(Fail::Memory),
    }
}

// The number of the first rule, counted from 1, that takes the values of this FOR subquery, or 0. `Memory` comes too
// where there are more rules than a `u32` can number.
fn rule_of_list(part: &ModelPart, list: usize) -> Result<u32, Memory>
    ensures { IfOk result (λ rule. rule ≡ spec.rule_of_list part.now list) }
{
    match place_of_rule(part.rules.as_slice(), list) {
        Some(place) => numbered(place),
        None => Ok(0),
    }
}

// The number, counted from 1, of what stands at this place.
fn numbered(place: usize) -> Result<u32, Memory>
    ensures { IfOk result (λ number. number ≡ place + 1) }
{
    let Ok(place) = u32::try_from(place) else {
        return Err(Memory);
    };
    match place.checked_add(1) {
        Some(number) => Ok(number),
        None => Err(Memory),
    }
}

fn place_of_rule(rules: &[Rule], list: usize) -> Option<usize>
    ensures { result ≡ position (λ rule. spec.left_takes list rule.left) rules.now }
{
    rules.iter().position(|rule| left_takes(&rule.left, list))
}

// Whether a left side takes the values of this FOR subquery.
fn left_takes(left: &Left, list: usize) -> bool
    ensures { result ≡ spec.left_takes list left.now }
{
    match left {
        Left::Places(items) => any_takes(items.as_slice(), list),
        Left::Tuples(_, source) => is_source(source, list),
    }
}

fn any_takes(items: &[LeftItem], list: usize) -> bool
    ensures { result ≡ list_any (spec.item_takes list) items.now }
{
    items.iter().any(|item| item_takes(item, list))
}

fn item_takes(item: &LeftItem, list: usize) -> bool
    ensures { result ≡ spec.item_takes list item.now }
{
    match item {
        LeftItem::List(source) => is_source(source, list),
        _ => false,
    }
}

fn is_source(source: &ListSource, list: usize) -> bool
    ensures { result ≡ spec.is_source list source.now }
{
    match source {
        ListSource::Rows(number) => *number as usize == list,
        ListSource::Values(_) => false,
    }
}
