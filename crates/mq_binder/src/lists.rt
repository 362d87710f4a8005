//! The lists of a model or a reference: partition columns, dimensions and measures
//! (docs/LANGUAGE.md, "The order of binding").

ghost use Rattle.std.specs.Prelude.{◌≡◌, ◌++◌, IfOk, OnOk, None, Some};
ghost use Rattle.std.specs.List.{range_with_len};
ghost use Rattle.mq_values.specs.Answers.{Gives};
ghost use Rattle.mq_binder.specs.ListWalk as spec;

use crate::found::ListItem;
use crate::tables::has_name;
use mq_ast::Sel;
use mq_bind_expr::{Held, bound, held, name_of};
use mq_bind_scopes::{
    Found, MISUSE_OF_ITEM_WITHOUT_NAME, Named, Position, Scope, column_kind, duplicate_name, limit,
    mismatch, misuse, number,
};
use mq_ir::Expr;
use mq_values::{Boxed, Fail, Items, Kind, Memory, Refused, Words};
use std::alloc::Global;

fn item_kind(f: &Found) -> Result<Kind, Fail<Refused>>
    ensures { Gives result (spec.item_kind f.now) }
{
    match column_kind(f.kind) {
        Some(kind) => Ok(kind),
        None => Err(mismatch()),
    }
}

fn list_item_of(f: Found, name: Words, kind: Kind) -> ListItem
    ensures { result ≡ record { e = f.e; column = record { name = name; kind = f.kind }; kind = kind } }
{
    ListItem {
        column: Named { name, kind: f.kind },
        e: f.e,
        kind,
    }
}

/// An item of a list that has a name, behind items of these names: its name is new, and it has a kind.
pub fn item_named(taken: &[Words], name: Words, f: Held) -> Result<ListItem, Fail<Refused>>
    ensures { Gives result (spec.item_checked taken.now (Some name) f) }
{
    if has_name(taken, &name) {
        return Err(duplicate_name(name));
    }
    let kind = item_kind(f.get())?;
    Ok(list_item_of(f.into_inner(), name, kind))
}

// An item without a name: the misuse, where it has a kind.
fn item_unnamed(taken: &[Words], f: &Found) -> Result<ListItem, Fail<Refused>>
    ensures { Gives result (spec.item_checked taken.now None f.now) }
{
    item_kind(f)?;
    Err(misuse(MISUSE_OF_ITEM_WITHOUT_NAME))
}

fn item_checked(taken: &[Words], name: Option<Words>, f: Held) -> Result<ListItem, Fail<Refused>>
    ensures { Gives result (spec.item_checked taken.now name f) }
{
    match name {
        Some(name) => item_named(taken, name, f),
        None => item_unnamed(taken, f.get()),
    }
}

// The name is made before the expression is bound: only want of memory can come of it.
fn list_item(
    alloc: Global,
    scope: &Scope,
    at: Position,
    taken: &[Words],
    sel: &Sel,
) -> Result<ListItem, Fail<Refused>>
    ensures { Gives result (spec.list_item scope.now at taken.now sel.now) }
{
    let name = name_of(alloc, sel)?;
    let f = bound(alloc, scope, at, &sel.e)?;
    item_checked(taken, name, f)
}

// The same on the heap, so that it is moved as one word.
fn held_item(
    alloc: Global,
    scope: &Scope,
    at: Position,
    taken: &[Words],
    sel: &Sel,
) -> Result<Boxed<ListItem>, Fail<Refused>>
    ensures { Gives result (spec.list_item scope.now at taken.now sel.now) }
{
    held(alloc, list_item(alloc, scope, at, taken, sel))
}

/// The same names once more.
pub fn same_names(alloc: Global, names: &[Words]) -> Result<Items<Words>, Memory>
    ensures { IfOk result (λ copies. copies ≡ names.now) }
{
    let mut copies = Items::new(alloc);
    'names: for name in names {
        copies.push(name.copy()?)?;
    }
    Ok(copies)
}

/// A list that is no longer than this, or the limit of this number.
pub fn limited<T: Drop>(
    most: usize,
    number: u32,
    items: Items<T>,
) -> Result<Items<T>, Fail<Refused>>
    ensures { Gives result (spec.limited most number items) }
{
    if items.len() > most {
        return Err(limit(number));
    }
    Ok(items)
}

/// The expressions of the items, in order.
pub fn list_exprs(alloc: Global, items: Items<ListItem>) -> Result<Items<Expr>, Memory>
    ensures { IfOk result (λ es. es ≡ spec.list_exprs items) }
{
    let mut es = Items::new(alloc);
    'items: for item in items.into_vec() {
        es.push(item.e)?;
    }
    Ok(es)
}

/// The same column once more.
pub fn same_column(column: &Named) -> Result<Named, Memory>
    ensures { IfOk result (λ copy. copy ≡ column.now) }
{
    Ok(Named {
        name: column.name.copy()?,
        kind: column.kind,
    })
}

/// Their columns.
pub fn list_columns(alloc: Global, items: &[ListItem]) -> Result<Items<Named>, Memory>
    ensures { IfOk result (λ columns. columns ≡ spec.list_columns items.now) }
{
    let mut columns = Items::new(alloc);
    'items: for item in items {
        columns.push(same_column(&item.column)?)?;
    }
    Ok(columns)
}

/// Puts their kinds behind others.
pub fn push_kinds(kinds: &mut Items<Kind>, items: &[ListItem]) -> Result<(), Memory>
    ensures { OnOk result (kinds.new ≡ kinds.old ++ spec.list_kinds items.now) }
{
    'items: for item in items {
        kinds.push(item.kind)?;
    }
    Ok(())
}

/// Their kinds.
pub fn list_kinds(alloc: Global, items: &[ListItem]) -> Result<Items<Kind>, Memory>
    ensures { IfOk result (λ kinds. kinds ≡ spec.list_kinds items.now) }
{
    let mut kinds = Items::new(alloc);
    push_kinds(&mut kinds, items)?;
    Ok(kinds)
}

/// Puts their names behind others.
pub fn push_names(names: &mut Items<Words>, items: &[ListItem]) -> Result<(), Memory>
    ensures { OnOk result (names.new ≡ names.old ++ spec.list_names items.now) }
{
    'items: for item in items {
        names.push(item.column.name.copy()?)?;
    }
    Ok(())
}

/// Their names.
pub fn list_names(alloc: Global, items: &[ListItem]) -> Result<Items<Words>, Memory>
    ensures { IfOk result (λ names. names ≡ spec.list_names items.now) }
{
    let mut names = Items::new(alloc);
    push_names(&mut names, items)?;
    Ok(names)
}

/// The items of a list, behind items of these names.
pub fn items_listed(
    alloc: Global,
    scope: &Scope,
    at: Position,
    taken: &[Words],
    sels: &[Sel],
) -> Result<Items<ListItem>, Fail<Refused>>
    ensures { Gives result (spec.items_listed scope.now at taken.now sels.now) }
{
    let mut names = same_names(alloc, taken)?;
    let mut items = Items::new(alloc);
    'sels: for sel in sels {
        let item = held_item(alloc, scope, at, names.as_slice(), sel)?;
        names.push(item.get().column.name.copy()?)?;
        items.push(item.into_inner())?;
    }
    Ok(items)
}

/// The numbers of so many columns.
pub fn all_columns(alloc: Global, count: usize) -> Result<Items<u32>, Memory>
    ensures { IfOk result (λ numbers. numbers ≡ range_with_len 0 count) }
{
    let count = number(count)?;
    let mut numbers = Items::new(alloc);
    for n in 0..count {
        numbers.push(n)?;
    }
    Ok(numbers)
}
