//! The left side of a rule: its places in order, or a FOR of tuples (docs/LANGUAGE.md, "The order of binding").

ghost use Rattle.std.specs.Prelude.{◌≡◌, ◌==◌, filter, length, map, IfOk};
ghost use Rattle.std.specs.List.{list_all, range_with_len};
ghost use Rattle.mq_values.specs.Answers.{Gives};
ghost use Rattle.mq_ast.specs.declared.queries.LeftPlace.TheVariants as place_of_tree;
ghost use Rattle.mq_ast.specs.declared.queries.LeftTree.TheVariants as tree;
ghost use Rattle.mq_ir.specs.Fits as fits;
ghost use Rattle.mq_binder.specs.LeftWalk as spec;

use crate::for_lists::{for_checked, list_bound, names_place, steps_checked};
use crate::found::{LeftFound, ListFound};
use mq_ast::{E, ForList, LeftPlace, LeftTree};
use mq_bind_expr::{bound, is_condition, place_of};
use mq_bind_scopes::{
    ExprKind, MISUSE_OF_FOR, MISUSE_OF_PLACE_COUNT, Owner, Part, Scope, bracketed, misuse, number,
    other_place_count, place_called, place_kind, standing,
};
use mq_ir::{Catalog, Left, LeftItem, PlainPart, Test};
use mq_lexer::folded;
use mq_values::{Fail, Items, Memory, Refused, Words};
use std::alloc::Global;

// A value names one cell or row of cells, every other test is symbolic.
fn left_item(t: Test) -> LeftItem
    ensures { result ≡ spec.left_item t }
{
    match t {
        Test::At(e) => LeftItem::At(e),
        other => LeftItem::Sym(other),
    }
}

fn with_lists(lists: Items<PlainPart>, item: LeftItem) -> (LeftItem, Items<PlainPart>)
    ensures { result ≡ spec.with_lists lists item }
{
    (item, lists)
}

// A place that is an expression, as a value or a condition.
fn expression_place(alloc: Global, scope: &Scope, n: u32, e: &E) -> Result<LeftItem, Fail<Refused>>
    ensures { Gives result (spec.expression_place scope.now n e.now) }
{
    let at = bracketed(standing(Part::Left), Owner::Main, n, is_condition(e));
    let found = bound(alloc, scope, at, e)?;
    let placed = place_of(alloc, place_kind(scope, Owner::Main, n), e, found)?;
    Ok(left_item(placed.test))
}

// FOR .. IN at a place.
fn for_place(
    alloc: Global,
    catalog: &Catalog,
    scope: &Scope,
    n: u32,
    lists: Items<PlainPart>,
    dim: &Words,
    list: &ForList,
) -> Result<(LeftItem, Items<PlainPart>), Fail<Refused>>
    ensures { Gives result (spec.left_place catalog.now scope.now n lists (place_of_tree.ForIn dim.now list.now)) }
{
    let is_named = names_place(alloc, scope, n, dim)?;
    let dims = [place_kind(scope, Owner::Main, n)];
    let found = list_bound(alloc, catalog, scope, lists, list)?;
    let found = for_checked(&dims, is_named, found)?;
    Ok(with_lists(found.lists, LeftItem::List(found.source)))
}

// FOR .. FROM at a place.
fn steps_place(
    alloc: Global,
    scope: &Scope,
    n: u32,
    dim: &Words,
    start: &E,
    stop: &E,
    step: &E,
    down: bool,
) -> Result<LeftItem, Fail<Refused>>
    ensures { Gives result (spec.steps_place scope.now n dim.now down start.now stop.now step.now) }
{
    let start = bound(alloc, scope, standing(Part::Left), start)?;
    let stop = bound(alloc, scope, standing(Part::Left), stop)?;
    let step = bound(alloc, scope, standing(Part::Left), step)?;
    steps_checked(alloc, scope, n, dim, down, start, stop, step)
}

// Place number n, behind these subqueries.
fn left_place(
    alloc: Global,
    catalog: &Catalog,
    scope: &Scope,
    n: u32,
    lists: Items<PlainPart>,
    place: &LeftPlace,
) -> Result<(LeftItem, Items<PlainPart>), Fail<Refused>>
    ensures { Gives result (spec.left_place catalog.now scope.now n lists place.now) }
{
    match place {
        LeftPlace::Any => Ok(with_lists(lists, LeftItem::Sym(Test::Any))),
        LeftPlace::Expr(e) => {
            let item = expression_place(alloc, scope, n, e)?;
            Ok(with_lists(lists, item))
        }
        LeftPlace::ForIn { dim, list } => for_place(alloc, catalog, scope, n, lists, dim, list),
        LeftPlace::ForRange {
            dim,
            start,
            stop,
            step,
            down,
        } => {
            let item = steps_place(alloc, scope, n, dim, start, stop, step, *down)?;
            Ok(with_lists(lists, item))
        }
    }
}

fn left_places(
    alloc: Global,
    catalog: &Catalog,
    scope: &Scope,
    lists: Items<PlainPart>,
    places: &[LeftPlace],
) -> Result<(Items<LeftItem>, Items<PlainPart>), Fail<Refused>>
    ensures { Gives result (spec.left_places catalog.now scope.now lists places.now) }
{
    let mut items = Items::new(alloc);
    let mut gathered = lists;
    'places: for (n, place) in places.iter().enumerate() {
        let (item, after) = left_place(alloc, catalog, scope, number(n)?, gathered, place)?;
        items.push(item)?;
        gathered = after;
    }
    Ok((items, gathered))
}

/// The dimension that a name of a tuple, or of ORDER BY, names.
pub fn dimension_called(alloc: Global, scope: &Scope, name: &Words) -> Result<Option<u32>, Memory>
    ensures { IfOk result (λ n. n ≡ spec.dimension_called scope.now name.now) }
{
    let name = folded(alloc, name.as_str())?;
    match place_called(scope.model.dims.as_slice(), &name) {
        Some(place) => Ok(Some(number(place)?)),
        None => Ok(None),
    }
}

fn kind_called(alloc: Global, scope: &Scope, name: &Words) -> Result<Option<ExprKind>, Memory>
    ensures { IfOk result (λ kind. kind ≡ spec.kind_called scope.now name.now) }
{
    match dimension_called(alloc, scope, name)? {
        Some(n) => Ok(place_kind(scope, Owner::Main, n)),
        None => Ok(None),
    }
}

fn kinds_called(
    alloc: Global,
    scope: &Scope,
    names: &[Words],
) -> Result<Items<Option<ExprKind>>, Memory>
    ensures { IfOk result (λ kinds. kinds ≡ map (spec.kind_called scope.now) names.now) }
{
    let mut kinds = Items::new(alloc);
    'names: for name in names {
        kinds.push(kind_called(alloc, scope, name)?)?;
    }
    Ok(kinds)
}

fn numbers_called(
    alloc: Global,
    scope: &Scope,
    names: &[Words],
) -> Result<Option<Items<u32>>, Memory>
    ensures { IfOk result (λ numbers. numbers ≡ spec.numbers_called scope.now names.now) }
{
    let mut numbers = Items::new(alloc);
    'names: for name in names {
        match dimension_called(alloc, scope, name)? {
            Some(n) => numbers.push(n)?,
            None => return Ok(None),
        }
    }
    Ok(Some(numbers))
}

fn count_of(numbers: &[u32], k: usize) -> usize
    ensures { result ≡ length (filter (λ j. j == k) numbers.now) }
{
    numbers.iter().filter(|j| **j as usize == k).count()
}

fn is_once(numbers: &[u32], k: usize) -> bool
    ensures { result ≡ (length (filter (λ j. j == k) numbers.now) == 1) }
{
    count_of(numbers, k) == 1
}

fn all_once(n: usize, numbers: &[u32]) -> bool
    ensures { result ≡ list_all (λ k. length (filter (λ j. j == k) numbers.now) == 1) (range_with_len 0 n) }
{
    (0..n).all(|k| is_once(numbers, k))
}

// Each number from 0 on below n stands once among these.
fn numbers_each_once(n: usize, numbers: &[u32]) -> bool
    ensures { result ≡ fits.numbers_each_once n numbers.now }
{
    numbers.len() == n && all_once(n, numbers)
}

fn names_each(scope: &Scope, numbers: &Option<Items<u32>>) -> bool
    ensures { result ≡ spec.names_each scope.now numbers.now }
{
    match numbers {
        Some(numbers) => numbers_each_once(scope.model.dims.len(), numbers.as_slice()),
        None => false,
    }
}

fn places_bound(
    alloc: Global,
    catalog: &Catalog,
    scope: &Scope,
    lists: Items<PlainPart>,
    places: &[LeftPlace],
) -> Result<LeftFound, Fail<Refused>>
    ensures { Gives result (spec.left_bound catalog.now scope.now lists (tree.Places places.now)) }
{
    let (items, lists) = left_places(alloc, catalog, scope, lists, places)?;
    if other_place_count(scope, Owner::Main, items.len()) {
        return Err(misuse(MISUSE_OF_PLACE_COUNT));
    }
    Ok(LeftFound {
        left: Left::Places(items),
        lists,
    })
}

fn tuples_found(numbers: Option<Items<u32>>, found: ListFound) -> Result<LeftFound, Fail<Refused>>
    ensures { Gives result (spec.tuples_found numbers found) }
{
    match numbers {
        Some(numbers) => Ok(LeftFound {
            left: Left::Tuples(numbers, found.source),
            lists: found.lists,
        }),
        None => Err(misuse(MISUSE_OF_FOR)),
    }
}

fn tuples_bound(
    alloc: Global,
    catalog: &Catalog,
    scope: &Scope,
    lists: Items<PlainPart>,
    dims: &[Words],
    list: &ForList,
) -> Result<LeftFound, Fail<Refused>>
    ensures { Gives result (spec.left_bound catalog.now scope.now lists (tree.Tuples dims.now list.now)) }
{
    let kinds = kinds_called(alloc, scope, dims)?;
    let numbers = numbers_called(alloc, scope, dims)?;
    let found = list_bound(alloc, catalog, scope, lists, list)?;
    let found = for_checked(kinds.as_slice(), names_each(scope, &numbers), found)?;
    tuples_found(numbers, found)
}

/// The left side of a rule, behind these subqueries.
pub fn left_bound(
    alloc: Global,
    catalog: &Catalog,
    scope: &Scope,
    lists: Items<PlainPart>,
    left: &LeftTree,
) -> Result<LeftFound, Fail<Refused>>
    ensures { Gives result (spec.left_bound catalog.now scope.now lists left.now) }
{
    match left {
        LeftTree::Places(places) => {
            places_bound(alloc, catalog, scope, lists, places.as_slice())
        }
        LeftTree::Tuples { dims, list } => {
            tuples_bound(alloc, catalog, scope, lists, dims.as_slice(), list)
        }
    }
}
