//! The trees, made of their parts. Where one tree is handed on it stands on the heap, as it will stand in the tree above
//! it: so it is moved as one word, and proofs see a value in place of 26 variants.

ghost use Rattle.std.specs.Prelude.{◌≡◌, ◌∷◌, ◌++◌, [], List, Some, None, IfOk, OnOk};
ghost use Rattle.mq_ast.specs.declared.expressions.E.{E};
ghost use Rattle.mq_ast.specs.declared.expressions.Place.{Place};
ghost use Rattle.mq_values.specs.declared.value.Value.{Value};
ghost use Rattle.mq_ast.specs.GrammarNames.{path_of};
ghost use Rattle.mq_ast.specs.Chains.{and_of, arm, or_of, prod_of, prod_term, sum_of, sum_term};
ghost use Rattle.mq_parse_words.specs.Forms as spec;
ghost use Rattle.mq_parse_words.specs.Fronts.{judged as tested};

use crate::calls::call_of;
use crate::forms::IsTest;
use crate::names::short_path;
use mq_ast::{Arm, E, Keyword, Path, Place, ProdTerm, SumTerm};
use mq_values::{Agg, Boxed, CmpOp, Func, Items, Kind, Memory, Num, ProdOp, SumOp, Value, Words};
use std::alloc::Global;

/// A tree on the heap.
pub type Tree = Boxed<E>;

/// Puts an item from the heap behind the others. `Memory` where there is no room for it.
pub fn put<T: Drop>(found: &mut Items<T>, item: Boxed<T>) -> Result<(), Memory>
    ensures { OnOk result (found.new ≡ found.old ++ item ∷ []) }
{
    found.push(item.into_inner())
}

/// Puts an item from the heap before the others. `Memory` where there is no room for it.
pub fn put_before<T: Drop>(found: &mut Items<T>, item: Boxed<T>) -> Result<(), Memory>
    ensures { OnOk result (found.new ≡ item ∷ found.old) }
{
    found.put_first(item.into_inner())
}

/// Puts a term behind those of a sum.
pub fn put_sum(found: &mut Items<SumTerm>, op: SumOp, e: Tree) -> Result<(), Memory>
    ensures { OnOk result (found.new ≡ found.old ++ (sum_term op e) ∷ []) }
{
    let e = e.into_inner();
    found.push(SumTerm { op, e })
}

/// Puts a term behind those of a product.
pub fn put_prod(found: &mut Items<ProdTerm>, op: ProdOp, e: Tree) -> Result<(), Memory>
    ensures { OnOk result (found.new ≡ found.old ++ (prod_term op e) ∷ []) }
{
    let e = e.into_inner();
    found.push(ProdTerm { op, e })
}

/// Puts an arm behind those of a CASE.
pub fn put_arm(found: &mut Items<Arm>, test: Tree, value: Tree) -> Result<(), Memory>
    ensures { OnOk result (found.new ≡ found.old ++ (arm test value) ∷ []) }
{
    let test = test.into_inner();
    let value = value.into_inner();
    found.push(Arm { test, value })
}

/// The members with OR between them; one alone is itself.
pub fn any_of(alloc: Global, first: Tree, others: Items<E>) -> Result<Tree, Memory>
    ensures { IfOk result (λ e. e ≡ or_of first others) }
{
    let mut all = others;
    if all.is_empty() {
        return Ok(first);
    }
    put_before(&mut all, first)?;
    Boxed::new(alloc, E::Or(all))
}

/// The members with AND between them; one alone is itself.
pub fn all_of(alloc: Global, first: Tree, others: Items<E>) -> Result<Tree, Memory>
    ensures { IfOk result (λ e. e ≡ and_of first others) }
{
    let mut all = others;
    if all.is_empty() {
        return Ok(first);
    }
    put_before(&mut all, first)?;
    Boxed::new(alloc, E::And(all))
}

/// NOT of an expression.
pub fn negation(alloc: Global, e: Tree) -> Result<Tree, Memory>
    ensures { IfOk result (λ r. r ≡ E.Not e) }
{
    Boxed::new(alloc, E::Not(e))
}

/// A comparison.
pub fn comparison(alloc: Global, a: Tree, op: CmpOp, b: Tree) -> Result<Tree, Memory>
    ensures { IfOk result (λ e. e ≡ E.Cmp a op b) }
{
    Boxed::new(alloc, E::Cmp(a, op, b))
}

/// A test by BETWEEN.
pub fn between(alloc: Global, a: Tree, not: bool, low: Tree, high: Tree) -> Result<Tree, Memory>
    ensures { IfOk result (λ e. e ≡ E.Between a not low high) }
{
    Boxed::new(alloc, E::Between(a, not, low, high))
}

/// A test by IN.
pub fn in_list(alloc: Global, a: Tree, not: bool, members: Items<E>) -> Result<Tree, Memory>
    ensures { IfOk result (λ e. e ≡ E.InList a not members) }
{
    Boxed::new(alloc, E::InList(a, not, members))
}

/// The test by IS of an expression.
pub fn judged(alloc: Global, a: Tree, test: IsTest) -> Result<Tree, Memory>
    ensures { IfOk result (λ e. e ≡ tested test a) }
{
    match test {
        IsTest::Null(not) => Boxed::new(alloc, E::IsNull(a, not)),
        IsTest::Present(not) => Boxed::new(alloc, E::IsPresent(a, not)),
        IsTest::Any => Boxed::new(alloc, E::IsAny(a)),
    }
}

/// The sum of the terms; one alone is itself.
pub fn sum(alloc: Global, first: Tree, others: Items<SumTerm>) -> Result<Tree, Memory>
    ensures { IfOk result (λ e. e ≡ sum_of first others) }
{
    if others.is_empty() {
        return Ok(first);
    }
    Boxed::new(alloc, E::Sum(first, others))
}

/// The product of the terms; one alone is itself.
pub fn product(alloc: Global, first: Tree, others: Items<ProdTerm>) -> Result<Tree, Memory>
    ensures { IfOk result (λ e. e ≡ prod_of first others) }
{
    if others.is_empty() {
        return Ok(first);
    }
    Boxed::new(alloc, E::Prod(first, others))
}

/// An expression with a minus sign before it.
pub fn signed(alloc: Global, e: Tree) -> Result<Tree, Memory>
    ensures { IfOk result (λ r. r ≡ E.Neg e) }
{
    Boxed::new(alloc, E::Neg(e))
}

/// A column.
pub fn named(alloc: Global, path: Path) -> Result<Tree, Memory>
    ensures { IfOk result (λ r. r ≡ E.Name path) }
{
    Boxed::new(alloc, E::Name(path))
}

/// A column by its name alone.
pub fn column(alloc: Global, name: &str) -> Result<Tree, Memory>
    ensures { IfOk result (λ r. r ≡ E.Name (path_of None name.now)) }
{
    named(alloc, short_path(Words::new(alloc, name)?))
}

/// A number.
pub fn number(alloc: Global, number: Num) -> Result<Tree, Memory>
    ensures { IfOk result (λ r. r ≡ E.Lit (Value.Num number)) }
{
    Boxed::new(alloc, E::Lit(Value::Num(number)))
}

/// A cell.
pub fn cell(alloc: Global, path: Path, places: Items<Place>) -> Result<Tree, Memory>
    ensures { IfOk result (λ r. r ≡ E.Cell path places) }
{
    Boxed::new(alloc, E::Cell(path, places))
}

/// COUNT(*).
pub fn counted(alloc: Global) -> Result<Tree, Memory>
    ensures { IfOk result (λ r. r ≡ E.CountAll) }
{
    Boxed::new(alloc, E::CountAll)
}

/// An aggregate of cells.
pub fn range(alloc: Global, agg: Agg, measure: Words, places: Items<Place>) -> Result<Tree, Memory>
    ensures { IfOk result (λ r. r ≡ E.RangeAgg agg measure places) }
{
    Boxed::new(alloc, E::RangeAgg(agg, measure, places))
}

/// An aggregate.
pub fn aggregate(alloc: Global, agg: Agg, e: Tree) -> Result<Tree, Memory>
    ensures { IfOk result (λ r. r ≡ E.Agg agg e) }
{
    Boxed::new(alloc, E::Agg(agg, e))
}

/// A CASE.
pub fn case(
    alloc: Global,
    subject: Option<Tree>,
    arms: Items<Arm>,
    other: Option<Tree>,
) -> Result<Tree, Memory>
    ensures { IfOk result (λ r. r ≡ E.Case subject arms other) }
{
    Boxed::new(alloc, E::Case(subject, arms, other))
}

/// A CAST.
pub fn cast(alloc: Global, e: Tree, kind: Kind) -> Result<Tree, Memory>
    ensures { IfOk result (λ r. r ≡ E.Cast e kind) }
{
    Boxed::new(alloc, E::Cast(e, kind))
}

/// ROUND to a scale.
pub fn rounded(alloc: Global, e: Tree, scale: u8) -> Result<Tree, Memory>
    ensures { IfOk result (λ r. r ≡ E.Call (Func.Round scale) (e ∷ [])) }
{
    let mut args = Items::new(alloc);
    put(&mut args, e)?;
    Boxed::new(alloc, E::Call(Func::Round(scale), args))
}

/// The place ANY between square brackets.
pub fn any_place(alloc: Global) -> Result<Boxed<Place>, Memory>
    ensures { IfOk result (λ p. p ≡ Place.Any) }
{
    Boxed::new(alloc, Place::Any)
}

/// A place between square brackets.
pub fn place_of(alloc: Global, e: Tree) -> Result<Boxed<Place>, Memory>
    ensures { IfOk result (λ p. p ≡ Place.Expr e) }
{
    Boxed::new(alloc, Place::Expr(e.into_inner()))
}

/// A call of its arguments; none where it takes another number of them.
pub fn called(alloc: Global, word: Keyword, args: Items<E>) -> Result<Option<Tree>, Memory>
    ensures { IfOk result (λ o. o ≡ spec.called word args) }
{
    match call_of(word) {
        Some((func, count)) if args.len() == count => function(alloc, func, args),
        Some(_) => Ok(None),
        None => asked(alloc, word, args),
    }
}

// What PREVIOUS, PRESENTV and PRESENTNNV ask of their arguments.
fn asked(alloc: Global, word: Keyword, args: Items<E>) -> Result<Option<Tree>, Memory>
    ensures { IfOk result (λ o. o ≡ spec.asked word args) }
{
    let count = args.len();
    match word {
        Keyword::Previous => previous(alloc, args),
        Keyword::Presentv if count == 3 => Ok(Some(Boxed::new(alloc, E::PresentV(args))?)),
        Keyword::Presentnnv if count == 3 => Ok(Some(Boxed::new(alloc, E::PresentNnv(args))?)),
        _ => Ok(None),
    }
}

// A function of these arguments.
fn function(alloc: Global, func: Func, args: Items<E>) -> Result<Option<Tree>, Memory>
    ensures { IfOk result (λ o. o ≡ Some (E.Call func args)) }
{
    Ok(Some(Boxed::new(alloc, E::Call(func, args))?))
}

// PREVIOUS of its one argument.
fn previous(alloc: Global, args: Items<E>) -> Result<Option<Tree>, Memory>
    ensures { IfOk result (λ o. o ≡ spec.asked Keyword.Previous args) }
{
    let mut args = args.into_vec();
    match args.pop() {
        Some(e) if args.is_empty() => {
            let e = Boxed::new(alloc, e)?;
            Ok(Some(Boxed::new(alloc, E::Previous(e))?))
        }
        _ => Ok(None),
    }
}
