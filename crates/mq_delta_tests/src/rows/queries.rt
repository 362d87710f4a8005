//! Queries of tests, over tables of two columns.
use crate::makers::{add, box_and_one, boxed, boxes, one, value};
use mq_ir::{BoundProd, Expr, FromPart, Leaf};
use mq_values::{Boxed, CmpOp, Items, Memory, ProdOp, Words};
use std::alloc::Global;

/// A query.
#[derive(Clone, Copy)]
pub enum Query {
    Filtered,
    Divided,
    Twice,
    Joined,
    JoinedFour,
}

/// Its FROM part.
pub fn from_part_of(alloc: Global, query: Query) -> Result<Boxed<FromPart>, Memory> {
    boxed(alloc, made_of(alloc, query))
}

fn made_of(alloc: Global, query: Query) -> Result<FromPart, Memory> {
    match query {
        Query::Filtered => filtered(alloc),
        Query::Divided => divided(alloc),
        Query::Twice => twice(alloc),
        Query::Joined => joined(alloc),
        Query::JoinedFour => joined_four(alloc),
    }
}

// A comparison of two columns, each behind the number of its FROM item.
type On = ((u32, u32), CmpOp, (u32, u32));

// What WHERE asks of the number beside the key in the row of a FROM item.
#[derive(Clone, Copy)]
enum Where {
    Anything,
    MoreThan(u32, i128),
    // Twelve divided by it is more than this.
    DividesInto(u32, i128),
}

fn on_of(alloc: Global, on: &On) -> Result<Option<Expr>, Memory> {
    let (one, op, other) = *on;
    let left = Expr::Leaf(Leaf::Column(one.0, one.1));
    let right = Expr::Leaf(Leaf::Column(other.0, other.1));
    let (left, right) = boxes(alloc, left, right)?;
    Ok(Some(Expr::Cmp(left, op, right)))
}

fn more_than(alloc: Global, item: u32, number: i128) -> Result<Option<Expr>, Memory> {
    let column = Expr::Leaf(Leaf::Column(item, 1));
    let (left, right) = boxes(alloc, column, Expr::Lit(value(number)))?;
    Ok(Some(Expr::Cmp(left, CmpOp::Gt, right)))
}

fn divides_into(alloc: Global, item: u32, number: i128) -> Result<Option<Expr>, Memory> {
    let term = BoundProd {
        op: ProdOp::Div,
        e: Expr::Leaf(Leaf::Column(item, 1)),
    };
    let (first, terms) = box_and_one(alloc, Expr::Lit(value(12)), term)?;
    let (left, right) = boxes(alloc, Expr::Prod(first, terms), Expr::Lit(value(number)))?;
    Ok(Some(Expr::Cmp(left, CmpOp::Gt, right)))
}

fn filter_of(alloc: Global, filter: Where) -> Result<Option<Expr>, Memory> {
    match filter {
        Where::Anything => Ok(None),
        Where::MoreThan(item, number) => more_than(alloc, item, number),
        Where::DividesInto(item, number) => divides_into(alloc, item, number),
    }
}

fn names_of(alloc: Global, names: &[&str]) -> Result<Items<Words>, Memory> {
    let mut all = Items::new(alloc);
    for name in names {
        add(&mut all, Words::new(alloc, name))?;
    }
    Ok(all)
}

fn ons_of(alloc: Global, ons: &[On]) -> Result<Items<Option<Expr>>, Memory> {
    let mut all = one(alloc, None)?;
    for on in ons {
        add(&mut all, on_of(alloc, on))?;
    }
    Ok(all)
}

// Tables, for each but the first its ON condition, and WHERE.
fn from_part(alloc: Global, names: &[&str], ons: &[On], filter: Where) -> Result<FromPart, Memory> {
    let tables = names_of(alloc, names)?;
    let ons = ons_of(alloc, ons)?;
    let filter = filter_of(alloc, filter)?;
    Ok(FromPart {
        tables,
        ons,
        filter,
    })
}

// FROM T X JOIN T Y ON X.M <= Y.M
fn twice(alloc: Global) -> Result<FromPart, Memory> {
    from_part(
        alloc,
        &["T", "T"],
        &[((0, 1), CmpOp::Le, (1, 1))],
        Where::Anything,
    )
}

// FROM T WHERE M > 10
fn filtered(alloc: Global) -> Result<FromPart, Memory> {
    from_part(alloc, &["T"], &[], Where::MoreThan(0, 10))
}

// FROM T WHERE 12 / M > 3
fn divided(alloc: Global) -> Result<FromPart, Memory> {
    from_part(alloc, &["T"], &[], Where::DividesInto(0, 3))
}

// FROM T X JOIN U Y ON X.M = Y.M WHERE 12 / Y.M > 3
fn joined(alloc: Global) -> Result<FromPart, Memory> {
    from_part(
        alloc,
        &["T", "U"],
        &[((0, 1), CmpOp::Eq, (1, 1))],
        Where::DividesInto(1, 3),
    )
}

// FROM T A JOIN U B ON A.M = B.M JOIN T C ON C.D <= B.D JOIN U D ON D.M <> C.M WHERE 12 / D.M > 2
fn joined_four(alloc: Global) -> Result<FromPart, Memory> {
    from_part(
        alloc,
        &["T", "U", "T", "U"],
        &[
            ((0, 1), CmpOp::Eq, (1, 1)),
            ((2, 0), CmpOp::Le, (1, 0)),
            ((3, 1), CmpOp::Ne, (2, 1)),
        ],
        Where::DividesInto(3, 2),
    )
}
