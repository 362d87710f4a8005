//! The table, the view and the changes of the tests of scenarios, made of plain data.
use crate::makers::{add, both, box_and_one, boxed, boxes, one, two, value};
use mq_ir::{
    BoundQuery, BoundSum, Change, Column, Expr, FromPart, ItemPart, Leaf, Left, LeftItem,
    ModelPart, Rule, Schema, TableDef,
};
use mq_values::{Boxed, CmpOp, Items, Kind, Memory, Mode, SumOp, Words};
use std::alloc::Global;

/// The name of the table.
pub const TABLE: &str = "T";

// How many columns it has.
const COLUMNS: u32 = 3;

/// A change of the table: a row comes, or where M is the one number it becomes the other.
#[derive(Clone, Copy)]
pub enum Step {
    Insert(i128, i128, i128),
    Set(i128, i128),
}

fn column(alloc: Global, name: &str) -> Result<Column, Memory> {
    Ok(Column {
        name: Words::new(alloc, name)?,
        kind: Kind::Int,
        not_null: true,
    })
}

/// The table T of P, D and M, of which the first two are the key.
pub fn table(alloc: Global) -> Result<TableDef, Memory> {
    let key = two(alloc, 0, 1)?;
    let mut cols = two(alloc, column(alloc, "P")?, column(alloc, "D")?)?;
    cols.push(column(alloc, "M")?)?;
    Ok(TableDef {
        name: Words::new(alloc, TABLE)?,
        schema: Schema { cols, key },
    })
}

fn insert(alloc: Global, table: Words, p: i128, d: i128, m: i128) -> Result<Change, Memory> {
    let mut row = two(alloc, Expr::Lit(value(p)), Expr::Lit(value(d)))?;
    row.push(Expr::Lit(value(m)))?;
    let rows = one(alloc, row)?;
    Ok(Change::Insert { table, rows })
}

// The rows whose M is this number.
fn with_measure(alloc: Global, number: i128) -> Result<Expr, Memory> {
    let measure = Expr::Leaf(Leaf::Column(0, 2));
    let (left, right) = boxes(alloc, measure, Expr::Lit(value(number)))?;
    Ok(Expr::Cmp(left, CmpOp::Eq, right))
}

fn set(alloc: Global, table: Words, from: i128, to: i128) -> Result<Change, Memory> {
    let sets = one(alloc, (2, Expr::Lit(value(to))))?;
    let filter = Some(with_measure(alloc, from)?);
    Ok(Change::Update {
        table,
        sets,
        filter,
    })
}

/// A change of it.
pub fn change(alloc: Global, step: Step) -> Result<Change, Memory> {
    let table = Words::new(alloc, TABLE)?;
    match step {
        Step::Insert(p, d, m) => insert(alloc, table, p, d, m),
        Step::Set(from, to) => set(alloc, table, from, to),
    }
}

fn from_table(alloc: Global) -> Result<FromPart, Memory> {
    let (tables, ons) = both(one(alloc, Words::new(alloc, TABLE)?), one(alloc, None))?;
    Ok(FromPart {
        tables,
        ons,
        filter: None,
    })
}

fn columns(alloc: Global) -> Result<ItemPart, Memory> {
    let mut items = Items::new(alloc);
    for place in 0..COLUMNS {
        items.push(Expr::Leaf(Leaf::Column(0, place)))?;
    }
    Ok(ItemPart { group: None, items })
}

// M of the cell at this place.
fn measure_at(alloc: Global, place: i128) -> Result<Expr, Memory> {
    let index = one(alloc, Expr::Lit(value(place)))?;
    Ok(Expr::Leaf(Leaf::Cell(0, index)))
}

// M[1] + M[2]
fn sum(alloc: Global) -> Result<Expr, Memory> {
    let (first, e) = both(measure_at(alloc, 1), measure_at(alloc, 2))?;
    let term = BoundSum { op: SumOp::Add, e };
    let (first, terms) = box_and_one(alloc, first, term)?;
    Ok(Expr::Sum(first, terms))
}

// M[3] = M[1] + M[2]
fn rule(alloc: Global) -> Result<Rule, Memory> {
    let place = LeftItem::At(Expr::Lit(value(3)));
    let (places, right) = both(one(alloc, place), sum(alloc))?;
    Ok(Rule {
        mode: Mode::Upsert,
        measure: 0,
        left: Left::Places(places),
        order: Items::new(alloc),
        right,
    })
}

fn rules(alloc: Global) -> Result<Items<Rule>, Memory> {
    let mut rules = Items::new(alloc);
    add(&mut rules, rule(alloc))?;
    Ok(rules)
}

// PARTITION BY (P) DIMENSION BY (D) MEASURES (M) with this rule, in automatic order.
fn model(alloc: Global) -> Result<ModelPart, Memory> {
    let (part_kinds, dims) = both(one(alloc, Kind::Int), one(alloc, Kind::Int))?;
    let (measures, names) = both(one(alloc, Kind::Int), one(alloc, Words::new(alloc, "M")?))?;
    let rules = rules(alloc)?;
    Ok(ModelPart {
        parts: 1,
        part_kinds,
        dims,
        measures,
        names,
        ignore_nav: false,
        updated_only: false,
        auto: true,
        iterate: None,
        rules,
        refs: Items::new(alloc),
        lists: Items::new(alloc),
    })
}

fn printed(alloc: Global) -> Result<Items<u32>, Memory> {
    let mut places = Items::new(alloc);
    for place in 0..COLUMNS {
        places.push(place)?;
    }
    Ok(places)
}

fn made(alloc: Global) -> Result<BoundQuery, Memory> {
    let (from, items) = both(from_table(alloc), columns(alloc))?;
    let (print, order) = both(printed(alloc), two(alloc, (0, false), (1, false)))?;
    Ok(BoundQuery {
        from,
        items,
        model: Some(model(alloc)?),
        print,
        order,
    })
}

/// SELECT P, D, M FROM T with this model ORDER BY P, D.
pub fn query(alloc: Global) -> Result<Boxed<BoundQuery>, Memory> {
    boxed(alloc, made(alloc))
}
