//! Models and inputs of tests, made of plain data: one dimension, and two measures.
use crate::makers::{add, both, box_and_one, boxed, boxes, one, two, value};
use mq_ir::{
    BoundArm, BoundProd, BoundSum, Expr, Leaf, Left, LeftItem, ModelPart, PartInput, Rule, Test,
};
use mq_values::{
    Agg, Boxed, CmpOp, Items, Key, Kind, Memory, Mode, Num, ProdOp, SumOp, Value, Words,
};
use std::alloc::Global;

/// The two measures of a cell that is in the input, or `None` where it is not there. The first of a list is cell 1.
pub type Given = Option<(i128, i128)>;

/// A cell by its number, or one so many behind the cell that is assigned.
#[derive(Clone, Copy)]
pub enum Spot {
    At(i128),
    Behind(i128),
}

/// A measure of a cell.
pub type Source = (u32, Spot);

/// What a rule assigns: one cell, all cells from one to another, or those behind one that are there.
#[derive(Clone, Copy)]
pub enum Target {
    Cell(i128),
    Steps(i128, i128),
    After(i128),
}

/// What a rule makes of it: a sum, a ratio, the sum of a measure from one cell to another, or a measure where a cell is
/// present and else 0, by CASE or by PRESENTV.
#[derive(Clone, Copy)]
pub enum Right {
    Sum(Source, Source),
    Ratio(Source, Source),
    Total(u32, i128, i128),
    IfPresent(i128, Source),
    PresentV(i128, Source),
}

/// A rule.
#[derive(Clone, Copy)]
pub struct Plan {
    pub mode: Mode,
    pub measure: u32,
    pub target: Target,
    pub right: Right,
}

pub fn key(alloc: Global, cell: i128) -> Result<Key, Memory> {
    Key::one(alloc, value(cell))
}

// So many behind the cell that is assigned.
fn behind(alloc: Global, count: i128) -> Result<Items<Expr>, Memory> {
    let term = BoundSum {
        op: SumOp::Sub,
        e: Expr::Lit(value(count)),
    };
    let (target, terms) = box_and_one(alloc, Expr::Leaf(Leaf::Cv(0)), term)?;
    one(alloc, Expr::Sum(target, terms))
}

fn at(alloc: Global, cell: i128) -> Result<Items<Expr>, Memory> {
    one(alloc, Expr::Lit(value(cell)))
}

fn index(alloc: Global, spot: Spot) -> Result<Items<Expr>, Memory> {
    match spot {
        Spot::At(cell) => at(alloc, cell),
        Spot::Behind(count) => behind(alloc, count),
    }
}

fn sum(alloc: Global, first: Source, second: Source) -> Result<Expr, Memory> {
    let (one, other) = both(index(alloc, first.1), index(alloc, second.1))?;
    let term = BoundSum {
        op: SumOp::Add,
        e: Expr::Leaf(Leaf::Cell(second.0, other)),
    };
    let (first, terms) = box_and_one(alloc, Expr::Leaf(Leaf::Cell(first.0, one)), term)?;
    Ok(Expr::Sum(first, terms))
}

fn ratio(alloc: Global, first: Source, second: Source) -> Result<Expr, Memory> {
    let (one, other) = both(index(alloc, first.1), index(alloc, second.1))?;
    let term = BoundProd {
        op: ProdOp::Div,
        e: Expr::Leaf(Leaf::Cell(second.0, other)),
    };
    let (first, terms) = box_and_one(alloc, Expr::Leaf(Leaf::Cell(first.0, one)), term)?;
    Ok(Expr::Prod(first, terms))
}

fn total(alloc: Global, measure: u32, low: i128, high: i128) -> Result<Expr, Memory> {
    let test = Test::Between(Expr::Lit(value(low)), Expr::Lit(value(high)));
    let tests = one(alloc, test)?;
    Ok(Expr::Leaf(Leaf::Range(Agg::Sum, measure, tests)))
}

fn if_present(alloc: Global, cell: i128, source: Source) -> Result<Expr, Memory> {
    let (cell, index) = both(at(alloc, cell), index(alloc, source.1))?;
    let arm = BoundArm {
        test: Expr::IsPresent(Leaf::Present(cell), false),
        value: Expr::Leaf(Leaf::Cell(source.0, index)),
    };
    let (otherwise, arms) = box_and_one(alloc, Expr::Lit(value(0)), arm)?;
    Ok(Expr::Case(None, arms, Some(otherwise)))
}

fn present_v(alloc: Global, cell: i128, source: Source) -> Result<Expr, Memory> {
    let (cell, index) = both(at(alloc, cell), index(alloc, source.1))?;
    let look = Expr::Leaf(Leaf::Cell(source.0, index));
    let (yes, no) = boxes(alloc, look, Expr::Lit(value(0)))?;
    Ok(Expr::PresentV {
        present: Leaf::Present(cell),
        yes,
        no,
    })
}

fn right_side(alloc: Global, right: Right) -> Result<Expr, Memory> {
    match right {
        Right::Sum(first, second) => sum(alloc, first, second),
        Right::Ratio(first, second) => ratio(alloc, first, second),
        Right::Total(measure, low, high) => total(alloc, measure, low, high),
        Right::IfPresent(cell, source) => if_present(alloc, cell, source),
        Right::PresentV(cell, source) => present_v(alloc, cell, source),
    }
}

fn cell_at(alloc: Global, cell: i128) -> Result<Items<LeftItem>, Memory> {
    one(alloc, LeftItem::At(Expr::Lit(value(cell))))
}

fn steps(alloc: Global, first: i128, last: i128) -> Result<Items<LeftItem>, Memory> {
    let place = LeftItem::Steps {
        start: Expr::Lit(value(first)),
        stop: Expr::Lit(value(last)),
        step: Expr::Lit(value(1)),
        down: false,
    };
    one(alloc, place)
}

fn cells_after(alloc: Global, cell: i128) -> Result<Items<LeftItem>, Memory> {
    let test = Test::Cmp(CmpOp::Gt, Expr::Lit(value(cell)));
    one(alloc, LeftItem::Sym(test))
}

fn places(alloc: Global, target: Target) -> Result<Items<LeftItem>, Memory> {
    match target {
        Target::Cell(cell) => cell_at(alloc, cell),
        Target::Steps(first, last) => steps(alloc, first, last),
        Target::After(cell) => cells_after(alloc, cell),
    }
}

fn rule(alloc: Global, plan: &Plan) -> Result<Rule, Memory> {
    let (places, right) = both(places(alloc, plan.target), right_side(alloc, plan.right))?;
    Ok(Rule {
        mode: plan.mode,
        measure: plan.measure,
        left: Left::Places(places),
        order: Items::new(alloc),
        right,
    })
}

fn rules(alloc: Global, plans: &[Plan]) -> Result<Items<Rule>, Memory> {
    let mut rules = Items::new(alloc);
    for plan in plans {
        add(&mut rules, rule(alloc, plan))?;
    }
    Ok(rules)
}

// A model in automatic order with these rules, and nothing beside them.
fn model_with(
    alloc: Global,
    dims: Items<Kind>,
    measures: Items<Kind>,
    names: Items<Words>,
    rules: Items<Rule>,
) -> ModelPart {
    ModelPart {
        parts: 0,
        part_kinds: Items::new(alloc),
        dims,
        measures,
        names,
        ignore_nav: false,
        updated_only: false,
        auto: true,
        iterate: None,
        rules,
        refs: Items::new(alloc),
        lists: Items::new(alloc),
    }
}

/// The model of these rules.
pub fn model(alloc: Global, plans: &[Plan]) -> Result<Boxed<ModelPart>, Memory> {
    boxed(alloc, model_by(alloc, plans))
}

fn model_by(alloc: Global, plans: &[Plan]) -> Result<ModelPart, Memory> {
    let dims = one(alloc, Kind::Int)?;
    let measures = two(alloc, Kind::Int, Kind::Int)?;
    let names = two(alloc, Words::new(alloc, "S")?, Words::new(alloc, "A")?)?;
    let rules = rules(alloc, plans)?;
    Ok(model_with(alloc, dims, measures, names, rules))
}

// The number of the cell at a place of a list.
fn number_at(place: usize) -> i128 {
    place as i128 + 1
}

/// The key of the cell at a place of a list.
pub fn key_at(alloc: Global, place: usize) -> Result<Key, Memory> {
    key(alloc, number_at(place))
}

fn measures(alloc: Global, given: (i128, i128)) -> Result<Key, Memory> {
    Key::new(alloc, two(alloc, value(given.0), value(given.1))?)
}

fn cell(alloc: Global, place: usize, given: (i128, i128)) -> Result<(Key, Key), Memory> {
    let measures = measures(alloc, given)?;
    Ok((key_at(alloc, place)?, measures))
}

/// A partition with these cells.
pub fn input(alloc: Global, given: &[Given]) -> Result<PartInput, Memory> {
    let mut cells = Items::new(alloc);
    for place in 0..given.len() {
        if let Some(measures) = given[place] {
            cells.push(cell(alloc, place, measures)?)?;
        }
    }
    Ok(PartInput {
        key: Key::empty(),
        cells,
        repeated: None,
    })
}
