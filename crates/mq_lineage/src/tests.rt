// Steps over a partition of three cells: which lists of them are accepted, by hand.
use crate::check;
use mq_ir::{
    BoundSum, CellName, Derivation, DerivationStep, Expr, Leaf, Left, LeftItem, Model, ModelPart,
    PartInput, PartShape, Rule, Slot,
};
use mq_values::{Boxed, Items, Key, Kind, Memory, Mode, Num, SumOp, Value, ValueFault, Words};
use std::alloc::Global;
use std::test::Fail as Failed;

// What stands at a measure in a case.
#[derive(Clone, Copy)]
enum At {
    Is(i128),
    Null,
    Overflows,
    Poisoned,
}

// A step of a case: the cell, the rule, or 0 where none is, and what stands there.
type Step = (i128, u32, At);

// The step of the first cell, where it holds a five.
const FIRST: Step = (1, 0, At::Is(5));

fn one<T: Drop>(alloc: Global, item: T) -> Result<Items<T>, Memory> {
    let mut items = Items::new(alloc);
    items.push(item)?;
    Ok(items)
}

fn value(number: i128) -> Value {
    Value::Num(Num::new(number, 0))
}

fn key(alloc: Global, number: i128) -> Result<Key, Memory> {
    Key::one(alloc, value(number))
}

// The measure of the cell behind this one, and one more.
fn next_to(alloc: Global, cell: i128) -> Result<Expr, Memory> {
    let index = one(alloc, Expr::Lit(value(cell)))?;
    let measure = Boxed::new(alloc, Expr::Leaf(Leaf::Cell(0, index)))?;
    let term = BoundSum {
        op: SumOp::Add,
        e: Expr::Lit(value(1)),
    };
    Ok(Expr::Sum(measure, one(alloc, term)?))
}

fn place(alloc: Global, cell: i128) -> Result<Left, Memory> {
    let place = LeftItem::At(Expr::Lit(value(cell)));
    Ok(Left::Places(one(alloc, place)?))
}

// The measure of a cell is that of another one, and one more.
fn rule(alloc: Global, cell: i128, other: i128) -> Result<Rule, Memory> {
    let left = place(alloc, cell)?;
    let right = next_to(alloc, other)?;
    Ok(Rule {
        mode: Mode::Update,
        measure: 0,
        left,
        order: Items::new(alloc),
        right,
    })
}

// The second cell comes from the first, and the third from the second.
fn rules(alloc: Global) -> Result<Items<Rule>, Memory> {
    let mut rules = one(alloc, rule(alloc, 2, 1)?)?;
    rules.push(rule(alloc, 3, 2)?)?;
    Ok(rules)
}

// A model in automatic order with these rules, and nothing beside them.
fn model_with(
    alloc: Global,
    dims: Items<Kind>,
    measures: Items<Kind>,
    names: Items<Words>,
    rules: Items<Rule>,
) -> ModelPart {
    ModelPart {
        parts: 0,
        part_kinds: Items::new(alloc),
        dims,
        measures,
        names,
        ignore_nav: false,
        updated_only: false,
        auto: true,
        iterate: None,
        rules,
        refs: Items::new(alloc),
        lists: Items::new(alloc),
    }
}

// One dimension and one measure, and the two rules.
fn model(alloc: Global) -> Result<ModelPart, Memory> {
    let dims = one(alloc, Kind::Int)?;
    let measures = one(alloc, Kind::Int)?;
    let names = one(alloc, Words::new(alloc, "M")?)?;
    Ok(model_with(alloc, dims, measures, names, rules(alloc)?))
}

fn cell(alloc: Global, number: i128, measure: Value) -> Result<(Key, Key), Memory> {
    let measures = Key::one(alloc, measure)?;
    Ok((key(alloc, number)?, measures))
}

fn cells(alloc: Global, first: i128) -> Result<Items<(Key, Key)>, Memory> {
    let mut cells = one(alloc, cell(alloc, 1, value(first))?)?;
    cells.push(cell(alloc, 2, value(0))?)?;
    cells.push(cell(alloc, 3, Value::Null)?)?;
    Ok(cells)
}

// Three cells, of which the first holds this number, and the third none.
fn input(alloc: Global, first: i128) -> Result<PartInput, Memory> {
    let cells = cells(alloc, first)?;
    Ok(PartInput {
        key: Key::empty(),
        cells,
        repeated: None,
    })
}

fn keys(alloc: Global) -> Result<Items<Key>, Memory> {
    let mut keys = one(alloc, key(alloc, 1)?)?;
    keys.push(key(alloc, 2)?)?;
    keys.push(key(alloc, 3)?)?;
    Ok(keys)
}

// What the two rules assign: one cell each.
fn assigned(alloc: Global) -> Result<Items<(Key, u32, u32)>, Memory> {
    let mut assigned = one(alloc, (key(alloc, 2)?, 0, 1))?;
    assigned.push((key(alloc, 3)?, 0, 2))?;
    Ok(assigned)
}

// What the two rules make of the three cells.
fn shape(alloc: Global) -> Result<PartShape, Memory> {
    let base = keys(alloc)?;
    let cells = keys(alloc)?;
    let assigned = assigned(alloc)?;
    Ok(PartShape {
        base,
        cells,
        assigned,
    })
}

fn slot(at: At) -> Slot {
    match at {
        At::Is(number) => Slot::Done(value(number)),
        At::Null => Slot::Done(Value::Null),
        At::Overflows => Slot::Faulted(ValueFault::Overflow),
        At::Poisoned => Slot::Poisoned,
    }
}

fn rule_number(rule: u32) -> Option<u32> {
    if rule == 0 { None } else { Some(rule) }
}

fn step(alloc: Global, step: Step) -> Result<DerivationStep, Memory> {
    let key = key(alloc, step.0)?;
    Ok(DerivationStep {
        name: CellName { key, measure: 0 },
        rule: rule_number(step.1),
        slot: slot(step.2),
    })
}

fn steps(alloc: Global, told: &[Step]) -> Result<Derivation, Memory> {
    let mut steps = Items::new(alloc);
    for each in told {
        steps.push(step(alloc, *each)?)?;
    }
    Ok(Derivation { steps })
}

// Whether these steps are accepted over this input.
fn accepts_over(
    alloc: Global,
    part: &ModelPart,
    input: &PartInput,
    told: &[Step],
) -> Result<bool, Memory> {
    let model = Model {
        part,
        lists: &[],
        refs: &[],
    };
    let shape = shape(alloc)?;
    let told = steps(alloc, told)?;
    check(alloc, &model, input, &shape, &told)
}

fn accepts_in(alloc: Global, part: &ModelPart, first: i128, told: &[Step]) -> Result<bool, Memory> {
    let input = input(alloc, first)?;
    accepts_over(alloc, part, &input, told)
}

// Whether these steps are accepted over three cells, of which the first holds this number.
fn accepts(alloc: Global, first: i128, told: &[Step]) -> Result<bool, Memory> {
    let part = model(alloc)?;
    accepts_in(alloc, &part, first, told)
}

#[test]
fn steps_that_each_come_from_earlier_ones_are_accepted(rt: HostRuntime) -> Result<(), Failed> {
    let cases: [(i128, &[Step]); 4] = [
        (5, &[]),
        (5, &[FIRST, (2, 1, At::Is(6)), (3, 2, At::Is(7))]),
        // a cell that is not there, and one step twice
        (5, &[(9, 0, At::Null), FIRST, FIRST, (2, 1, At::Is(6))]),
        // a fault, and what looks at one
        (
            i128::MAX,
            &[
                (1, 0, At::Is(i128::MAX)),
                (2, 1, At::Overflows),
                (3, 2, At::Poisoned),
            ],
        ),
    ];
    for (number, told) in cases {
        assert!(rt; accepts(rt.alloc(), number, told)?);
    }
    Ok(())
}

#[test]
fn steps_that_come_from_something_else_are_refused(rt: HostRuntime) -> Result<(), Failed> {
    let cases: [(i128, &[Step]); 10] = [
        // a look that stands later, or nowhere
        (5, &[(2, 1, At::Is(6)), FIRST]),
        (5, &[FIRST, (3, 2, At::Is(7)), (2, 1, At::Is(6))]),
        (5, &[FIRST, (3, 2, At::Is(7))]),
        // another rule, none, and a rule where none is
        (5, &[FIRST, (2, 2, At::Is(6))]),
        (5, &[(2, 0, At::Is(0))]),
        (5, &[(1, 1, At::Is(5))]),
        // another value, of the input and of a rule
        (5, &[(1, 0, At::Is(4))]),
        (5, &[(9, 0, At::Is(0))]),
        (5, &[FIRST, (2, 1, At::Is(7))]),
        // poisoned, where there is a fault
        (
            i128::MAX,
            &[(1, 0, At::Is(i128::MAX)), (2, 1, At::Poisoned)],
        ),
    ];
    for (number, told) in cases {
        assert!(rt; !accepts(rt.alloc(), number, told)?);
    }
    Ok(())
}
