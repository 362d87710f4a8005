// Changes of small partitions: what comes to stand, by hand, and beside the same computed anew.
mod kept;
mod models;
mod numbers;

use crate::cells::kept::{At, Kept};
use crate::cells::models::{Given, Plan, Right, Source, Spot, Target, model};
use crate::cells::numbers::{Change, Numbers};
use mq_ir::{Model, ModelPart};
use mq_values::{FaultKind, Memory, Mode};
use std::alloc::Global;
use std::test::Fail as Failed;

// The two measures of a target.
const OWN_S: Source = (0, Spot::Behind(0));

const OWN_A: Source = (1, Spot::Behind(0));

// S of the cell behind a target.
const BEFORE: Source = (0, Spot::Behind(1));

// What is wanted after a change: what stands at S of some cells, or a fault by its rule and its cell.
#[derive(Clone, Copy)]
enum Wanted<'a> {
    Stands(&'a [(i128, At)]),
    Breaks(FaultKind, u32, i128),
}

// A change: the input from then on, and what is wanted.
type Step<'a> = (&'a [Given], Wanted<'a>);

// S of a target is this.
fn rule(target: Target, right: Right) -> Plan {
    Plan {
        mode: Mode::Upsert,
        measure: 0,
        target,
        right,
    }
}

fn model_of(part: &ModelPart) -> Model<'_> {
    Model {
        part,
        lists: &[],
        refs: &[],
    }
}

// The years 1 to 50, each with its own number, but for the first, which has this one.
fn years(alloc: Global, first: i128) -> Result<Vec<Given>, Memory> {
    let mut years = Vec::new(alloc);
    years.push(Some((first, 0)))?;
    for year in 2..51_u64 {
        years.push(Some((year as i128, 0)))?;
    }
    Ok(years)
}

// The call that carries a change on.
#[derive(Clone, Copy)]
enum Way {
    Propagate,
    Refresh,
}

// How much of the store is read and written where one input changes to another, if then there is what is computed anew, and
// this stands.
fn cost_of(
    alloc: Global,
    way: Way,
    plans: &[Plan],
    before: &[Given],
    after: &[Given],
    wanted: &[(i128, At)],
) -> Result<Option<(u64, u64)>, Memory> {
    let part = model(alloc, plans)?;
    cost_over(alloc, way, part.get(), before, after, wanted)
}

fn cost_over(
    alloc: Global,
    way: Way,
    part: &ModelPart,
    before: &[Given],
    after: &[Given],
    wanted: &[(i128, At)],
) -> Result<Option<(u64, u64)>, Memory> {
    let model = model_of(part);
    let mut kept = Kept::begin(alloc, &model, before)?;
    let same = match way {
        Way::Propagate => kept.change(alloc, &model, after)?,
        Way::Refresh => kept.refresh(alloc, &model, after)?,
    };
    if !same {
        return Ok(None);
    }
    if !kept.all_stand(alloc, wanted)? {
        return Ok(None);
    }
    Ok(Some((kept.reads, kept.writes)))
}

// Ten cells look at two each, and one year changes: how much is read and written.
fn cost_of_a_year(alloc: Global, way: Way) -> Result<Option<(u64, u64)>, Memory> {
    let later = Right::Sum(BEFORE, (0, Spot::Behind(50)));
    let plans = [rule(Target::Steps(51, 60), later)];
    let before = years(alloc, 1)?;
    let after = years(alloc, 11)?;
    let wanted = [(51, At::Is(61)), (52, At::Is(63)), (60, At::Is(115))];
    cost_of(
        alloc,
        way,
        &plans,
        before.as_slice(),
        after.as_slice(),
        &wanted,
    )
}

#[test]
fn ten_cells_are_found_anew_by_twenty_reads(rt: HostRuntime) -> Result<(), Failed> {
    let Some((reads, writes)) = cost_of_a_year(rt.alloc(), Way::Propagate)? else {
        panic!(rt; "not as computed anew")
    };
    assert!(rt; reads <= 20);
    assert_eq!(rt; writes, 10);
    Ok(())
}

#[test]
fn a_kept_partition_is_refreshed_by_as_few(rt: HostRuntime) -> Result<(), Failed> {
    let Some((reads, writes)) = cost_of_a_year(rt.alloc(), Way::Refresh)? else {
        panic!(rt; "not as computed anew")
    };
    assert!(rt; reads <= 20);
    assert_eq!(rt; writes, 10);
    Ok(())
}

// A chain of ten thousand cells, with this at A of the last one, and 1 at A of each other.
fn chain(alloc: Global, last: i128) -> Result<Vec<Given>, Memory> {
    let mut chain = Vec::new(alloc);
    for _ in 1..10_000 {
        chain.push(Some((1, 1)))?;
    }
    chain.push(Some((1, last)))?;
    Ok(chain)
}

// The last of the chain changes: how much is read and written.
fn cost_of_the_end(alloc: Global) -> Result<Option<(u64, u64)>, Memory> {
    let plans = [rule(Target::After(1), Right::Sum(BEFORE, OWN_A))];
    let before = chain(alloc, 1)?;
    let after = chain(alloc, 5)?;
    let wanted = [(9_999, At::Is(9_999)), (10_000, At::Is(10_004))];
    cost_of(
        alloc,
        Way::Propagate,
        &plans,
        before.as_slice(),
        after.as_slice(),
        &wanted,
    )
}

#[test]
fn the_end_of_a_long_chain_costs_two_reads(rt: HostRuntime) -> Result<(), Failed> {
    assert_eq!(rt; cost_of_the_end(rt.alloc())?, Some((2, 1)));
    Ok(())
}

fn meets(alloc: Global, kept: &mut Kept, wanted: Wanted<'_>) -> Result<bool, Memory> {
    match wanted {
        Wanted::Stands(slots) => kept.all_stand(alloc, slots),
        Wanted::Breaks(kind, rule, cell) => kept.breaks(alloc, kind, rule, cell),
    }
}

fn all_are_met(alloc: Global, part: &ModelPart, steps: &[Step<'_>]) -> Result<bool, Memory> {
    let model = model_of(part);
    let mut kept = Kept::begin(alloc, &model, &[])?;
    for (given, wanted) in steps {
        if !kept.change(alloc, &model, given)? {
            return Ok(false);
        }
        if !meets(alloc, &mut kept, *wanted)? {
            return Ok(false);
        }
    }
    Ok(true)
}

// Whether each change of an empty partition leaves what is wanted, and what is there where it is computed anew.
fn follows(alloc: Global, plans: &[Plan], steps: &[Step<'_>]) -> Result<bool, Memory> {
    let part = model(alloc, plans)?;
    all_are_met(alloc, part.get(), steps)
}

#[test]
fn a_cell_that_enters_or_leaves_a_range_counts(rt: HostRuntime) -> Result<(), Failed> {
    let plans = [rule(Target::Cell(3), Right::Total(1, 1, 2))];
    let steps: [Step<'_>; 4] = [
        (&[None, Some((0, 20))], Wanted::Stands(&[(3, At::Is(20))])),
        (
            &[Some((0, 10)), Some((0, 20))],
            Wanted::Stands(&[(3, At::Is(30))]),
        ),
        (&[Some((0, 10))], Wanted::Stands(&[(3, At::Is(10))])),
        (&[], Wanted::Stands(&[(3, At::Null)])),
    ];
    assert!(rt; follows(rt.alloc(), &plans, &steps)?);
    Ok(())
}

// S of cell 1 is made by a rule, which makes no cell present.
#[test]
fn a_presence_that_comes_and_goes_is_seen(rt: HostRuntime) -> Result<(), Failed> {
    let at_one = (0, Spot::At(1));
    let plans = [
        rule(
            Target::Cell(1),
            Right::Sum((1, Spot::At(2)), (1, Spot::At(2))),
        ),
        rule(Target::Cell(3), Right::IfPresent(1, at_one)),
        rule(Target::Cell(4), Right::PresentV(1, at_one)),
    ];
    let absent = Wanted::Stands(&[(1, At::Is(10)), (3, At::Is(0)), (4, At::Is(0))]);
    let present = Wanted::Stands(&[(1, At::Is(10)), (3, At::Is(10)), (4, At::Is(10))]);
    let steps: [Step<'_>; 3] = [
        (&[None, Some((0, 5))], absent),
        (&[Some((7, 0)), Some((0, 5))], present),
        (&[None, Some((0, 5))], absent),
    ];
    assert!(rt; follows(rt.alloc(), &plans, &steps)?);
    Ok(())
}

// S of cell 1 is that of cell 5, where it is present, and from cell 5 on S looks at cell 1.
#[test]
fn a_cycle_comes_and_goes(rt: HostRuntime) -> Result<(), Failed> {
    let plans = [
        rule(Target::Cell(1), Right::IfPresent(5, (0, Spot::At(5)))),
        rule(Target::After(4), Right::Sum((0, Spot::At(1)), OWN_A)),
    ];
    let steps: [Step<'_>; 4] = [
        (
            &[None, None, None, None, None, Some((0, 7))],
            Wanted::Stands(&[(1, At::Is(0)), (6, At::Is(7))]),
        ),
        (
            &[None, None, None, None, Some((0, 3)), Some((0, 7))],
            Wanted::Breaks(FaultKind::Cycle, 1, 1),
        ),
        (
            &[None, None, None, None, None, Some((0, 8))],
            Wanted::Stands(&[(1, At::Is(0)), (6, At::Is(8))]),
        ),
        (
            &[None, None, None, None, None, Some((0, 9))],
            Wanted::Stands(&[(1, At::Is(0)), (6, At::Is(9))]),
        ),
    ];
    assert!(rt; follows(rt.alloc(), &plans, &steps)?);
    Ok(())
}

// Cell 2 has a ratio, and each behind it adds its own.
#[test]
fn a_fault_poisons_what_looks_at_it_until_it_heals(rt: HostRuntime) -> Result<(), Failed> {
    let plans = [
        rule(Target::Cell(2), Right::Ratio((1, Spot::At(1)), OWN_A)),
        rule(Target::After(2), Right::Sum(BEFORE, OWN_A)),
    ];
    let steps: [Step<'_>; 3] = [
        (
            &[Some((0, 8)), Some((0, 2)), Some((0, 1)), Some((0, 1))],
            Wanted::Stands(&[(2, At::Is(4)), (3, At::Is(5)), (4, At::Is(6))]),
        ),
        (
            &[Some((0, 8)), Some((0, 0)), Some((0, 1)), Some((0, 1))],
            Wanted::Stands(&[(2, At::Divides), (3, At::Poisoned), (4, At::Poisoned)]),
        ),
        (
            &[Some((0, 8)), Some((0, 4)), Some((0, 1)), Some((0, 1))],
            Wanted::Stands(&[(2, At::Is(2)), (3, At::Is(3)), (4, At::Is(4))]),
        ),
    ];
    assert!(rt; follows(rt.alloc(), &plans, &steps)?);
    Ok(())
}

// Two rules assign what they find, and meet at cell 3 where it is there.
#[test]
fn an_assignment_goes_with_its_cell(rt: HostRuntime) -> Result<(), Failed> {
    let plans = [
        Plan {
            mode: Mode::Update,
            measure: 0,
            target: Target::Cell(3),
            right: Right::Sum((1, Spot::At(1)), (1, Spot::At(1))),
        },
        rule(Target::After(2), Right::Sum(OWN_A, (1, Spot::At(1)))),
    ];
    let steps: [Step<'_>; 4] = [
        (
            &[Some((9, 1)), Some((2, 2)), None, Some((4, 4))],
            Wanted::Stands(&[
                (1, At::Is(9)),
                (2, At::Is(2)),
                (3, At::Null),
                (4, At::Is(5)),
            ]),
        ),
        (
            &[Some((9, 1)), Some((2, 2)), Some((3, 3)), Some((4, 4))],
            Wanted::Breaks(FaultKind::AssignedTwice, 2, 3),
        ),
        (
            &[Some((9, 2)), Some((2, 2)), None, Some((4, 4))],
            Wanted::Stands(&[(2, At::Is(2)), (3, At::Null), (4, At::Is(6))]),
        ),
        (
            &[Some((9, 2)), Some((2, 2))],
            Wanted::Stands(&[(2, At::Is(2)), (4, At::Null)]),
        ),
    ];
    assert!(rt; follows(rt.alloc(), &plans, &steps)?);
    Ok(())
}

fn apply(given: &mut [Given], change: &Change) {
    for (place, next) in change {
        if *place < given.len() {
            given[*place] = *next;
        }
    }
}

// After how many of these changes there is a shape; `None` where one leaves anything else than computing anew.
fn agreed(
    alloc: Global,
    plans: &[Plan],
    given: &mut [Given],
    changes: &[Change],
) -> Result<Option<u32>, Memory> {
    let part = model(alloc, plans)?;
    agreed_over(alloc, part.get(), given, changes)
}

fn agreed_over(
    alloc: Global,
    part: &ModelPart,
    given: &mut [Given],
    changes: &[Change],
) -> Result<Option<u32>, Memory> {
    let model = model_of(part);
    let mut kept = Kept::begin(alloc, &model, given)?;
    let mut shapes: u32 = 0;
    for change in changes {
        apply(given, change);
        if !kept.change(alloc, &model, given)? {
            return Ok(None);
        }
        if kept.is_done() {
            shapes = shapes.saturating_add(1);
        }
    }
    Ok(Some(shapes))
}

// The same of a model and changes by the next numbers.
fn agreed_by(alloc: Global, numbers: &mut Numbers) -> Result<Option<u32>, Memory> {
    let plans = numbers.plans(alloc)?;
    let mut given = numbers.input(alloc)?;
    let changes = numbers.changes(alloc)?;
    agreed(
        alloc,
        plans.as_slice(),
        given.as_mut_slice(),
        changes.as_slice(),
    )
}

#[test]
fn six_thousand_changes_leave_what_computing_anew_does(rt: HostRuntime) -> Result<(), Failed> {
    let mut numbers = Numbers::new();
    let mut shapes: u32 = 0;
    for number in 0..300 {
        let agreed = agreed_by(rt.alloc(), &mut numbers)?;
        assert!(rt; agreed.is_some(), "model {number}");
        shapes = shapes.saturating_add(agreed.unwrap_or(0));
    }
    // so many inputs have a shape, and no CYCLE, as a plain program of shapes alone counted them
    assert_eq!(rt; shapes, 4_249);
    Ok(())
}
