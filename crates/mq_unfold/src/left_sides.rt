//! The single left sides of a rule in a turn.
ghost use Rattle.std.specs.Prelude.{◌≡◌, [], ◌∷◌, map, length, Ok, IfOk};
ghost use Rattle.mq_ir.specs.Combinations.{combinations};
ghost use Rattle.mq_values.specs.Answers.{Gives};
ghost use Rattle.mq_ir.specs.Unfolding.{in_order as spec_in_order, kind_at as spec_kind_at, left_places, model_of, single, source_rows, unfold_rule};
ghost use Rattle.mq_unfold.specs.LeftSides.{Unfolds, left_sides_of, limited, place_named, raised_of};

use crate::copies::same_place;
use crate::forms::Spread;
use crate::fronts::combined;
use crate::places::kind_at;
use crate::sources::rows_of;
use crate::spreads::{number_of, spreads_of};
use mq_ir::{
    Left, LeftItem, ListSource, Model, Rule, SingleLeft, SinglePlace, combinations_are_counted,
};
use mq_values::{Fail, Items, Kind, MAX_SINGLE_LEFT_SIDES, Memory, Value, ValueFault};
use std::alloc::Global;

/// Why a rule has no single left sides in a turn (docs/LANGUAGE.md, "Faults").
#[derive(Clone, Copy, Debug)]
pub enum UnfoldFault {
    /// A value of the left side has this fault.
    Value(ValueFault),
    /// There are more of them than there may be.
    TooMany,
}

/// The single left sides of the rule with this number, counted from 1, in this turn, in the order in which they act:
/// of several FORs the first turns slowest. A number that no rule has stands for none. The first fault of a value,
/// from left to right, is the answer; `TooMany` comes where no value has a fault and there are more than
/// `MAX_SINGLE_LEFT_SIDES`, and then none is made (docs/MEANING.md, "Left sides").
pub fn unfold(
    alloc: Global,
    m: &Model<'_>,
    rule: u32,
    turn: u32,
) -> Result<Items<SingleLeft>, Fail<UnfoldFault>>
    ensures exact { Unfolds result (left_sides_of (model_of m.now) rule turn) }
{
    let Some(place) = rule.checked_sub(1) else {
        return Ok(Items::new(alloc));
    };
    match m.part.rules.get(place as usize) {
        Some(rule) => unfolded(alloc, m, rule, turn),
        None => Ok(Items::new(alloc)),
    }
}

// The single left sides of this rule.
fn unfolded(
    alloc: Global,
    m: &Model<'_>,
    rule: &Rule,
    turn: u32,
) -> Result<Items<SingleLeft>, Fail<UnfoldFault>>
    ensures { Unfolds result (unfold_rule (model_of m.now) rule.now turn) }
{
    let rows = rows_within(alloc, m, turn, &rule.left)?;
    Ok(singles(alloc, rule, rows)?)
}

// The places of the single left sides, where they are not too many.
fn rows_within(
    alloc: Global,
    m: &Model<'_>,
    turn: u32,
    left: &Left,
) -> Result<Items<Items<SinglePlace>>, Fail<UnfoldFault>>
    ensures { Unfolds result (limited (left_places (model_of m.now) turn left.now)) }
{
    match left {
        Left::Places(items) => match spreads_of(alloc, m, turn, items.as_slice()) {
            Ok(spreads) => combined_within(alloc, spreads),
            Err(fail) => Err(raised(fail)),
        },
        Left::Tuples(dims, source) => match tuples(alloc, m, turn, dims.as_slice(), source) {
            Ok(rows) => ordered_within(alloc, m, dims.as_slice(), rows.as_slice()),
            Err(fail) => Err(raised(fail)),
        },
    }
}

// The fault of a value, as one of unfolding.
fn raised(fail: Fail<ValueFault>) -> Fail<UnfoldFault>
    ensures { result ≡ raised_of fail }
{
    match fail {
        Fail::Cause(fault) => Fail::Cause(UnfoldFault::Value(fault)),
        Fail::Memory => Fail::Memory,
    }
}

// One place of each spread in every way, where that is not too many.
fn combined_within(
    alloc: Global,
    spreads: Items<Spread>,
) -> Result<Items<Items<SinglePlace>>, Fail<UnfoldFault>>
    ensures { Unfolds result (limited (Ok (combinations spreads))) }
{
    combinations_are_counted();
    let number = number_of(spreads.as_slice());
    if number == 0 {
        return Ok(Items::new(alloc));
    }
    if number > MAX_SINGLE_LEFT_SIDES {
        return Err(Fail::Cause(UnfoldFault::TooMany));
    }
    Ok(combined(alloc, spreads)?)
}

// The rows of a FOR over several dimensions, with a place for each dimension that it names.
fn tuples(
    alloc: Global,
    m: &Model<'_>,
    turn: u32,
    dims: &[u32],
    source: &ListSource,
) -> Result<Items<Items<SinglePlace>>, Fail<ValueFault>>
    ensures { Gives result (source_rows (model_of m.now) turn (map (spec_kind_at (model_of m.now)) dims.now) source.now) }
{
    let kinds = kinds_of(alloc, m, dims)?;
    rows_of(alloc, m, turn, kinds.as_slice(), source)
}

// The kinds of these dimensions.
fn kinds_of(alloc: Global, m: &Model<'_>, dims: &[u32]) -> Result<Items<Kind>, Memory>
    ensures { IfOk result (λ kinds. kinds ≡ map (spec_kind_at (model_of m.now)) dims.now) }
{
    let mut kinds = Items::new(alloc);
    for dim in dims {
        kinds.push(kind_at(m, *dim as usize))?;
    }
    Ok(kinds)
}

// The rows with their places in the order of the dimensions, where they are not too many.
fn ordered_within(
    alloc: Global,
    m: &Model<'_>,
    dims: &[u32],
    rows: &[Items<SinglePlace>],
) -> Result<Items<Items<SinglePlace>>, Fail<UnfoldFault>>
    ensures { Unfolds result (limited (Ok (map (spec_in_order (length (model_of m.now).part.dims) dims.now) rows.now))) }
{
    if rows.len() > MAX_SINGLE_LEFT_SIDES {
        return Err(Fail::Cause(UnfoldFault::TooMany));
    }
    let count = m.part.dims.len();
    Ok(ordered(alloc, count, dims, rows)?)
}

fn ordered(
    alloc: Global,
    count: usize,
    dims: &[u32],
    rows: &[Items<SinglePlace>],
) -> Result<Items<Items<SinglePlace>>, Memory>
    ensures { IfOk result (λ all. all ≡ map (spec_in_order count dims.now) rows.now) }
{
    let mut all = Items::new(alloc);
    for row in rows {
        all.push(in_order(alloc, count, dims, row.as_slice())?)?;
    }
    Ok(all)
}

// A row in the order of the dimensions.
#[tactic(auto, using(crate::proofs::ListLemmas::range_on))]
fn in_order(
    alloc: Global,
    count: usize,
    dims: &[u32],
    row: &[SinglePlace],
) -> Result<Items<SinglePlace>, Memory>
    ensures { IfOk result (λ places. places ≡ spec_in_order count dims.now row.now) }
{
    let mut places = Items::new(alloc);
    for dim in 0..count {
        places.push(named_at(alloc, dim, dims, row)?)?;
    }
    Ok(places)
}

// The place in a row of the dimension that FOR names.
fn named_at(
    alloc: Global,
    dim: usize,
    dims: &[u32],
    row: &[SinglePlace],
) -> Result<SinglePlace, Memory>
    ensures { IfOk result (λ p. p ≡ place_named dims.now row.now dim) }
{
    for i in 0..dims.len().min(row.len()) {
        if dims[i] as usize == dim {
            return same_place(alloc, &row[i]);
        }
    }
    Ok(SinglePlace::At(Value::Null))
}

// The single left sides with these places.
fn singles(
    alloc: Global,
    rule: &Rule,
    rows: Items<Items<SinglePlace>>,
) -> Result<Items<SingleLeft>, Memory>
    ensures { IfOk result (λ lefts. lefts ≡ map (single rule.now) rows) }
{
    let mut lefts = Items::new(alloc);
    for places in rows.into_vec() {
        let order = same_order(alloc, rule.order.as_slice())?;
        lefts.push(SingleLeft {
            measure: rule.measure,
            places,
            order,
        })?;
    }
    Ok(lefts)
}

// The same ORDER BY once more.
fn same_order(alloc: Global, order: &[(u32, bool)]) -> Result<Items<(u32, bool)>, Memory>
    ensures { IfOk result (λ keys. keys ≡ order.now) }
{
    let mut keys = Items::new(alloc);
    for key in order {
        keys.push(*key)?;
    }
    Ok(keys)
}
