//! What the leaves of a right side are worth, over measures that are read one by one.
ghost use Rattle.std.specs.Prelude.{◌≡◌, ◌≤◌, List, [], ◌++◌, ◌∷◌, length, map, slice_index_or, IfOk};
ghost use Rattle.std.specs.List.{All, filter};
ghost use Rattle.mq_values.specs.Aggregate.{aggregate};
ghost use Rattle.mq_values.specs.Answers.{Gives};
ghost use Rattle.mq_values.specs.declared.value.Value.{Value as OneValue};
ghost use Rattle.mq_dim_index.specs.PlaceRuns.{numbers_in, numbers_of};
ghost use Rattle.mq_ir.specs.Expression as expression;
ghost use Rattle.mq_ir.specs.Reads as spec;
ghost use Rattle.mq_ir.specs.Targets.{meets_every};
ghost use Rattle.mq_reads.specs.Aggregation.{comes_to};
ghost use Rattle.mq_cells.specs.Stores.{cell_name};
ghost use Rattle.mq_refs.specs.Orders.{IsOrderOf, IsOrderOf-prop};
ghost use Rattle.mq_refs.specs.Sites as sites;
ghost use Rattle.mq_refs.specs.Sites.{site_of, site_over};

use crate::cell_keys::CellKeys;
use crate::inside::inner_leaf;
use crate::lenders::aggregate_lent;
use crate::lent_places::OtherPlaces;
use crate::names::{cell_named, index_named, tests_named};
use crate::order::RefsOrder;
use crate::references::{kind_in, reference_cell};
use crate::standpoint::Standpoint;
use crate::worths::Worths;
use mq_dim_index::PlaceRun;
use mq_ir::{Expr, Leaf, Test};
use mq_reads::{Aggregation, nav};
use mq_scalar::Env;
use mq_values::{Agg, DimTest, Fail, Kind, Memory, Num, Value, ValueFault};
use std::alloc::Global;
use std::slice;

/// The place of a right side that is evaluated over measures which are read one by one. A cell of a reference is found by a
/// search where `refs` says that they ascend.
#[derive(Drop)]
pub struct Reading<'a, K: CellKeys, W: Worths + Drop> {
    pub at: &'a Standpoint<'a>,
    pub keys: &'a K,
    pub refs: RefsOrder,
    pub worths: W,
    ghost refs_known: { IsOrderOf refs at.now.model.now } by { IsOrderOf-prop refs at.now.model.now },
}

impl<K: CellKeys, W: Worths + Drop> Env for Reading<'_, K, W> {
    ghost gives = { λ env. spec.read (site_over env.at.now (K.set env.keys.now)) (K.base env.keys.now) (W.worth env.worths) };

    fn leaf(&mut self, alloc: Global, leaf: &Leaf) -> Result<Value, Fail<ValueFault>> {
        leaf_value(alloc, self.at, self.keys, self.refs, leaf, &mut self.worths)
    }
}

/// What a leaf is worth.
pub fn leaf_value<K: CellKeys, W: Worths>(
    alloc: Global,
    at: &Standpoint<'_>,
    keys: &K,
    refs: RefsOrder,
    leaf: &Leaf,
    worths: &mut W,
) -> Result<Value, Fail<ValueFault>>
    requires { IsOrderOf refs at.now.model.now }
    ensures exact { Gives result (spec.read (site_over at.now (K.set keys.now)) (K.base keys.now) (W.worth worths.old) leaf.now) }
    ensures same { W.worth worths.new ≡ W.worth worths.old }
{
    match leaf {
        Leaf::Cell(measure, indices) => {
            cell_value(alloc, at, *measure, indices.as_slice(), worths)
        }
        Leaf::Range(agg, measure, places) => {
            range_value(alloc, at, keys, *agg, *measure, places.as_slice(), worths)
        }
        Leaf::RefCell(r, measure, indices) => {
            reference_cell(alloc, at, refs, *r, *measure, indices.as_slice())
        }
        Leaf::Present(indices) => presence(alloc, at, keys, indices.as_slice()),
        Leaf::NotNull(measure, indices) => {
            not_null(alloc, at, *measure, indices.as_slice(), worths)
        }
        _ => inner_leaf(at, leaf),
    }
}

/// A measure of a single cell, under NAV.
pub fn cell_value<W: Worths>(
    alloc: Global,
    at: &Standpoint<'_>,
    measure: u32,
    indices: &[Expr],
    worths: &mut W,
) -> Result<Value, Fail<ValueFault>>
    ensures exact { Gives result (spec.cell_value (site_of at.now) (W.worth worths.old) measure indices.now) }
    ensures same { W.worth worths.new ≡ W.worth worths.old }
{
    let v = value_named(alloc, at, measure, indices, worths)?;
    let kind = kind_in(at.model.part.measures.as_slice(), measure);
    Ok(nav(Some(v), kind, at.model.part.ignore_nav))
}

// Whether a measure of a single cell, read without NAV, is not null.
fn not_null<W: Worths>(
    alloc: Global,
    at: &Standpoint<'_>,
    measure: u32,
    indices: &[Expr],
    worths: &mut W,
) -> Result<Value, Fail<ValueFault>>
    ensures exact { Gives result (spec.not_null (site_of at.now) (W.worth worths.old) measure indices.now) }
    ensures same { W.worth worths.new ≡ W.worth worths.old }
{
    let v = value_named(alloc, at, measure, indices, worths)?;
    Ok(flag(!v.is_null()))
}

// A measure of a single cell, without NAV.
fn value_named<W: Worths>(
    alloc: Global,
    at: &Standpoint<'_>,
    measure: u32,
    indices: &[Expr],
    worths: &mut W,
) -> Result<Value, Fail<ValueFault>>
    ensures exact { Gives result (sites.value_named (site_of at.now) (W.worth worths.old) measure indices.now) }
    ensures same { W.worth worths.new ≡ W.worth worths.old }
{
    match worths.next_value(at, measure, indices)? {
        Some(v) => Ok(v),
        None => value_found(alloc, at, measure, indices, worths),
    }
}

// The same, from the key that the indices name. Where it is of one value, no list is made for it.
fn value_found<W: Worths>(
    alloc: Global,
    at: &Standpoint<'_>,
    measure: u32,
    indices: &[Expr],
    worths: &mut W,
) -> Result<Value, Fail<ValueFault>>
    ensures exact { Gives result (sites.value_named (site_of at.now) (W.worth worths.old) measure indices.now) }
    ensures same { W.worth worths.new ≡ W.worth worths.old }
{
    match (at.model.part.dims.as_slice(), indices) {
        ([kind], [index]) => value_by_one(alloc, at, measure, *kind, index, worths),
        (dims, _) => {
            let key = cell_named(alloc, at, dims, indices)?;
            Ok(worths.value(key.as_slice(), measure)?)
        }
    }
}

// The same, where the model has one dimension and its index is `index`.
fn value_by_one<W: Worths>(
    alloc: Global,
    at: &Standpoint<'_>,
    measure: u32,
    kind: Kind,
    index: &Expr,
    worths: &mut W,
) -> Result<Value, Fail<ValueFault>>
    ensures exact { Gives result (sites.value_by_one (site_of at.now) (W.worth worths.old) measure kind index.now) }
    ensures same { W.worth worths.new ≡ W.worth worths.old }
{
    let v = index_named(alloc, at, kind, index)?;
    Ok(worths.value(slice::from_ref(&v), measure)?)
}

// Whether a single cell is in the input.
fn presence<K: CellKeys>(
    alloc: Global,
    at: &Standpoint<'_>,
    keys: &K,
    indices: &[Expr],
) -> Result<Value, Fail<ValueFault>>
    ensures { Gives result (spec.presence (site_of at.now) (K.base keys.now) indices.now) }
{
    let key = cell_named(alloc, at, at.model.part.dims.as_slice(), indices)?;
    Ok(flag(keys.is_based(key.as_slice())))
}

// What a leaf gives that asks whether something holds.
fn flag(holds: bool) -> Value
    ensures { result ≡ expression.flag holds }
{
    Value::Num(Num::new(i128::from(holds), 0))
}

// An aggregate of a measure over the cells that meet each place, without NAV.
fn range_value<K: CellKeys, W: Worths>(
    alloc: Global,
    at: &Standpoint<'_>,
    keys: &K,
    agg: Agg,
    measure: u32,
    places: &[Test],
    worths: &mut W,
) -> Result<Value, Fail<ValueFault>>
    ensures exact { Gives result (spec.range_value (site_over at.now (K.set keys.now)) (W.worth worths.old) agg measure places.now) }
    ensures same { W.worth worths.new ≡ W.worth worths.old }
{
    let tests = tests_named(alloc, at, at.model.part.dims.as_slice(), places)?;
    aggregate_of(alloc, agg, measure, tests.as_slice(), keys, worths)
}

// An aggregate of a measure over the cells that meet every test.
fn aggregate_of<K: CellKeys, W: Worths>(
    alloc: Global,
    agg: Agg,
    measure: u32,
    tests: &[DimTest],
    keys: &K,
    worths: &mut W,
) -> Result<Value, Fail<ValueFault>>
    ensures exact { Gives result (aggregate agg (map (λ key. W.worth worths.old (cell_name key measure))
        (filter (meets_every tests.now) (K.set keys.now)))) }
    ensures same { W.worth worths.new ≡ W.worth worths.old }
{
    let runs = keys.runs_meeting(alloc, tests)?;
    match worths.lent_by() {
        Some(store) => aggregate_lent(
            agg,
            runs.as_slice(),
            &OtherPlaces {
                keys,
                store,
                measure,
            },
        ),
        None => aggregate_read(agg, measure, runs.as_slice(), keys, worths),
    }
}

// An aggregate of a measure over the cells at the places of runs, each of which is read.
fn aggregate_read<K: CellKeys, W: Worths>(
    agg: Agg,
    measure: u32,
    runs: &[PlaceRun],
    keys: &K,
    worths: &mut W,
) -> Result<Value, Fail<ValueFault>>
    requires { All (λ run. run.past ≤ length (K.set keys.now)) runs.now }
    ensures exact { Gives result (aggregate agg (map (λ place. W.worth worths.old
        (cell_name (slice_index_or (K.set keys.now) place []) measure)) (numbers_of runs.now))) }
    ensures same { W.worth worths.new ≡ W.worth worths.old }
{
    let mut aggregation = Aggregation::new(agg);
    for run in runs {
        aggregation = with_run(aggregation, *run, measure, keys, worths)?;
    }
    match aggregation.finish() {
        Ok(v) => Ok(v),
        Err(fault) => Err(Fail::Cause(fault)),
    }
}

// The aggregate with the values of a measure at the places of a run taken.
fn with_run<K: CellKeys, W: Worths>(
    aggregation: Aggregation,
    run: PlaceRun,
    measure: u32,
    keys: &K,
    worths: &mut W,
) -> Result<Aggregation, Memory>
    requires { run.past ≤ length (K.set keys.now) }
    ensures taken { (values : List OneValue) → IfOk result (λ a. comes_to a values ≡ comes_to aggregation
        (map (λ place. W.worth worths.old (cell_name (slice_index_or (K.set keys.now) place []) measure)) (numbers_in run) ++ values)) }
    ensures same { W.worth worths.new ≡ W.worth worths.old }
{
    let mut aggregation = aggregation;
    for place in run.first..run.past {
        let key = keys.key_at(place).as_slice();
        aggregation = with_value(aggregation, place, key, measure, worths)?;
    }
    Ok(aggregation)
}

// The aggregate with a measure of the cell at `key` taken, which is looked for at `place` and beside it first.
fn with_value<W: Worths>(
    aggregation: Aggregation,
    place: u32,
    key: &[Value],
    measure: u32,
    worths: &mut W,
) -> Result<Aggregation, Memory>
    ensures taken { (values : List OneValue) → IfOk result (λ a. comes_to a values
        ≡ comes_to aggregation (W.worth worths.old (cell_name key.now measure) ∷ values)) }
    ensures same { W.worth worths.new ≡ W.worth worths.old }
{
    let v = worths.value_at(place, key, measure)?;
    aggregation.with(&v)
}
