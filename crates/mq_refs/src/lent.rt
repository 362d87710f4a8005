//! What the leaves of a right side are worth, over the cells of a store and the values that it lends.
ghost use Rattle.std.specs.Prelude.{◌≡◌, map};
ghost use Rattle.std.specs.List.{filter};
ghost use Rattle.mq_values.specs.Aggregate.{aggregate};
ghost use Rattle.mq_values.specs.Answers.{Gives};
ghost use Rattle.mq_ir.specs.Reads as spec;
ghost use Rattle.mq_ir.specs.Targets.{meets_every};
ghost use Rattle.mq_cells.specs.IndexedStores.{base_in, keys_in, value_in};
ghost use Rattle.mq_cells.specs.Stores.{cell_name};
ghost use Rattle.mq_refs.specs.Orders.{IsOrderOf, IsOrderOf-prop};
ghost use Rattle.mq_refs.specs.Sites.{site_over};

use crate::cell_keys::CellKeys;
use crate::lenders::aggregate_lent;
use crate::lent_places::OwnPlaces;
use crate::names::tests_named;
use crate::order::RefsOrder;
use crate::reading::leaf_value;
use crate::standpoint::Standpoint;
use mq_cells::{IndexedCells, LentStore};
use mq_ir::{Leaf, Test};
use mq_scalar::Env;
use mq_values::{Agg, DimTest, Fail, Value, ValueFault};
use std::alloc::Global;

/// The place of a right side over the cells of one store: the values of a range stand at the places of its keys, so no key is
/// looked at for them. Another cell is looked for beside the place `near` first.
#[derive(Drop)]
pub struct LentReading<'a> {
    pub at: &'a Standpoint<'a>,
    pub refs: RefsOrder,
    pub store: &'a IndexedCells,
    pub near: u32,
    ghost refs_known: { IsOrderOf refs at.now.model.now } by { IsOrderOf-prop refs at.now.model.now },
}

impl Env for LentReading<'_> {
    ghost gives = { λ env. spec.read (site_over env.at.now (keys_in env.store.now)) (base_in env.store.now) (value_in env.store.now) };

    fn leaf(&mut self, alloc: Global, leaf: &Leaf) -> Result<Value, Fail<ValueFault>> {
        match leaf {
            Leaf::Range(agg, measure, places) => range_lent(
                alloc,
                self.at,
                *agg,
                *measure,
                places.as_slice(),
                self.store,
            ),
            _ => leaf_lent(alloc, self.at, self.store, self.refs, leaf, &mut self.near),
        }
    }
}

// What a leaf is worth. A cell that it reads is looked for at the place `near` and beside it first, and `near` is where it was
// found then.
fn leaf_lent(
    alloc: Global,
    at: &Standpoint<'_>,
    store: &IndexedCells,
    refs: RefsOrder,
    leaf: &Leaf,
    near: &mut u32,
) -> Result<Value, Fail<ValueFault>>
    requires { IsOrderOf refs at.now.model.now }
    ensures { Gives result (spec.read (site_over at.now (keys_in store.now)) (base_in store.now) (value_in store.now) leaf.now) }
{
    let mut lent = LentStore::new(store, *near);
    let result = leaf_value(alloc, at, store, refs, leaf, &mut lent);
    *near = lent.near();
    result
}

// An aggregate of a measure over the cells that meet each place, without NAV.
fn range_lent(
    alloc: Global,
    at: &Standpoint<'_>,
    agg: Agg,
    measure: u32,
    places: &[Test],
    store: &IndexedCells,
) -> Result<Value, Fail<ValueFault>>
    ensures { Gives result (spec.range_value (site_over at.now (keys_in store.now)) (value_in store.now) agg measure places.now) }
{
    let tests = tests_named(alloc, at, at.model.part.dims.as_slice(), places)?;
    aggregate_meeting(alloc, agg, measure, tests.as_slice(), store)
}

// An aggregate of a measure over the cells that meet every test.
fn aggregate_meeting(
    alloc: Global,
    agg: Agg,
    measure: u32,
    tests: &[DimTest],
    store: &IndexedCells,
) -> Result<Value, Fail<ValueFault>>
    ensures { Gives result (aggregate agg (map (λ key. value_in store.now (cell_name key measure))
        (filter (meets_every tests.now) (keys_in store.now)))) }
{
    let runs = store.runs_meeting(alloc, tests)?;
    aggregate_lent(agg, runs.as_slice(), &OwnPlaces { store, measure })
}
