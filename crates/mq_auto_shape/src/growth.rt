//! The cells and the assignments so far, on the walk over the rules.
ghost use Rattle.std.specs.Prelude.{◌≡◌, [], ◌++◌, Some, length, map, IfOk, OnOk};
ghost use Rattle.std.specs.List.{All, filter, find, list_any};
ghost use Rattle.std.specs.List.Sorted.{IsStrictlySortedBy};
ghost use Rattle.mq_values.specs.Order.{cmp_key};
ghost use Rattle.mq_dim_index.specs.Places.{is_there};
ghost use Rattle.mq_ir.specs.Partitions.{ascending};
ghost use Rattle.mq_ir.specs.Shape.{assigns, cmp_assignment, least_of};
ghost use Rattle.mq_ir.specs.Targets as spec;
ghost use Rattle.mq_ir.specs.Ready.{HaveLength};
ghost use Rattle.mq_auto_shape.specs.Walk.{AreUnassigned, Fresh, assigned_by, placed_all};

use crate::least::least;
use crate::mapping::map_tested;
use crate::nodes::NodeList;
use mq_dim_index::DimIndex;
use mq_ir::{Model as Lent, PartShape, SingleLeft};
use mq_targets::{Targets, targets};
use mq_values::{Items, Key, Memory, Mode};
use std::alloc::Global;
use std::marker::Model;

/// The cells that are there so far, and what is assigned so far. Contracts see it as `Growing` of mq_ir's `specs/Shape`,
/// with the assignments ascending.
#[derive(Drop)]
pub struct Growth {
    index: DimIndex,
    assigned: NodeList,
}

impl Model for Growth {
    ghost use Rattle.mq_ir.specs.Shape.{Growing};

    ghost Value = { Growing };

    ghost view = { λ g. record { set = g.index; assigned = g.assigned } };
}

impl Growth {
    /// The cells of an input; nothing is assigned.
    pub fn new(alloc: Global, keys: &[Key]) -> Result<Growth, Memory>
        requires { IsStrictlySortedBy cmp_key keys.now }
        ensures { IfOk result (λ g. g ≡ record { set = keys.now; assigned = [] }) }
    {
        Ok(Growth {
            index: DimIndex::new(alloc, keys)?,
            assigned: NodeList::new(alloc),
        })
    }

    /// The targets of a single left side, which has as many places as a cell has values.
    pub fn targets(&self, alloc: Global, left: &SingleLeft, mode: Mode) -> Result<Targets, Memory>
        requires { HaveLength (length left.now.places) self.now.set }
        ensures cells { IfOk result (λ found. found.cells ≡ (spec.targets left.now mode self.now.set).cells) }
        ensures created { IfOk result (λ found. found.created ≡ (spec.targets left.now mode self.now.set).created) }
        ensures ascend { IsStrictlySortedBy cmp_key self.now.set }
    {
        // Every index says of its keys that they ascend.
        self.index.keys();
        targets(alloc, left, mode, &self.index)
    }

    /// How many cells there are.
    pub fn len(&self) -> usize
        ensures { result ≡ length self.now.set }
    {
        self.index.len() as usize
    }

    /// The least of these cells of which measure `m` is assigned already.
    pub fn assigned_already(
        &self,
        alloc: Global,
        m: u32,
        found: &[Key],
    ) -> Result<Option<Key>, Memory>
        ensures { IfOk result (λ key. key ≡ least_of cmp_key (filter (λ key. list_any (assigns m key) self.now.assigned) found.now)) }
    {
        let again = already(alloc, &self.assigned, m, found)?;
        match least(&again) {
            Some(key) => Ok(Some(key.copy()?)),
            None => Ok(None),
        }
    }

    /// The same with the cells that are created, of which none is there yet.
    pub fn with_created(self, created: &[Key]) -> Result<Growth, Memory>
        requires { Fresh (is_there self.set) created.now }
        ensures set { IfOk result (λ g. g.set ≡ ascending cmp_key (created.now ++ self.set)) }
        ensures assigned { IfOk result (λ g. g.assigned ≡ self.assigned) }
    {
        let Growth { index, assigned } = self;
        Ok(Growth {
            index: with_keys(index, created)?,
            assigned,
        })
    }

    /// The same, with measure `m` of these cells, of which none is assigned yet, assigned by the rule of this number.
    pub fn with_assigned(
        self,
        alloc: Global,
        m: u32,
        number: u32,
        found: Items<Key>,
    ) -> Result<Growth, Memory>
        requires { AreUnassigned m self.assigned found }
        ensures set { IfOk result (λ g. g.set ≡ self.set) }
        ensures assigned { IfOk result (λ g. g.assigned
            ≡ placed_all cmp_assignment (map (assigned_by m number) found) self.assigned) }
    {
        let Growth { index, assigned } = self;
        Ok(Growth {
            index,
            assigned: assigned.with_all(alloc, m, number, found)?,
        })
    }

    /// The shape that has grown from an input with the keys `base`, and its cells, with maps of the dimensions that ranges
    /// of the model test.
    pub fn shape(
        self,
        alloc: Global,
        m: &Lent<'_>,
        base: &[Key],
    ) -> Result<(PartShape, DimIndex), Memory>
        ensures shape { IfOk result (λ it. it.0 ≡ record { base = base.now; cells = self.set; assigned = self.assigned }) }
        ensures cells { IfOk result (λ it. it.1 ≡ self.set) }
        ensures ascend { OnOk result (IsStrictlySortedBy cmp_key self.set) }
        ensures own { OnOk result (All (λ a. find (assigns a.1 a.0) self.assigned ≡ Some a) self.assigned) }
    {
        let Growth { index, assigned } = self;
        let mut index = index;
        map_tested(alloc, m, &mut index)?;
        let shape = PartShape {
            base: copies(alloc, base)?,
            cells: copies(alloc, index.keys())?,
            assigned: assigned.into_items(),
        };
        Ok((shape, index))
    }
}

// Those of which measure `m` is assigned already.
fn already(alloc: Global, assigned: &NodeList, m: u32, found: &[Key]) -> Result<Vec<Key>, Memory>
    ensures { IfOk result (λ again. again.items ≡ filter (λ key. list_any (assigns m key) assigned.now) found.now) }
{
    let mut again = Vec::new(alloc);
    for key in found {
        if assigned.has(key, m) {
            again.push(key.copy()?)?;
        }
    }
    Ok(again)
}

// The index with these keys too, of which none is there yet, from the last to the first.
fn with_keys(index: DimIndex, keys: &[Key]) -> Result<DimIndex, Memory>
    requires { Fresh (is_there index) keys.now }
    ensures { IfOk result (λ it. it ≡ ascending cmp_key (keys.now ++ index)) }
{
    // Every index says of its keys that they ascend.
    index.keys();
    let mut index = index;
    let mut at = keys.len();
    'placing: while at > 0 {
        at -= 1;
        index.insert(keys[at].copy()?)?;
    }
    Ok(index)
}

// These keys once more.
fn copies(alloc: Global, keys: &[Key]) -> Result<Items<Key>, Memory>
    ensures { IfOk result (λ copies. copies ≡ keys.now) }
{
    let mut copies = Vec::with_capacity(alloc, keys.len())?;
    for key in keys {
        copies.push(key.copy()?)?;
    }
    Ok(Items::from_vec(copies))
}
