//! The keys of an index in the order of their values in one dimension.
ghost use Rattle.std.specs.Prelude.{◌≡◌, None, length, IfOk, IfErr, IfSome, OnOk, OnErr};
ghost use Rattle.std.specs.List.{AllWithin};
ghost use Rattle.std.specs.List.Sorted.{IsStrictlySortedBy};
ghost use Rattle.mq_values.specs.Order.{cmp_key};
ghost use Rattle.mq_dim_index.specs.Maps.{FitsFrom, MapsKeys, SameKeys, StandsFrom, with_key_in, without_key_in};
ghost use Rattle.mq_dim_index.specs.Runs as spec;
ghost use Rattle.mq_dim_index.specs.Runs.{MissesOne, NextRow};

use crate::dim_index::{copies, take_away};
use crate::runs::{Run, count_in_runs, next_run};
use mq_values::{DimTest, Key, Memory, Value};
use std::alloc::Global;
use std::cmp::Ordering;
use std::marker::Model;

/// The keys of an index in the order of their values in one dimension: those with the same value there stand in a row,
/// which two searches find. Keys without a value there stand first.
#[derive(Drop)]
pub struct DimensionMap {
    dimension: usize,
    keys: Vec<Key>,
}

impl Model for DimensionMap {
    ghost use Rattle.std.specs.List.Sorted.{IsStrictlySortedBy};
    ghost use Rattle.mq_dim_index.specs.Maps.{Arranged};
    ghost use Rattle.mq_dim_index.specs.Runs.{cmp_from};

    ghost Value = { Arranged };

    ghost view = { λ m. record { dimension = m.dimension; keys = m.keys.items } };

    ghost invariant = { λ m. IsStrictlySortedBy (cmp_from m.dimension) m.keys.items };
}

impl DimensionMap {
    /// The map of these keys, which ascend, in one dimension.
    pub fn new(alloc: Global, keys: &[Key], dimension: usize) -> Result<DimensionMap, Memory>
        requires { IsStrictlySortedBy cmp_key keys.now }
        ensures { IfOk result (MapsKeys keys.now) }
    {
        Ok(DimensionMap {
            dimension,
            keys: arranged(copies(alloc, keys)?, dimension)?,
        })
    }

    /// Whether it is the map of this dimension.
    pub fn is_of(&self, dimension: usize) -> bool {
        self.dimension == dimension
    }

    /// Puts `key` at its place, unless it is there. After `Memory` nothing has changed.
    pub fn insert(&mut self, key: &Key) -> Result<(), Memory>
        ensures ok { OnOk result (self.new ≡ with_key_in self.old key.now) }
        ensures err { OnErr result (self.new ≡ self.old) }
    {
        let Err(at) = search_from(&self.keys, self.dimension, key.as_slice()) else {
            return Ok(());
        };
        self.keys.insert(at, key.copy()?)?;
        Ok(())
    }

    /// Takes `key` away; where it is not there, nothing changes.
    pub fn remove(&mut self, key: &Key)
        ensures { self.new ≡ without_key_in self.old key.now }
    {
        if let Ok(at) = search_from(&self.keys, self.dimension, key.as_slice()) {
            take_away(&mut self.keys, at);
        }
    }

    /// The keys, in the order of the dimension.
    pub fn keys(&self) -> &[Key]
        ensures { result.now ≡ self.now.keys }
    {
        self.keys.as_slice()
    }

    /// How many keys the test of the dimension leaves, or `most` where there are more.
    pub fn count(&self, tests: &[DimTest], most: usize) -> usize {
        count_in_runs(self.keys.as_slice(), self.dimension, tests, most)
    }

    /// The next keys in a row of which some may meet every test, at the place `from` or behind it, as `next_run` finds them.
    pub fn next_run(&self, tests: &[DimTest], from: usize) -> Option<Run>
        ensures there { IfSome result (λ run. NextRow (MissesOne tests.now) self.now.keys from run.start run.end) }
        ensures none { result ≡ None → AllWithin (MissesOne tests.now) self.now.keys from (length self.now.keys) }
    {
        next_run(self.keys.as_slice(), self.dimension, tests, from)
    }
}

// Which key comes first by their values in a dimension, and where these are the same by all values.
fn cmp_from(dimension: usize, a: &[Value], b: &[Value]) -> Ordering
    ensures { result ≡ spec.cmp_from dimension a.now b.now }
{
    match a.get(dimension).cmp(&b.get(dimension)) {
        Ordering::Equal => a.cmp(b),
        order => order,
    }
}

// These keys, which ascend, in the order of a dimension.
fn arranged(keys: Vec<Key>, dimension: usize) -> Result<Vec<Key>, Memory>
    requires { IsStrictlySortedBy cmp_key keys.items }
    ensures ascending { IfOk result (λ arranged. IsStrictlySortedBy (spec.cmp_from dimension) arranged.items) }
    ensures same { IfOk result (λ arranged. SameKeys keys.items arranged.items) }
{
    let mut keys = keys;
    keys.sort_by(|a, b| cmp_from(dimension, a.as_slice(), b.as_slice()))?;
    Ok(keys)
}

// The place at which `key` stands among keys in the order of a dimension, or else the one at which it would.
fn search_from(keys: &[Key], dimension: usize, key: &[Value]) -> Result<usize, usize>
    requires { IsStrictlySortedBy (spec.cmp_from dimension) keys.now }
    ensures found { IfOk result (StandsFrom dimension keys.now key.now) }
    ensures absent { IfErr result (FitsFrom dimension keys.now key.now) }
{
    keys.binary_search_by(|k| cmp_from(dimension, k.as_slice(), key))
}
