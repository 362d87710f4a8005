//! The index of a partition's cells by their dimensions.
ghost use Rattle.std.specs.Prelude.{◌≡◌, ◌<◌, ◌≤◌, length, map, slice_index_or, is_some, IfOk, IfSome, OnOk, OnErr};
ghost use Rattle.std.specs.List.{All, filter, remove};
ghost use Rattle.std.specs.List.Sorted.{IsStrictlySortedBy};
ghost use Rattle.mq_values.specs.Order.{cmp_key};
ghost use Rattle.mq_dim_index.specs.Maps.{MapsKeys};
ghost use Rattle.mq_dim_index.specs.PlaceRuns.{AreRuns, numbers_of};
ghost use Rattle.mq_dim_index.specs.Places.{Tuple, is_there, meets_every, place_of, with_key, without_key};
ghost use Rattle.mq_dim_index.specs.Places as spec;
ghost use Rattle.mq_dim_index.specs.declared.search.TheConstants.{MAX_KEYS};

use crate::dimension_map::DimensionMap;
use crate::maps::{add_to_maps, is_mapped, take_from_maps};
use crate::near;
use crate::place_runs::PlaceRun;
use crate::ranges::{places_meeting, runs_meeting};
use crate::search::{MAX_KEYS, search};
use mq_values::{DimTest, Key, Memory, Value};
use std::alloc::Global;
use std::marker::Model;

/// The keys of a partition's cells, each once, ascending. Contracts see them as the list of the keys. A key is known
/// by the number of its place, counted from 0, which changes where one comes or goes before it
/// (docs/MEANING.md, "Keys of a partition"). Maps of dimensions stand beside them, which only a range looks at.
#[derive(Drop)]
pub struct DimIndex {
    keys: Vec<Key>,
    maps: Vec<DimensionMap>,
}

impl Model for DimIndex {
    ghost use Rattle.std.specs.Prelude.{List, ◌≤◌, length};
    ghost use Rattle.std.specs.List.Sorted.{IsStrictlySortedBy};
    ghost use Rattle.mq_values.specs.Order.{cmp_key};
    ghost use Rattle.std.specs.List.{All};
    ghost use Rattle.mq_dim_index.specs.Maps.{MapsKeys};
    ghost use Rattle.mq_dim_index.specs.Places.{Tuple};
    ghost use Rattle.mq_dim_index.specs.declared.search.TheConstants.{MAX_KEYS};

    ghost Value = { List Tuple };

    ghost view = { λ index. index.keys.items };

    ghost invariant = { λ index.
        IsStrictlySortedBy cmp_key index.keys.items × (length index.keys.items ≤ MAX_KEYS) × All (MapsKeys index.keys.items) index.maps.items };
}

impl DimIndex {
    /// The index of these keys, which ascend. `Memory` comes too where there are more of them than a `u32` can number.
    pub fn new(alloc: Global, keys: &[Key]) -> Result<DimIndex, Memory>
        requires { IsStrictlySortedBy cmp_key keys.now }
        ensures { IfOk result (λ index. index ≡ keys.now) }
    {
        if keys.len() > MAX_KEYS {
            return Err(Memory);
        }
        Ok(DimIndex {
            keys: copies(alloc, keys)?,
            maps: Vec::new(alloc),
        })
    }

    /// The keys, ascending.
    pub fn keys(&self) -> &[Key]
        ensures all { result.now ≡ self.now }
        ensures ascending { IsStrictlySortedBy cmp_key self.now }
        ensures numbered { length self.now ≤ MAX_KEYS }
    {
        self.keys.as_slice()
    }

    /// How many keys there are.
    pub fn len(&self) -> u32
        ensures { result ≡ length self.now }
    {
        self.keys.len() as u32
    }

    /// Makes the map of one dimension, from its values to the keys that have them there; where there is one, nothing is made.
    /// Only what `in_range` costs depends on it. After `Memory` it is not there.
    pub fn map_dimension(&mut self, alloc: Global, dimension: u32) -> Result<(), Memory>
        ensures { self.new ≡ self.old }
    {
        let dimension = dimension as usize;
        if dimension == 0 || is_mapped(self.maps.as_slice(), dimension) {
            return Ok(());
        }
        let map = DimensionMap::new(alloc, self.keys.as_slice(), dimension)?;
        self.maps.push(map)?;
        Ok(())
    }

    /// Puts `key` at its place; where it is there already, nothing changes. After `Memory` the keys are as before. It
    /// comes too where there would be more keys than a `u32` can number.
    pub fn insert(&mut self, key: Key) -> Result<(), Memory>
        ensures ok { OnOk result (self.new ≡ with_key self.old key) }
        ensures err { OnErr result (self.new ≡ self.old) }
    {
        let Err(at) = search(&self.keys, key.as_slice()) else {
            return Ok(());
        };
        if self.keys.len() >= MAX_KEYS {
            return Err(Memory);
        }
        self.keys.insert(at, key)?;
        add_to_maps(&mut self.maps, &self.keys[at]);
        Ok(())
    }

    /// Takes `key` away; where it is not there, nothing changes.
    pub fn remove(&mut self, key: &Key)
        ensures { self.new ≡ without_key self.old key.now }
    {
        if let Ok(at) = search(&self.keys, key.as_slice()) {
            take_away(&mut self.keys, at);
            take_from_maps(&mut self.maps, key);
        }
    }

    /// The number of the place at which `key` stands, or `None` where it is not there.
    pub fn find(&self, key: &[Value]) -> Option<u32>
        ensures { result ≡ place_of self.now key.now }
    {
        match search(&self.keys, key) {
            Ok(at) => Some(at as u32),
            Err(_) => None,
        }
    }

    /// The same, where the place `near` and the one beside it on the side of the key are looked at before all others.
    pub fn place_near(&self, key: &[Value], near: u32) -> Option<u32>
        ensures { result ≡ place_of self.now key.now }
    {
        near::number_near(self.keys.as_slice(), key, near)
    }

    /// The key at a place.
    pub fn key_at(&self, place: u32) -> &Key
        requires { place < length self.now }
        ensures { (other : Tuple) → result.now ≡ slice_index_or self.now place other }
    {
        &self.keys[place as usize]
    }

    /// The index's own copy of `key`, or `None` where it is not there.
    pub fn stored(&self, key: &[Value]) -> Option<&Key>
        ensures there { is_some result ≡ is_there self.now key.now }
        ensures same { IfSome result (λ found. found.now ≡ key.now) }
        ensures ascending { IsStrictlySortedBy cmp_key self.now }
    {
        match search(&self.keys, key) {
            Ok(at) => Some(&self.keys[at]),
            Err(_) => None,
        }
    }

    /// The numbers of the keys that meet the test of each dimension, ascending.
    pub fn in_range(&self, alloc: Global, tests: &[DimTest]) -> Result<Vec<u32>, Memory>
        ensures numbers { IfOk result (λ places. places.items ≡ spec.places_meeting tests.now self.now) }
        ensures below { IfOk result (λ places. All (λ place. place < length self.now) places.items) }
        ensures keys { (other : Tuple) →
            IfOk result (λ places. map (λ place. slice_index_or self.now place other) places.items ≡ filter (meets_every tests.now) self.now) }
    {
        places_meeting(alloc, self.keys.as_slice(), self.maps.as_slice(), tests)
    }

    /// The same numbers as runs, which ascend: none is empty or reaches into the next.
    pub fn runs_in_range(&self, alloc: Global, tests: &[DimTest]) -> Result<Vec<PlaceRun>, Memory>
        ensures numbers { IfOk result (λ runs. numbers_of runs.items ≡ spec.places_meeting tests.now self.now) }
        ensures apart { IfOk result (λ runs. AreRuns 0 (length self.now) runs.items) }
        ensures below { IfOk result (λ runs. All (λ run. run.past ≤ length self.now) runs.items) }
        ensures keys { (other : Tuple) → IfOk result (λ runs.
            map (λ place. slice_index_or self.now place other) (numbers_of runs.items) ≡ filter (meets_every tests.now) self.now) }
    {
        runs_meeting(alloc, self.keys.as_slice(), self.maps.as_slice(), tests)
    }
}

// Takes the key at place `at` away. What it takes to let the key go is no matter of the index then.
pub fn take_away(keys: &mut Vec<Key>, at: usize)
    requires { at < length keys.old.items }
    ensures { keys.new.items ≡ remove keys.old.items at }
{
    keys.remove(at);
}

// These keys once more.
pub fn copies(alloc: Global, keys: &[Key]) -> Result<Vec<Key>, Memory>
    ensures { IfOk result (λ copies. copies.items ≡ keys.now) }
{
    let mut copies = Vec::with_capacity(alloc, keys.len())?;
    for key in keys {
        copies.push(key.copy()?)?;
    }
    Ok(copies)
}
