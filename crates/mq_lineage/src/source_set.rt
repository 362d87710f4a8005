//! The measures that a derivation tells, as a set.
ghost use Rattle.std.specs.Prelude.{◌≡◌, ℕ, Some, false, map, slice_index_or, IfOk, OnOk};
ghost use Rattle.std.specs.List.Sorted.{IsStrictlySortedBy};
ghost use Rattle.std.specs.Map.{keys_of};
ghost use Rattle.mq_ir.specs.declared.query.CellName.{CellName as Seen};
ghost use Rattle.mq_cells.specs.Stores.{cell_name};
ghost use Rattle.mq_lineage.specs.Closing.{HasOneMore, name_of};
ghost use Rattle.mq_lineage.specs.Held.{AreOwnPlaces, is_held, place_in};
ghost use Rattle.mq_lineage.specs.Nodes.{cmp_node, is_in};

use crate::node_map::NodeMap;
use mq_auto_shape::Numbers;
use mq_ir::CellName;
use mq_values::{Items, Key, Memory};
use std::alloc::Global;
use std::marker::Model;

/// Measures of cells, each once: of those that rules assign, flags at their places, and of the others the names. Contracts see
/// it as the places, the flags and the map (`specs/Held`). The place of a measure is looked for at the cell `near` and beside
/// it first, and `near` is where it was found then.
#[derive(Drop)]
pub struct SourceSet<'a> {
    places: Numbers<'a>,
    derived: Vec<bool>,
    given: NodeMap,
}

impl<'a> Model for SourceSet<'a> {
    ghost use Rattle.mq_lineage.specs.Held.{AreApart, HeldMeasures};

    ghost Value = { HeldMeasures };

    ghost view = { λ set. record { places = set.places; derived = set.derived.items; given = set.given } };

    ghost invariant = { λ set. AreApart set.places set.derived.items set.given };
}

impl<'a> SourceSet<'a> {
    /// No measures. The assigned ones have these places, of which there are `count`.
    pub fn new(alloc: Global, places: Numbers<'a>, count: usize) -> Result<SourceSet<'a>, Memory>
        requires { AreOwnPlaces places count }
        ensures places { IfOk result (λ set. set.places ≡ places.entry) }
        ensures none { IfOk result (λ set. (c : Seen) → is_held set c ≡ false) }
    {
        let derived = vec![in alloc; false; count]?;
        Ok(SourceSet {
            places,
            derived,
            given: NodeMap::new(alloc),
        })
    }

    /// Whether measure `m` of the cell at `key` is in the set.
    pub fn has(&self, key: &Key, m: u32, near: &mut u32) -> Result<bool, Memory>
        ensures { IfOk result (λ has. has ≡ is_held self.now (cell_name key.now m)) }
    {
        match self.places.find(key.as_slice(), m, near) {
            Some(place) => Ok(is_flagged(&self.derived, place)),
            None => Ok(self.given.get(key, m)?.is_some()),
        }
    }

    /// Puts a measure to the set.
    pub fn add(&mut self, name: &CellName, near: &mut u32) -> Result<(), Memory>
        ensures more { OnOk result (HasOneMore name.now (is_held self.old) (is_held self.new)) }
        ensures places { self.new.places ≡ self.old.places }
    {
        match self.places.find(name.key.as_slice(), name.measure, near) {
            Some(place) => self.derived[place as usize] = true,
            None => self.given.put(name.key.copy()?, name.measure, 0)?,
        }
        Ok(())
    }

    /// Those that no rule assigns, ascending.
    pub fn given(&self, alloc: Global) -> Result<Items<CellName>, Memory>
        ensures names { IfOk result (λ names. names ≡ map name_of (keys_of self.now.given)) }
        ensures ascend { IsStrictlySortedBy cmp_node (keys_of self.now.given) }
        ensures apart { (c : Seen) (place : ℕ) → place_in self.now.places c ≡ Some place → is_in self.now.given c ≡ false }
    {
        self.given.names(alloc)
    }
}

// Whether the flag at a place is set; behind the end none is.
fn is_flagged(derived: &Vec<bool>, place: u32) -> bool
    ensures { result ≡ slice_index_or derived.now.items place false }
{
    match derived.get(place as usize) {
        Some(flag) => *flag,
        None => false,
    }
}
