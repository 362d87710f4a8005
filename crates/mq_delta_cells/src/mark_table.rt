//! Marks at measures of cells.
ghost use Rattle.std.specs.Prelude.{◌≡◌, ◌<◌, ℕ, List, [], false, true, length, slice_index_or, IfOk, OnErr, OnOk};
ghost use Rattle.mq_ir.specs.declared.query.CellName.{CellName};
ghost use Rattle.mq_ir.specs.Keys.{Tuple};
ghost use Rattle.mq_cells.specs.Stores.{cell_name};
ghost use Rattle.mq_delta_cells.specs.Marks.{MarksBy, SameFlagsIn, SetsFlagIn, flag_at, is_marked, no_marks};

use crate::flags::Flags;
use crate::node_map::NodeMap;
use mq_dim_index::DimIndex;
use mq_values::{Key, Memory};
use std::alloc::Global;
use std::marker::Model;

/// Marks at measures of cells, of the cells of an index by the places of their keys, which each call is told, and of others by
/// their names. Contracts see it by `is_marked` of `specs/Marks`. A cell is looked for at the place `near`, and beside it, before
/// all others, and `near` is where it was found then. Beside the marks it is told which measures may have some.
#[derive(Drop)]
pub struct MarkTable {
    flags: Vec<Flags>,
    elsewhere: NodeMap,
    measures: Vec<bool>,
    alloc: Global,
}

impl Model for MarkTable {
    ghost use Rattle.mq_delta_cells.specs.Marks.{AreTold, Marks};

    ghost Value = { Marks };

    ghost view = { λ marks. record { flags = marks.flags.items; elsewhere = marks.elsewhere } };

    ghost invariant = { λ marks. AreTold marks.flags.items marks.elsewhere marks.measures.items };
}

impl MarkTable {
    /// No marks. It takes no memory.
    pub fn new(alloc: Global) -> MarkTable
        ensures { result ≡ no_marks }
    {
        MarkTable {
            flags: Vec::new(alloc),
            elsewhere: NodeMap::new(alloc),
            measures: Vec::new(alloc),
            alloc,
        }
    }

    /// Whether measure `m` of the cell at `key` is marked.
    pub fn has(&self, cells: &DimIndex, key: &Key, m: u32, near: &mut u32) -> Result<bool, Memory>
        ensures { IfOk result (λ marked. marked ≡ is_marked cells.now self.now (cell_name key.now m)) }
    {
        match cells.place_near(key.as_slice(), *near) {
            Some(place) => {
                *near = place;
                Ok(is_set(&self.flags, m, place))
            }
            None => {
                let number = self.elsewhere.get(key, m)?;
                Ok(number.is_some())
            }
        }
    }

    /// Marks measure `m` of the cell at `key`.
    pub fn put(&mut self, cells: &DimIndex, key: &Key, m: u32, near: &mut u32) -> Result<(), Memory>
        ensures { OnOk result (MarksBy cells.now self.old self.new (cell_name key.now m)) }
    {
        tell(&mut self.measures, m)?;
        match cells.place_near(key.as_slice(), *near) {
            Some(place) => {
                *near = place;
                set_flag(self.alloc, &mut self.flags, m, place, cells.len())
            }
            None => self.elsewhere.put(key.copy()?, m, 0),
        }
    }

    /// Whether each measure may have marks; those behind the end have none.
    pub fn measures(&self) -> &[bool]
        ensures { (c : CellName) → slice_index_or result.now c.measure false ≡ false
            → (keys : List Tuple) → is_marked keys self.now c ≡ false }
    {
        self.measures.as_slice()
    }
}

// Whether the flag of a measure at a place is set.
fn is_set(flags: &[Flags], m: u32, at: u32) -> bool
    ensures { result ≡ flag_at flags.now m at }
{
    match flags.get(m as usize) {
        Some(flags) => flags.get(at),
        None => false,
    }
}

// Sets the flag of a measure at a place, of `count` places.
fn set_flag(
    alloc: Global,
    flags: &mut Vec<Flags>,
    m: u32,
    at: u32,
    count: u32,
) -> Result<(), Memory>
    ensures ok { OnOk result (SetsFlagIn flags.old.items flags.new.items m at) }
    ensures err { OnErr result (SameFlagsIn flags.old.items flags.new.items) }
{
    reach(alloc, flags, m)?;
    flags[m as usize].set(alloc, at, count)
}

// No flags of the measures behind those that there are, until there are some for measure `m`.
fn reach(alloc: Global, flags: &mut Vec<Flags>, m: u32) -> Result<(), Memory>
    ensures there { OnOk result (m < length flags.new.items) }
    ensures same { (j : ℕ) → slice_index_or flags.new.items j [] ≡ slice_index_or flags.old.items j [] }
{
    'reaching: while flags.len() <= m as usize {
        flags.push(Flags::new(alloc))?;
    }
    Ok(())
}

// Tells that a measure may have marks.
fn tell(measures: &mut Vec<bool>, m: u32) -> Result<(), Memory>
    ensures there { OnOk result (slice_index_or measures.new.items m false ≡ true) }
    ensures kept { (j : ℕ) → slice_index_or measures.old.items j false ≡ true → slice_index_or measures.new.items j false ≡ true }
{
    'reaching: while measures.len() <= m as usize {
        measures.push(false)?;
    }
    measures[m as usize] = true;
    Ok(())
}
