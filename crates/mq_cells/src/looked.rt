//! A store of a few results, without input.
ghost use Rattle.std.specs.Prelude.{◌≡◌, [], Some, None, position, OnOk, OnErr};
ghost use Rattle.std.specs.List.{find};
ghost use Rattle.std.specs.Option.{option_copied};
ghost use Rattle.mq_cells.specs.Looked.{no_input, results_among};
ghost use Rattle.mq_cells.specs.Stores.{DiffersAt, cell_name, is_named};

use crate::cells::Cells;
use crate::faults::least_fault;
use crate::held::Held;
use crate::slots::copy_slot;
use mq_ir::{CellName, PartShape, Slot};
use mq_values::{Key, Memory, Value};
use std::alloc::Global;
use std::marker::Model;

/// Results without an input, as what a cell looks at. It is made for a few: each call goes over all of them. Contracts
/// see it as the list of its results and its looks (docs/MEANING.md, "Stores of cells").
#[derive(Drop)]
pub struct LookCells {
    results: Vec<(CellName, Slot)>,
    looks: u64,
}

impl Model for LookCells {
    ghost use Rattle.mq_cells.specs.Looked.{LookStore};

    ghost Value = { LookStore };

    ghost view = { λ s. record { results = s.results.items; looks = s.looks } };
}

impl LookCells {
    /// No results. It takes no memory.
    pub fn new(alloc: Global) -> LookCells
        ensures results { result.results ≡ [] }
        ensures looks { result.looks ≡ 0 }
    {
        LookCells {
            results: Vec::new(alloc),
            looks: 0,
        }
    }
}

impl Held for LookCells {
    ghost stands = { λ s. results_among s.results };

    fn result(&self, key: &Key, m: u32) -> Option<&Slot> {
        slot_among(&self.results, key, m)
    }
}

impl Cells for LookCells {
    ghost input = { λ _. no_input };

    ghost results = { λ s. results_among s.results };

    ghost looks = { λ s. s.looks };

    fn get(&mut self, _alloc: Global, key: &Key, m: u32) -> Result<Slot, Memory> {
        self.looks = self.looks.saturating_add(1);
        match self.result(key, m) {
            Some(slot) => copy_slot(slot),
            None => Ok(Slot::Done(Value::Null)),
        }
    }

    fn put(&mut self, key: &Key, m: u32, s: Slot) -> Result<(), Memory> {
        let key = key.copy()?;
        put_among(&mut self.results, CellName { key, measure: m }, s)
    }

    fn clear(&mut self, key: &Key, m: u32) {
        keep_others(&mut self.results, key, m);
    }

    fn first_fault(&self, s: &PartShape) -> Option<u32> {
        least_fault(self, s.assigned.as_slice())
    }
}

// What stands among these results at measure `m` of the cell at `key`.
fn slot_among<'a>(results: &'a [(CellName, Slot)], key: &Key, m: u32) -> Option<&'a Slot>
    ensures { option_copied result ≡ results_among results.now (cell_name key.now m) }
{
    match entry_of(results, key, m) {
        Some(entry) => Some(&entry.1),
        None => None,
    }
}

// The first result at measure `m` of the cell at `key`, behind its name.
fn entry_of<'a>(results: &'a [(CellName, Slot)], key: &Key, m: u32) -> Option<&'a (CellName, Slot)>
    ensures { option_copied result ≡ find (λ e. is_named (cell_name key.now m) e.0) results.now }
{
    results.iter().find(|entry| stands_for(&entry.0, key, m))
}

// The place of the first result at measure `m` of the cell at `key`.
fn place_of(results: &[(CellName, Slot)], key: &Key, m: u32) -> Option<usize>
    ensures { result ≡ position (λ e. is_named (cell_name key.now m) e.0) results.now }
{
    results
        .iter()
        .position(|entry| stands_for(&entry.0, key, m))
}

// Puts `slot` at `name`, in place of what stands there.
fn put_among(results: &mut Vec<(CellName, Slot)>, name: CellName, slot: Slot) -> Result<(), Memory>
    ensures ok { OnOk result (DiffersAt (results_among results.old.items) (results_among results.new.items) name (Some slot)) }
    ensures err { OnErr result (results.new.items ≡ results.old.items) }
{
    match place_of(results, &name.key, name.measure) {
        Some(at) => {
            results[at] = (name, slot);
            Ok(())
        }
        None => {
            results.push((name, slot))?;
            Ok(())
        }
    }
}

// Takes away what stands at measure `m` of the cell at `key`.
fn keep_others(results: &mut Vec<(CellName, Slot)>, key: &Key, m: u32)
    ensures { DiffersAt (results_among results.old.items) (results_among results.new.items) (cell_name key.now m) None }
{
    results.retain(|entry| !stands_for(&entry.0, key, m));
}

// Whether `name` is measure `m` of the cell at `key`.
fn stands_for(name: &CellName, key: &Key, m: u32) -> bool
    ensures { result ≡ is_named (cell_name key.now m) name.now }
{
    key.cmp(&name.key).is_eq() && m == name.measure
}
