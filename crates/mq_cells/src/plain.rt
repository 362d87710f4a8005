//! The store of a whole partition.
ghost use Rattle.std.specs.Prelude.{◌≡◌, IfOk};
ghost use Rattle.mq_ir.specs.Partitions.{cell_at};
ghost use Rattle.mq_cells.specs.Columns.{no_results, results_in};

use crate::cells::Cells;
use crate::columns::Columns;
use crate::faults::least_fault;
use crate::held::Held;
use crate::input::InputCells;
use crate::slots::copy_slot;
use mq_ir::{PartInput, PartShape, Slot};
use mq_values::{Key, Memory};
use std::alloc::Global;
use std::marker::Model;

/// The cells of a partition: its input, which is lent, and the results that were put. Contracts see it as its cells, the
/// columns of its results and its looks (docs/MEANING.md, "Stores of cells").
#[derive(Drop)]
pub struct PlainCells<'a> {
    input: InputCells<'a>,
    results: Columns,
    looks: u64,
}

impl<'a> Model for PlainCells<'a> {
    ghost use Rattle.mq_cells.specs.Columns.{Store};

    ghost Value = { Store };

    ghost view = { λ s. record { cells = s.input; columns = s.results; looks = s.looks } };
}

impl<'a> PlainCells<'a> {
    /// The cells of `p`, of which the first counts where several stand at one tuple, and no results.
    pub fn new(alloc: Global, p: &'a PartInput) -> Result<PlainCells<'a>, Memory>
        ensures input { IfOk result (λ s. cell_at s.cells ≡ cell_at p.now.cells) }
        ensures results { IfOk result (λ s. results_in s.columns ≡ no_results) }
        ensures looks { IfOk result (λ s. s.looks ≡ 0) }
    {
        Ok(PlainCells {
            input: InputCells::new(p.cells.as_slice()),
            results: Columns::new(alloc),
            looks: 0,
        })
    }
}

impl Cells for PlainCells<'_> {
    ghost input = { λ s. cell_at s.cells };

    ghost results = { λ s. results_in s.columns };

    ghost looks = { λ s. s.looks };

    fn get(&mut self, _alloc: Global, key: &Key, m: u32) -> Result<Slot, Memory> {
        self.looks = self.looks.saturating_add(1);
        match self.results.result(key, m) {
            Some(slot) => copy_slot(slot),
            None => Ok(Slot::Done(self.input.value(key, m)?)),
        }
    }

    fn put(&mut self, key: &Key, m: u32, s: Slot) -> Result<(), Memory> {
        self.results.put(key.copy()?, m, s)
    }

    fn clear(&mut self, key: &Key, m: u32) {
        self.results.clear(key, m);
    }

    fn first_fault(&self, s: &PartShape) -> Option<u32> {
        least_fault(&self.results, s.assigned.as_slice())
    }
}
