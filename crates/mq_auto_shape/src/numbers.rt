//! The numbers of assigned measures.
ghost use Rattle.std.specs.Prelude.{◌≡◌, ◌<◌, ◌+◌, [], true, None, Some, IfSome, OnOk};
ghost use Rattle.std.specs.List.{cons_option};
ghost use Rattle.mq_dim_index.specs.Places.{is_there};
ghost use Rattle.mq_cells.specs.LaneItems.{lane_item};
ghost use Rattle.mq_auto_shape.specs.declared.lane_reads.LaneRun.{LaneRun};
ghost use Rattle.mq_auto_shape.specs.LaneRuns.{numbers_in};
ghost use Rattle.mq_auto_shape.specs.Numbers.{NumberDiffers, number_at};

use crate::lane_reads::LaneRun;
use mq_cells::Lanes;
use mq_dim_index::DimIndex;
use mq_values::{Memory, Value};
use std::alloc::Global;
use std::marker::Model;

/// Numbers at measures of cells, by measure and by the place of the cell among all cells. Contracts see them as the keys of
/// the cells and the lanes. A cell is looked for at a place `near`, and beside it, before all others, and `near` is where it
/// was found then: the cells of a range are asked for in their order.
#[derive(Drop)]
pub struct Numbers<'a> {
    cells: &'a DimIndex,
    lanes: Lanes<u32>,
}

impl<'a> Model for Numbers<'a> {
    ghost use Rattle.mq_auto_shape.specs.Numbers.{Numbered};

    ghost Value = { Numbered };

    ghost view = { λ numbers. record { keys = numbers.cells.now; lanes = numbers.lanes } };
}

impl<'a> Numbers<'a> {
    /// No numbers at these cells. It takes no memory.
    pub fn new(alloc: Global, cells: &'a DimIndex) -> Numbers<'a>
        ensures keys { result.keys ≡ cells.now }
        ensures lanes { result.lanes ≡ [] }
    {
        Numbers {
            cells,
            lanes: Lanes::new(alloc),
        }
    }

    /// The number at measure `m` of the cell at a place, or `None` where there is none.
    pub fn at(&self, m: u32, place: u32) -> Option<u32>
        ensures { result ≡ lane_item self.now.lanes m place }
    {
        self.lanes.get(m, place).copied()
    }

    /// The number at measure `m` of the cell at `key`, or `None` where there is none.
    pub fn find(&self, key: &[Value], m: u32, near: &mut u32) -> Option<u32>
        ensures { result ≡ number_at self.now key.now m }
    {
        let Some(place) = self.cells.place_near(key, *near) else {
            return None;
        };
        *near = place;
        self.at(m, place)
    }

    /// The place of the cell at `key` as a run of measure `m`, or `None` where the cell is not there.
    pub fn run_at(&self, key: &[Value], m: u32, near: &mut u32) -> Option<LaneRun>
        ensures none { result ≡ None → number_at self.now key.now m ≡ None }
        ensures run { IfSome result (λ run. numbers_in self.now.lanes run ≡ cons_option (number_at self.now key.now m) []) }
    {
        let Some(place) = self.cells.place_near(key, *near) else {
            return None;
        };
        // Every index says of its keys that a number is enough for them.
        self.cells.keys();
        *near = place;
        Some(one_place(m, place))
    }

    /// Puts `number` at measure `m` of the cell at `key`, in place of what stands there.
    pub fn put(&mut self, key: &[Value], m: u32, number: u32, near: &mut u32) -> Result<(), Memory>
        requires { is_there self.old.keys key.now ≡ true }
        ensures ok { OnOk result (NumberDiffers self.old self.new key.now m (Some number)) }
        ensures same_keys { self.new.keys ≡ self.old.keys }
    {
        let Some(place) = self.cells.place_near(key, *near) else {
            unreachable!()
        };
        *near = place;
        self.lanes.put(m, place, number)
    }
}

// One place, as a run.
fn one_place(measure: u32, place: u32) -> LaneRun
    requires { place < u32.MAX }
    ensures { result ≡ record { measure = measure; first = place; past = place + 1 } }
{
    LaneRun {
        measure,
        first: place,
        past: place + 1,
    }
}
