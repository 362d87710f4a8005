//! The cells of a partition as the rules have left them.
ghost use Rattle.std.specs.Prelude.{◌≡◌, [], ◌∷◌, None, Some, true, false, length, map, slice_index_or, IfOk};
ghost use Rattle.std.specs.List.{All};
ghost use Rattle.std.specs.List.Sorted.{IsStrictlySortedBy};
ghost use Rattle.std.specs.Map.{keys_of};
ghost use Rattle.std.specs.Option.{option_map_or};
ghost use Rattle.mq_values.specs.Order.{cmp_key};
ghost use Rattle.mq_values.specs.declared.value.Value.TheVariants as value;
ghost use Rattle.mq_ir.specs.Iteration.{out_cell};
ghost use Rattle.mq_ir.specs.Ready.{HaveLength};
ghost use Rattle.mq_ir.specs.Reads.{measure_at};
ghost use Rattle.mq_cells.specs.IndexedStores.{base_in, keys_in, value_in};
ghost use Rattle.mq_cells.specs.Stores.{cell_name};
ghost use Rattle.mq_dim_index.specs.Places.{is_there, place_of, with_key};
ghost use Rattle.mq_seq.specs.Marks.{IsFresh};
ghost use Rattle.mq_seq.specs.Steps.{begun, created_in};
ghost use Rattle.mq_seq.specs.Tracks.{assign, measure_from, noted_if_any};

use crate::marked_cells::MarkedCells;
use crate::noted::Noted;
use mq_cells::{IndexedCells, LentStore};
use mq_dim_index::DimIndex;
use mq_ir::{OutCell, PartInput};
use mq_values::{Items, Key, Memory, Value};
use std::alloc::Global;
use std::marker::Model;

/// The cells of a partition as the rules have left them, with a mark for each that was a target, and, where it is asked for,
/// what stood when a turn began. Contracts see it as `State` of specs/Steps.
#[derive(Drop)]
pub struct Grid {
    cells: MarkedCells,
    noted: Option<Noted>,
    width: usize,
}

impl Model for Grid {
    ghost use Rattle.std.specs.Map.{keys_of};
    ghost use Rattle.mq_ir.specs.Ready.{HaveLength};
    ghost use Rattle.mq_seq.specs.Steps.{State};

    ghost Value = { State };

    ghost view = { λ g. record {
      input = g.cells.input;
      track = record { cells = g.cells.cells; firsts = g.noted };
      updated = g.cells.updated;
      width = g.width;
      count = g.cells.count;
    } };

    ghost invariant = { λ g. HaveLength g.width (keys_of g.cells.cells) };
}

impl Grid {
    /// The cells of a partition's input, whose keys have `width` values each. `count` is how many measures a cell has that is
    /// created.
    pub fn new(alloc: Global, width: usize, count: usize, p: &PartInput) -> Result<Grid, Memory>
        requires wide { HaveLength width (keys_of p.now.cells) }
        requires ascend { IsStrictlySortedBy cmp_key (keys_of p.now.cells) }
        ensures { IfOk result (λ g. g ≡ record {
          input = keys_of p.now.cells;
          track = record { cells = p.now.cells; firsts = None };
          updated = [];
          width = width;
          count = count;
        }) }
    {
        Ok(Grid {
            cells: MarkedCells::new(alloc, count, p)?,
            noted: None,
            width,
        })
    }

    /// The cells by their keys.
    pub fn store(&self) -> &IndexedCells
        ensures keys { keys_in result.now ≡ keys_of self.now.track.cells }
        ensures base { base_in result.now ≡ self.now.input }
    {
        self.cells.store()
    }

    /// The index of the cells by their keys.
    pub fn index(&self) -> &DimIndex
        ensures keys { result.now ≡ keys_of self.now.track.cells }
        ensures wide { HaveLength self.now.width result.now }
    {
        self.cells.index()
    }

    /// The values of all measures, lent.
    pub fn lent(&self) -> LentStore<'_>
        ensures values { value_in result ≡ measure_at self.now.track.cells }
        ensures keys { keys_in result ≡ keys_of self.now.track.cells }
        ensures base { base_in result ≡ self.now.input }
    {
        self.cells.lent()
    }

    /// The place at which a cell that is there stands. It is looked for at `near` and beside it before all other places.
    pub fn place_near(&self, key: &Key, near: u32) -> u32
        requires { is_there (keys_of self.now.track.cells) key.now ≡ true }
        ensures { place_of (keys_of self.now.track.cells) key.now ≡ Some result }
    {
        match self.cells.index().place_near(key.as_slice(), near) {
            Some(at) => at,
            None => unreachable!(),
        }
    }

    /// Measure `m` of the cell at `key` when the turn began, or null where there was none.
    pub fn value_before(&self, alloc: Global, key: &[Value], m: u32) -> Result<Value, Memory>
        ensures { IfOk result (λ v. v ≡ measure_from self.now.track (cell_name key.now m)) }
    {
        let Some(noted) = &self.noted else {
            return Ok(Value::Null);
        };
        let own = Key::new(alloc, Items::from_vec(key.to_vec(alloc)?))?;
        match noted.get(&own) {
            Some(first) => first_value(first, m),
            None => self.cells.value(key, m),
        }
    }

    /// The same cells, where a turn begins.
    pub fn begun(self, alloc: Global) -> Grid
        ensures { result ≡ begun self }
    {
        Grid {
            cells: self.cells,
            noted: Some(Noted::new(alloc)),
            width: self.width,
        }
    }

    /// The cells with those that are created, which were not there and have as many values as the others.
    pub fn with_created(self, alloc: Global, created: &[Key]) -> Result<Grid, Memory>
        requires wide { HaveLength self.width created.now }
        requires new { All (λ key. is_there (keys_of self.track.cells) key ≡ false) created.now }
        ensures { IfOk result (λ g. g ≡ created_in created.now self) }
    {
        let mut grid = self;
        'created: for key in created {
            grid = grid.with_one(alloc, key)?;
        }
        Ok(grid)
    }

    // The cells with one that is created.
    fn with_one(self, alloc: Global, key: &Key) -> Result<Grid, Memory>
        requires wide { length key.now ≡ self.width }
        requires fresh { IsFresh self.count self.track.cells key.now }
        ensures { IfOk result (λ g. g ≡ created_in (key.now ∷ []) self) }
    {
        let Grid {
            cells,
            noted,
            width,
        } = self;
        let noted = noted_with(alloc, noted, key, &cells)?;
        let cells = cells.with(key.copy()?)?;
        Ok(Grid {
            cells,
            noted,
            width,
        })
    }

    /// The cells with measure `m` of the target at `key`, which stands at the place `at`, set to `v`.
    pub fn assigned(
        self,
        alloc: Global,
        key: &Key,
        at: u32,
        m: u32,
        v: Value,
    ) -> Result<Grid, Memory>
        requires { place_of (keys_of self.track.cells) key.now ≡ Some at }
        ensures set { IfOk result (λ g. g ≡ record self { track = assign self.track key.now m v; updated = with_key self.updated key.now }) }
        ensures same_keys { IfOk result (λ g. keys_of g.track.cells ≡ keys_of self.track.cells) }
    {
        let Grid {
            cells,
            noted,
            width,
        } = self;
        // The index knows that its keys ascend.
        let _index = cells.index();
        let noted = noted_with(alloc, noted, key, &cells)?;
        let cells = cells.assigned(key, at, m, v)?;
        Ok(Grid {
            cells,
            noted,
            width,
        })
    }

    /// The cells as they are handed out, each with whether it was a target.
    pub fn rows(&self, alloc: Global) -> Result<Items<OutCell>, Memory>
        ensures { IfOk result (λ rows. rows ≡ map (out_cell self.now.updated) self.now.track.cells) }
    {
        self.cells.rows(alloc)
    }
}

// What is noted, with the cell at `key` before it changes.
fn noted_with(
    alloc: Global,
    noted: Option<Noted>,
    key: &Key,
    cells: &MarkedCells,
) -> Result<Option<Noted>, Memory>
    ensures { IfOk result (λ more. more ≡ noted_if_any noted key.now cells.now.cells) }
{
    match noted {
        Some(mut firsts) => {
            firsts.note(alloc, key, cells)?;
            Ok(Some(firsts))
        }
        None => Ok(None),
    }
}

// A measure of a cell as it was first, or null where there was no such cell.
fn first_value(first: &Option<Key>, m: u32) -> Result<Value, Memory>
    ensures { IfOk result (λ v. v ≡ option_map_or (λ measures. slice_index_or measures m value.Null) first.now value.Null) }
{
    match first {
        Some(measures) => measure_in(measures, m),
        None => Ok(Value::Null),
    }
}

// A measure of these, or null where there is none.
fn measure_in(measures: &Key, m: u32) -> Result<Value, Memory>
    ensures { IfOk result (λ v. v ≡ slice_index_or measures.now m value.Null) }
{
    match measures.as_slice().get(m as usize) {
        Some(v) => v.copy(),
        None => Ok(Value::Null),
    }
}
