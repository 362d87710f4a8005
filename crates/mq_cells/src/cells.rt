//! What every store of cells does.
ghost use Rattle.std.specs.Prelude.{◌≡◌, ◌≤◌, ℕ, Option, Some, None, length, IfOk, OnOk, OnErr};
ghost use Rattle.mq_cells.specs.Stores.{CellInput, Results, DiffersAt, cell_name, counted, first_faulted, slot_at};
ghost use Rattle.mq_cells.specs.declared.bounds.TheConstants.{MAX_ASSIGNMENTS};

use mq_ir::{PartShape, Slot};
use mq_values::{Key, Memory};
use std::alloc::Global;

/// The cells of a partition: the measures that its input gives, and over them what stands at assigned measures
/// (docs/MEANING.md, "Stores of cells"). A measure is known by its number, counted from 0.
pub trait Cells {
    /// The measures of each cell of the input.
    ghost input: { Self → CellInput };

    /// What stands at assigned measures.
    ghost results: { Self → Results };

    /// How many slots were read. The count never falls.
    ghost looks: { Self → ℕ };

    /// What stands at measure `m` of the cell at `key`: the result where one stands, else the value of the input, else
    /// null. One more was read; after `Memory` one more at most.
    fn get(&mut self, alloc: Global, key: &Key, m: u32) -> Result<Slot, Memory>
        ensures slot { IfOk result (λ s. s ≡ slot_at (input self.old) (results self.old) (cell_name key.now m)) }
        ensures count { OnOk result (looks self.new ≡ counted (looks self.old)) }
        ensures at_most { looks self.new ≤ counted (looks self.old) }
        ensures later { looks self.old ≤ looks self.new }
        ensures same_input { input self.new ≡ input self.old }
        ensures same_results { results self.new ≡ results self.old };

    /// Puts `s` at measure `m` of the cell at `key`, in place of what stands there. After `Memory` nothing is changed.
    fn put(&mut self, key: &Key, m: u32, s: Slot) -> Result<(), Memory>
        ensures ok { OnOk result (DiffersAt (results self.old) (results self.new) (cell_name key.now m) (Some s)) }
        ensures err { OnErr result (results self.new ≡ results self.old) }
        ensures same_input { input self.new ≡ input self.old }
        ensures same_looks { looks self.new ≡ looks self.old };

    /// Takes away the result at measure `m` of the cell at `key`, where one stands. It takes no memory.
    fn clear(&mut self, key: &Key, m: u32)
        ensures done { DiffersAt (results self.old) (results self.new) (cell_name key.now m) None }
        ensures same_input { input self.new ≡ input self.old }
        ensures same_looks { looks self.new ≡ looks self.old };

    /// The number, from 0, of the assignment of `s` that is the least by its rule and then its cell among those whose
    /// result is a fault, or `None` where none is. It takes no memory.
    fn first_fault(&self, s: &PartShape) -> Option<u32>
        requires { length s.now.assigned ≤ MAX_ASSIGNMENTS }
        ensures { result ≡ first_faulted (results self.now) s.now.assigned };
}
