//! Where the measures come from that a right side reads.
ghost use Rattle.std.specs.Prelude.{◌≡◌, Ok, IfOk, IfSome};
ghost use Rattle.mq_ir.specs.Reads.{Measures};
ghost use Rattle.mq_cells.specs.IndexedStores.{value_in};
ghost use Rattle.mq_cells.specs.Stores.{cell_name};
ghost use Rattle.mq_refs.specs.Sites.{site_of, value_named};

use crate::standpoint::Standpoint;
use mq_cells::IndexedCells;
use mq_ir::Expr;
use mq_values::{Memory, Value};

/// Measures of cells, read one by one. It is lent to a right side, and no call changes what a measure is worth.
pub trait Worths {
    /// What each measure of a cell is worth.
    ghost worth: { Self → Measures };

    /// A measure of the cell at `key`.
    fn value(&mut self, key: &[Value], measure: u32) -> Result<Value, Memory>
        ensures exact { IfOk result (λ v. v ≡ worth self.old (cell_name key.now measure)) }
        ensures same { worth self.new ≡ worth self.old };

    /// The same as `value`, for a cell that stands at `place` among the keys of its partition's cells. The place is a hint:
    /// what is read does not depend on it.
    fn value_at(&mut self, place: u32, key: &[Value], measure: u32) -> Result<Value, Memory>
        ensures exact { IfOk result (λ v. v ≡ worth self.old (cell_name key.now measure)) }
        ensures same { worth self.new ≡ worth self.old };

    /// The store that has all these measures, where there is one that lends them; `None` says nothing.
    fn lent_by(&self) -> Option<&IndexedCells>
        ensures { IfSome result (λ store. worth self.now ≡ value_in store.now) }
    {
        None
    }

    /// A measure of the cell that `indices` name, where the source knows of it without the key that they name; `None` says
    /// nothing.
    fn next_value(
        &mut self,
        at: &Standpoint<'_>,
        measure: u32,
        indices: &[Expr],
    ) -> Result<Option<Value>, Memory>
        ensures exact { IfOk result (λ found. IfSome found (λ v. value_named (site_of at.now) (worth self.old) measure indices.now ≡ Ok v)) }
        ensures same { worth self.new ≡ worth self.old };
}
