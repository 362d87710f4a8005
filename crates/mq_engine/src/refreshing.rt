//! A partition in automatic order that is kept, after a change of its input.
ghost use Rattle.std.specs.Prelude.{◌≡◌, ◌+◌, ◌≤◌, false, IfOk, IfSome};
ghost use Rattle.std.specs.Result.{result_ok};
ghost use Rattle.mq_ir.specs.declared.query.CellName.{CellName};
ghost use Rattle.mq_ir.specs.declared.query.Look.TheVariants.{Measure};
ghost use Rattle.mq_ir.specs.Automatic.{levelled_shape};
ghost use Rattle.mq_ir.specs.Partitions.{Cells};
ghost use Rattle.mq_ir.specs.Shape.{shape_over};
ghost use Rattle.mq_ir.specs.Unfolding.{model_of};
ghost use Rattle.mq_auto.specs.Meaning.{HoldsValues};
ghost use Rattle.mq_auto_shape.specs.Conditions.{AreReady};
ghost use Rattle.mq_delta_cells.specs.Changes.{IsChange, reaches, reads_of_change};
ghost use Rattle.mq_engine.specs.Refreshed as spec;

use mq_cells::Cells;
use mq_delta_cells::{Verdict, propagate};
use mq_ir::{CellName, Model as Lent, PartShape};
use mq_values::{Key, Memory};
use std::alloc::Global;

/// Refreshes a partition in automatic order that is kept: `cells` has its new input, whose keys are `new`, and the automatic
/// results of the old one, of which `old` is the shape; `moved` has the measures that stand in both inputs with different
/// values (`IsChange` of mq_delta_cells). `Some` has the new shape, and the partition is still kept: `cells` has the automatic
/// results of the new input. `None`: a fault of the shape or a CYCLE came, and the results are in no stated state
/// (docs/MEANING.md, "Affected cells"). `Memory` is the only error.
pub fn refresh<C: Cells>(
    alloc: Global,
    m: &Lent<'_>,
    old: &PartShape,
    new: &[Key],
    moved: &[CellName],
    cells: &mut C,
) -> Result<Option<PartShape>, Memory>
    requires ready { AreReady m.now.part.now new.now }
    ensures kept { IfOk result (λ kept. kept ≡ result_ok (levelled_shape (model_of m.now) new.now)) }
    ensures values { IfOk result (λ kept. IfSome kept (λ shape. (before : Cells) (after : Cells)
        → IsChange (model_of m.now) old.now new.now moved.now before after (C.input cells.old) (C.results cells.old)
        → HoldsValues (model_of m.now) shape after (C.input cells.new) (C.results cells.new))) }
    ensures unaffected { IfOk result (λ kept. IfSome kept (λ shape. (before : Cells) (after : Cells)
        → IsChange (model_of m.now) old.now new.now moved.now before after (C.input cells.old) (C.results cells.old)
        → (c : CellName) → reaches (model_of m.now) old.now shape before after (Measure c) ≡ false
        → C.results cells.new c ≡ C.results cells.old c)) }
    ensures reads { (before : Cells) (after : Cells)
        → IsChange (model_of m.now) old.now new.now moved.now before after (C.input cells.old) (C.results cells.old)
        → C.looks cells.new
        ≤ C.looks cells.old + reads_of_change (model_of m.now) old.now (shape_over (model_of m.now) new.now) before after }
    ensures same_input { C.input cells.new ≡ C.input cells.old }
{
    let verdict = propagate(alloc, m, old, new, moved, cells)?;
    Ok(kept_of(verdict))
}

// The shape, where the partition is still kept.
fn kept_of(verdict: Verdict) -> Option<PartShape>
    ensures { result ≡ spec.kept_of verdict }
{
    match verdict {
        Verdict::Done(shape) => Some(shape),
        Verdict::Broken(_) => None,
    }
}
