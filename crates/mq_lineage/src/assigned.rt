//! The assignments of a shape by their places.
ghost use Rattle.std.specs.Prelude.{◌≡◌, ◌<◌, Some, length, slice_get};
ghost use Rattle.std.specs.List.{find};
ghost use Rattle.mq_ir.specs.Shape.{assigns};
ghost use Rattle.mq_auto.specs.Walks.{AreOwn};

use mq_ir::PartShape;
use mq_values::Key;

/// The assignment at a place. No other one is of its measure.
pub fn assigned_at(s: &PartShape, place: u32) -> &(Key, u32, u32)
    requires own { AreOwn s.now }
    requires within { place < length s.now.assigned }
    ensures there { slice_get s.now.assigned place ≡ Some result.now }
    ensures own { find (assigns result.now.1 result.now.0) s.now.assigned ≡ Some result.now }
{
    let assigned = s.assigned.as_slice();
    &assigned[place as usize]
}
