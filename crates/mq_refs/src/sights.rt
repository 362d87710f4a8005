//! What there is to see at looks.
ghost use Rattle.std.specs.Prelude.{◌≡◌, ◌+◌, ◌≤◌, ◌++◌, [], ◌∷◌, true, IfOk};
ghost use Rattle.mq_ir.specs.Slots.{is_known};
ghost use Rattle.mq_cells.specs.Stores.{slot_at};
ghost use Rattle.mq_refs.specs.Sightings as spec;
ghost use Rattle.mq_refs.specs.Sightings.{measures_in, seen_if_known};

use crate::sighting::Sighting;
use mq_cells::Cells;
use mq_ir::{CellName, Look, Slot};
use mq_values::{Items, Memory};
use std::alloc::Global;

/// What there is to see at `looks`, or `None` where a measure among them has no value. Each of them is read once at
/// most, and no more are read behind one that has none.
pub fn seen_at<C: Cells>(
    alloc: Global,
    looks: &[Look],
    cells: &mut C,
) -> Result<Option<Items<Sighting>>, Memory>
    ensures exact { IfOk result (λ seen. seen ≡ seen_if_known (slot_at (C.input cells.old) (C.results cells.old)) looks.now) }
    ensures reads { C.looks cells.new ≤ C.looks cells.old + measures_in looks.now }
    ensures same_input { C.input cells.new ≡ C.input cells.old }
    ensures same_results { C.results cells.new ≡ C.results cells.old }
{
    let mut seen = Items::with_room(alloc, looks.len());
    for look in looks {
        if !see(alloc, look, &mut seen, cells)? {
            return Ok(None);
        }
    }
    Ok(Some(seen))
}

// Puts what there is to see at `look` behind `seen`; false where a measure has no value.
fn see<C: Cells>(
    alloc: Global,
    look: &Look,
    seen: &mut Items<Sighting>,
    cells: &mut C,
) -> Result<bool, Memory>
    ensures known { IfOk result (λ known. known ≡ is_known (slot_at (C.input cells.old) (C.results cells.old)) look.now) }
    ensures seen { IfOk result (λ known. known ≡ true → seen.new ≡ seen.old
        ++ spec.seen_at (slot_at (C.input cells.old) (C.results cells.old)) (look.now ∷ [])) }
    ensures reads { C.looks cells.new ≤ C.looks cells.old + measures_in (look.now ∷ []) }
    ensures same_input { C.input cells.new ≡ C.input cells.old }
    ensures same_results { C.results cells.new ≡ C.results cells.old }
{
    let Look::Measure(name) = look else {
        return Ok(true);
    };
    match cells.get(alloc, &name.key, name.measure)? {
        Slot::Done(value) => {
            let name = CellName {
                key: name.key.copy()?,
                measure: name.measure,
            };
            seen.push(Sighting { name, value })?;
            Ok(true)
        }
        Slot::Faulted(_) | Slot::Poisoned => Ok(false),
    }
}
