//! Pieces into slots, and out of them.

ghost use Rattle.std.specs.Prelude.{◌≡◌, ℕ, ◌<◌, ◌≤◌, Some, [], map, IfOk, vec_capacity};
ghost use Rattle.std.specs.Mem.Slots.{slots_items, slots_len, IsFull};
ghost use mathlib.Core.Option.{some};
ghost use lib.ListN.{get_elem?};

use atomic_table::Closed;
use mq_values::Memory;
use std::alloc::Global;

// Each piece in a slot of its own.
pub(crate) fn filled<P: Drop>(alloc: Global, pieces: Vec<P>) -> Result<Vec<Option<P>>, Memory>
    ensures { IfOk result (λ slots. slots.items ≡ map Some pieces.items) }
{
    Ok(pieces.into_iter().map(Some).collect(alloc)?)
}

// The pieces out of slots that each hold one, into a list that has room for them.
pub(crate) fn emptied<P>(mut closed: Closed<Option<P>, Global>, mut pieces: Vec<P>) -> Vec<P>
    requires full { IsFull closed.slots }
    requires pieces { (k : ℕ) → k < slots_len closed.slots → (p : P) × (get_elem? (slots_items closed.slots) k ≡ some (Some p)) }
    requires room { (pieces.items ≡ []) × (slots_len closed.slots ≤ vec_capacity pieces) }
    ensures { map Some result.items ≡ slots_items closed.slots }
{
    for i in 0..closed.slot_count() {
        match closed.take(i) {
            Some(piece) => pieces.push_reserved(piece),
            None => unreachable!(),
        }
    }
    closed.free();
    pieces
}
