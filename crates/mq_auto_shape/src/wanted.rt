//! The measures that are assigned.
ghost use Rattle.std.specs.Prelude.{◌≡◌, ℕ, true, false, slice_index_or, IfOk, OnOk};
ghost use Rattle.mq_auto_shape.specs.Edges.{AreWanted};

use mq_values::{Key, Memory};
use std::alloc::Global;

/// Whether each measure is assigned, by its number; those behind the end are not.
pub fn wanted_of(alloc: Global, assigned: &[(Key, u32, u32)]) -> Result<Vec<bool>, Memory>
    ensures { IfOk result (λ wanted. AreWanted wanted.items assigned.now) }
{
    let mut wanted = Vec::new(alloc);
    'assigned: for a in assigned {
        want(&mut wanted, a.1)?;
    }
    Ok(wanted)
}

// Puts a measure to those that are assigned.
fn want(wanted: &mut Vec<bool>, m: u32) -> Result<(), Memory>
    ensures there { OnOk result (slice_index_or wanted.new.items m false ≡ true) }
    ensures kept { (j : ℕ) → slice_index_or wanted.old.items j false ≡ true → slice_index_or wanted.new.items j false ≡ true }
{
    'reaching: while wanted.len() <= m as usize {
        wanted.push(false)?;
    }
    wanted[m as usize] = true;
    Ok(())
}
