//! Where the rows of a changed table stand now.
ghost use Rattle.std.specs.Prelude.{◌≡◌, ◌≤◌, ◌++◌, ◌∷◌, [], length, slice_index_or, IfOk, OnOk, IsTrue};
ghost use Rattle.std.specs.Option.{IfSome};
ghost use Rattle.mq_values.specs.declared.limits.TheConstants.{MAX_ROWS};
ghost use Rattle.mq_delta_base.specs.Inverts.{Inverts, Notes, Pads, Puts};

use mq_tables::Staged;
use mq_values::{Items, Memory};
use std::alloc::Global;

/// For each old place of a changed table the new place of its row, or none where that row is gone or was touched, and the new
/// places of all other rows, which ascend (docs/MEANING.md, "Kept base rows").
#[derive(Drop)]
pub struct Moves {
    pub places: Items<Option<u32>>,
    pub touched: Items<u32>,
}

/// The moves of a staged change, or `None` where its old places do not ascend. `Memory` is the only error.
pub fn moves_of(alloc: Global, staged: &Staged) -> Result<Option<Moves>, Memory>
    requires { length staged.now.rows ≤ MAX_ROWS }
    ensures { IfOk result (λ moves. IfSome moves (λ m. Inverts staged.now.origins (length staged.now.rows) m.places m.touched)) }
{
    let mut places = Items::new(alloc);
    let mut touched = Items::new(alloc);
    'rows: for to in 0..staged.rows().len() {
        if !note_row(staged.from(to as u32), to as u32, &mut places, &mut touched)? {
            return Ok(None);
        }
    }
    Ok(Some(Moves { places, touched }))
}

// Notes the row at a new place, with its old place, if it has one. False, where that is not behind those that are noted.
fn note_row(
    origin: Option<u32>,
    to: u32,
    places: &mut Items<Option<u32>>,
    touched: &mut Items<u32>,
) -> Result<bool, Memory>
    ensures { IfOk result (λ noted. IsTrue noted → Notes origin to places.old places.new touched.old touched.new) }
{
    match origin {
        None => {
            touched.push(to)?;
            Ok(true)
        }
        Some(from) => put_place(places, from as usize, to),
    }
}

fn put_place(places: &mut Items<Option<u32>>, from: usize, to: u32) -> Result<bool, Memory>
    ensures { IfOk result (λ put. IsTrue put → Puts places.old places.new from to) }
{
    if places.len() > from {
        return Ok(false);
    }
    pad(places, from)?;
    places.push(Some(to))?;
    Ok(true)
}

// Puts no place behind the others, until there are so many.
fn pad(places: &mut Items<Option<u32>>, count: usize) -> Result<(), Memory>
    ensures { OnOk result (Pads places.old places.new count) }
{
    'places: while places.len() < count {
        places.push(None)?;
    }
    Ok(())
}
