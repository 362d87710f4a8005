//! The rows that UPDATE and DELETE visit as true, of which none stands outside of the places that they look at.
ghost use Rattle.std.specs.Prelude.{◌≤◌, length};
ghost use Rattle.mq_values.specs.Answers.{Gives};
ghost use Rattle.mq_values.specs.declared.limits.TheConstants.{MAX_ROWS};
ghost use Rattle.mq_tables.specs.Seeking.{AreWithin, PassesOutside};
ghost use Rattle.mq_tables.specs.Visits.{rows_found, rows_taken};

use crate::columns::{is_chosen, replaced_row};
use crate::flags::Flags;
use crate::keys::numbered_key;
use crate::numbered_key::NumberedKey;
use crate::places::Places;
use mq_ir::{Expr, Row, Schema};
use mq_values::{Fail, Items, Refused};
use std::alloc::Global;

/// The rows that UPDATE visits as true, each with its place: as they will be, and as they are.
#[derive(Drop)]
pub struct Found {
    pub puts: Items<(u32, Row)>,
    pub were: Items<(u32, Row)>,
}

/// The rows that UPDATE visits as true.
pub fn replaced_rows(
    alloc: Global,
    schema: &Schema,
    sets: &[(u32, Expr)],
    filter: &Option<Expr>,
    rows: &[Row],
    places: Places,
) -> Result<Found, Fail<Refused>>
    requires within { length rows.now ≤ MAX_ROWS }
    requires there { AreWithin places (length rows.now) }
    requires outside { PassesOutside filter.now rows.now places }
    ensures { Gives result (rows_found schema.now sets.now filter.now rows.now) }
{
    let mut puts = Items::new(alloc);
    let mut were = Items::new(alloc);
    'rows: for at in places.from..places.to {
        let row = &rows[at];
        match replaced_row(alloc, schema, sets, filter, at as u32 + 1, row)? {
            Some(new) => {
                puts.push((at as u32, new))?;
                were.push((at as u32, row.copy()?))?;
            }
            None => {}
        }
    }
    Ok(Found { puts, were })
}

/// Which rows DELETE visits as true, place by place, the keys of these, and these with their places.
#[derive(Drop)]
pub struct Gone {
    pub flags: Flags,
    pub keys: Items<NumberedKey>,
    pub rows: Items<(u32, Row)>,
}

/// Which rows DELETE visits as true.
pub fn gone_rows(
    alloc: Global,
    schema: &Schema,
    filter: &Option<Expr>,
    rows: &[Row],
    places: Places,
) -> Result<Gone, Fail<Refused>>
    requires within { length rows.now ≤ MAX_ROWS }
    requires there { AreWithin places (length rows.now) }
    requires outside { PassesOutside filter.now rows.now places }
    ensures { Gives result (rows_taken schema.now filter.now rows.now) }
{
    let mut told = Vec::with_capacity(alloc, places.to - places.from)?;
    let mut keys = Items::new(alloc);
    let mut gone = Items::new(alloc);
    'rows: for at in places.from..places.to {
        let row = &rows[at];
        let chosen = is_chosen(alloc, filter, at as u32 + 1, row)?;
        if chosen {
            keys.push(numbered_key(alloc, schema, row, at)?)?;
            gone.push((at as u32, row.copy()?))?;
        }
        told.push(chosen)?;
    }
    Ok(Gone {
        flags: Flags::of_some(places.from, told, rows.len() - places.to),
        keys,
        rows: gone,
    })
}
