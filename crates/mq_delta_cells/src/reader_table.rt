//! Which assignments look at which measures.
ghost use Rattle.std.specs.Prelude.{◌≡◌, ◌==◌, ◌∷◌, [], ℕ, true, false, Some, length, IfOk, OnOk};
ghost use Rattle.mq_ir.specs.declared.query.CellName.{CellName};
ghost use Rattle.mq_cells.specs.Stores.{cell_name};
ghost use Rattle.mq_delta_cells.specs.Readers.{HasMarked, HasMore, HasReadersOf, is_due, is_linked, is_looked_at, is_reader};
ghost use Rattle.mq_delta_cells.specs.Tables.{no_numbers};

use crate::number_table::NumberTable;
use mq_dim_index::DimIndex;
use mq_ir::Look;
use mq_values::{Items, Key, Memory};
use std::alloc::Global;
use std::marker::Model;

/// The place of an assignment that looks at a measure, and the number of the link of that measure that came before.
#[derive(Clone, Copy, Drop)]
pub struct Link {
    pub place: u32,
    pub earlier: Option<u32>,
}

/// The places of the assignments that look at a measure, as links, of which a table has the last for each measure. Contracts see
/// it by `is_reader` of `specs/Readers`. A cell is looked for in an index that each call is told, at the place `near`, and beside
/// it, before all others, and `near` is where it was found then.
#[derive(Drop)]
pub struct ReaderTable {
    last: NumberTable,
    links: Vec<Link>,
}

impl Model for ReaderTable {
    ghost use Rattle.mq_delta_cells.specs.Readers.{Readers};

    ghost Value = { Readers };

    ghost view = { λ readers. record { last = readers.last; links = readers.links.items } };
}

impl ReaderTable {
    /// No readers. It takes no memory.
    pub fn new(alloc: Global) -> ReaderTable
        ensures { result ≡ record { last = no_numbers; links = [] } }
    {
        ReaderTable {
            last: NumberTable::new(alloc),
            links: Vec::new(alloc),
        }
    }

    /// Notes that measure `m` of the cell at `key` is looked at from a place. `Memory` comes too where there are more links than
    /// a `u32` can number.
    pub fn note(
        &mut self,
        cells: &DimIndex,
        key: &Key,
        m: u32,
        place: u32,
        near: &mut u32,
    ) -> Result<(), Memory>
        ensures more { OnOk result (HasMore cells.now self.old self.new) }
        ensures noted { OnOk result (is_reader cells.now self.new (cell_name key.now m) place ≡ true) }
    {
        let Ok(number) = u32::try_from(self.links.len()) else {
            return Err(Memory);
        };
        let earlier = self.last.get(cells, key, m, near)?;
        self.links.push(Link { place, earlier })?;
        self.last.put(cells, key, m, number, near)
    }

    /// Marks the places from which measure `m` of the cell at `key` is looked at.
    pub fn mark(
        &self,
        cells: &DimIndex,
        key: &Key,
        m: u32,
        near: &mut u32,
        due: &mut Vec<bool>,
    ) -> Result<(), Memory>
        ensures { OnOk result (HasMarked cells.now (Some self.now) (cell_name key.now m) due.old.items due.new.items) }
    {
        let last = self.last.get(cells, key, m, near)?;
        mark_linked(self.links.as_slice(), last, due);
        Ok(())
    }
}

/// Marks those that may look at measure `m` of the cell at `key`. No marks are all.
pub fn mark_readers(
    readers: &Option<ReaderTable>,
    cells: &DimIndex,
    key: &Key,
    m: u32,
    near: &mut u32,
    due: &mut Vec<bool>,
) -> Result<(), Memory>
    ensures { OnOk result (HasMarked cells.now readers.now (cell_name key.now m) due.old.items due.new.items) }
{
    match readers {
        Some(readers) => readers.mark(cells, key, m, near, due),
        None => {
            due.clear();
            Ok(())
        }
    }
}

// Marks the places of the links from this one on.
fn mark_linked(links: &[Link], last: Option<u32>, due: &mut Vec<bool>)
    ensures { (place : ℕ) → is_due due.new.items place ≡ false
        → (is_due due.old.items place ≡ false) × (is_linked links.now (length links.now) last place ≡ false) }
{
    let mut next = last;
    let mut left = links.len();
    'marking: while left > 0 {
        let Some(at) = next else {
            return;
        };
        let Some(link) = links.get(at as usize) else {
            return;
        };
        mark_one(link.place, due);
        next = link.earlier;
        left -= 1;
    }
}

// Marks a place, where there is such a one.
fn mark_one(place: u32, due: &mut Vec<bool>)
    ensures { (q : ℕ) → is_due due.new.items q ≡ false → (is_due due.old.items q ≡ false) × ((place == q) ≡ false) }
{
    let at = place as usize;
    if at < due.len() {
        due[at] = true;
    }
}

/// The readers of the measures among these looks, of which each list stands at its place, by the places of these cells. `Memory`
/// comes too where there are more lists or looks than a `u32` can number.
pub fn readers_of(
    alloc: Global,
    cells: &DimIndex,
    looks: &[Items<Look>],
) -> Result<ReaderTable, Memory>
    ensures { IfOk result (λ readers. HasReadersOf cells.now looks.now (Some readers)) }
{
    let mut readers = ReaderTable::new(alloc);
    let mut near = 0;
    let mut place = 0u32;
    'noting: for list in looks {
        note_all(cells, list.as_slice(), place, &mut near, &mut readers)?;
        let Some(next) = place.checked_add(1) else {
            return Err(Memory);
        };
        place = next;
    }
    Ok(readers)
}

// Notes that these are looked at from a place.
fn note_all(
    cells: &DimIndex,
    looks: &[Look],
    place: u32,
    near: &mut u32,
    readers: &mut ReaderTable,
) -> Result<(), Memory>
    ensures more { OnOk result (HasMore cells.now readers.old readers.new) }
    ensures noted { OnOk result ((c : CellName) → is_looked_at looks.now c ≡ true
        → is_reader cells.now readers.new c place ≡ true) }
{
    'noting: for look in looks {
        note_look(cells, look, place, near, readers)?;
    }
    Ok(())
}

// The same of one look.
fn note_look(
    cells: &DimIndex,
    look: &Look,
    place: u32,
    near: &mut u32,
    readers: &mut ReaderTable,
) -> Result<(), Memory>
    ensures more { OnOk result (HasMore cells.now readers.old readers.new) }
    ensures noted { OnOk result ((c : CellName) → is_looked_at (look.now ∷ []) c ≡ true
        → is_reader cells.now readers.new c place ≡ true) }
{
    match look {
        Look::Measure(name) => readers.note(cells, &name.key, name.measure, place, near),
        Look::Presence(_) => Ok(()),
    }
}
