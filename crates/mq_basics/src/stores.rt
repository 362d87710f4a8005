//! Stores of cells, and what they answer: a question goes to the plain store, and to the one that owns its cells.

use crate::answers::Reply;
use crate::texts::{cells, cut, name, slot};
use mq_cells::{Cells, IndexedCells, LentStore, LookCells, PlainCells, copy_slot};
use mq_ir::{CellName, PartInput, PartShape, Slot};
use mq_shape::cells_of;
use mq_values::{Items, Key, Memory};
use std::alloc::Global;

/// The input of a partition, and what was put over it.
#[derive(Drop)]
pub(crate) struct Stored {
    pub input: PartInput,
    changes: Vec<Put>,
}

// What was put at a measure of a cell, or nothing, where it was taken away.
#[derive(Drop)]
struct Put {
    name: CellName,
    slot: Option<Slot>,
}

/// The input of these cells.
pub(crate) fn input_of(cells: Items<(Key, Key)>, repeated: Option<Key>) -> PartInput {
    PartInput {
        key: Key::empty(),
        cells,
        repeated,
    }
}

impl Stored {
    pub fn new(alloc: Global) -> Stored {
        Stored {
            input: input_of(Items::new(alloc), None),
            changes: Vec::new(alloc),
        }
    }

    /// Takes these cells as those of the input, and forgets what was put.
    pub fn set_input(&mut self, text: &str, reply: &mut Reply) {
        let cells = cells(text, reply);
        if let Some(found) = reply.made(cells_of(cells)) {
            self.input = input_of(found.cells, found.repeated);
        }
        self.changes.clear();
    }

    /// Puts at the measure of a cell what stands behind the slash; a dash takes away what was put there.
    pub fn put(&mut self, text: &str, reply: &mut Reply) {
        let (place, word) = cut(text, " / ", reply);
        let name = name(place, reply);
        let slot = if word == "-" {
            None
        } else {
            Some(slot(word, reply))
        };
        reply.note(self.changes.push(Put { name, slot }));
    }

    /// A store of the input's cells, in which all was put and taken away that the rows so far say.
    pub fn plain(&self, alloc: Global) -> Result<PlainCells<'_>, Memory> {
        let mut cells = PlainCells::new(alloc, &self.input)?;
        self.change(&mut cells)?;
        Ok(cells)
    }

    /// The same store, which owns its cells and knows them by the places of their keys.
    pub fn owned(&self, alloc: Global) -> Result<IndexedCells, Memory> {
        let mut cells = IndexedCells::new(alloc, &self.input)?;
        self.change(&mut cells)?;
        Ok(cells)
    }

    fn change<C: Cells>(&self, cells: &mut C) -> Result<(), Memory> {
        for put in &self.changes {
            match &put.slot {
                Some(slot) => cells.put(&put.name.key, put.name.measure, copy_slot(slot)?)?,
                None => cells.clear(&put.name.key, put.name.measure),
            }
        }
        Ok(())
    }
}

/// What stands at a measure of a cell in both stores.
pub(crate) fn got(store: &Stored, text: &str, reply: &mut Reply) {
    let name = name(text, reply);
    if let Some(mut cells) = reply.made(store.plain(reply.alloc)) {
        add_got(&mut cells, &name, reply);
    }
    let mut again = Reply::new(reply.alloc);
    if let Some(mut cells) = again.made(store.owned(reply.alloc)) {
        add_got(&mut cells, &name, &mut again);
    }
    reply.but(&again);
}

fn add_got<C: Cells>(cells: &mut C, name: &CellName, reply: &mut Reply) {
    if let Some(slot) = reply.made(cells.get(reply.alloc, &name.key, name.measure)) {
        reply.slot(&slot);
    }
}

/// The first fault among what is assigned, in both stores.
pub(crate) fn first_fault(store: &Stored, shape: &PartShape, reply: &mut Reply) {
    if let Some(cells) = reply.made(store.plain(reply.alloc)) {
        add_first_fault(&cells, shape, reply);
    }
    let mut again = Reply::new(reply.alloc);
    if let Some(cells) = again.made(store.owned(reply.alloc)) {
        add_first_fault(&cells, shape, &mut again);
    }
    reply.but(&again);
}

fn add_first_fault<C: Cells>(cells: &C, shape: &PartShape, reply: &mut Reply) {
    if u32::try_from(shape.assigned.len()).is_err() {
        reply.unread();
        return;
    }
    reply.number_or(cells.first_fault(shape), "none");
}

/// Measures of cells with semicolons between them, read one behind the other from what the store that owns them lends.
pub(crate) fn lent(store: &Stored, text: &str, reply: &mut Reply) {
    if let Some(cells) = reply.made(store.owned(reply.alloc)) {
        match cells.lent() {
            Some(lent) => add_read(lent, text, reply),
            None => reply.add("none"),
        }
    }
}

fn add_read(lent: LentStore<'_>, text: &str, reply: &mut Reply) {
    let mut lent = lent;
    for (at, one) in text.split(" ; ").enumerate() {
        reply.add_if(at > 0, " ");
        let name = name(one, reply);
        if let Some(v) = reply.made(lent.read(name.key.as_slice(), name.measure)) {
            reply.value(&v);
        }
    }
}

/// A store of a few results with one that is put, read, taken away and read again.
pub(crate) fn looked(text: &str, reply: &mut Reply) {
    let (place, word) = cut(text, " / ", reply);
    let name = name(place, reply);
    let slot = slot(word, reply);
    let mut cells = LookCells::new(reply.alloc);
    reply.note(cells.put(&name.key, name.measure, slot));
    add_got(&mut cells, &name, reply);
    cells.clear(&name.key, name.measure);
    reply.add(" ");
    add_got(&mut cells, &name, reply);
}
