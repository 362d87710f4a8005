//! What the rows of the table have set: tables, a model, the cells of a partition and what was put there, its keys, and an index.

use crate::answers::Reply;
use crate::changes::Known;
use crate::models::Front;
use crate::ranges::no_keys;
use crate::stores::Stored;
use crate::texts::{cut, keys, name, number_of};
use mq_dim_index::DimIndex;
use mq_ir::PartShape;
use mq_values::{Items, Memory};
use std::alloc::Global;

#[derive(Drop)]
pub(crate) struct Scene {
    pub known: Known,
    pub front: Front,
    pub store: Stored,
    pub shape: PartShape,
    pub index: DimIndex,
}

impl Scene {
    pub fn new(alloc: Global) -> Result<Scene, Memory> {
        let index = no_keys(alloc)?;
        Ok(Scene {
            known: Known::new(alloc),
            front: Front::new(alloc),
            store: Stored::new(alloc),
            shape: no_shape(alloc),
            index,
        })
    }
}

fn no_shape(alloc: Global) -> PartShape {
    PartShape {
        base: Items::new(alloc),
        cells: Items::new(alloc),
        assigned: Items::new(alloc),
    }
}

/// Takes these keys as those of the input, and as all cells that there are.
pub(crate) fn set_base(shape: &mut PartShape, text: &str, reply: &mut Reply) {
    shape.base = keys(text, reply);
    set_cells(shape, text, reply);
}

/// Takes these keys as all cells that there are.
pub(crate) fn set_cells(shape: &mut PartShape, text: &str, reply: &mut Reply) {
    shape.cells = keys(text, reply);
}

/// Takes these assignments, with semicolons between them: rule, measure and key.
pub(crate) fn set_assigned(shape: &mut PartShape, text: &str, reply: &mut Reply) {
    let mut assigned = Items::new(reply.alloc);
    for one in text.split(" ; ") {
        let (rule, rest) = cut(one, " ", reply);
        let rule = number_of(rule, reply);
        let name = name(rest, reply);
        reply.note(assigned.push((name.key, name.measure, rule)));
    }
    shape.assigned = assigned;
}
