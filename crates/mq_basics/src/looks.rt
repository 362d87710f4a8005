//! What right sides look at, and what they assign.

use crate::answers::Reply;
use crate::models::part_of;
use crate::reads::add_outcome;
use crate::scene::Scene;
use crate::stores::Stored;
use crate::texts::{cut, key, number_of};
use mq_cells::{Cells, IndexedCells, keys_ascend};
use mq_dim_index::DimIndex;
use mq_ir::{Look, Model, PartShape, Rule};
use mq_refs::{ShapeKeys, eval_cell, looks_of, looks_over, refs_order, slot_over, value_over};
use mq_values::{Key, Memory};
use std::alloc::Global;

// A rule of a model, a target in a turn, and the keys of the shape by their lists.
#[derive(Clone, Copy)]
struct Question<'a> {
    rule: &'a Rule,
    model: &'a Model<'a>,
    target: &'a Key,
    turn: u32,
    shape: &'a PartShape,
}

/// A target, a turn and a rule, with tabs between them: what the rule looks at, or what it assigns over the stores.
pub(crate) fn asked(scene: &Scene, asked: &str, text: &str, reply: &mut Reply) {
    let (target, rest) = cut(text, "\t", reply);
    let (turn, rule) = cut(rest, "\t", reply);
    let target = key(target, reply);
    let turn = number_of(turn, reply);
    if let Some(bound) = scene.front.query(&scene.known.catalog, rule, reply) {
        if let Some(part) = reply.read(part_of(bound.get())) {
            let model = scene.front.model_of(part);
            ask(scene, asked, &model, &target, turn, reply);
        }
    }
}

fn ask(scene: &Scene, asked: &str, model: &Model<'_>, target: &Key, turn: u32, reply: &mut Reply) {
    let Some(rule) = model.part.rules.get(0) else {
        reply.unread();
        return;
    };
    let question = Question {
        rule,
        model,
        target,
        turn,
        shape: &scene.shape,
    };
    if asked == "looks" {
        add_looks(&question, reply);
    } else {
        add_assigned(&question, &scene.store, reply);
    }
}

/// Which of the keys of the input and of all cells are in order.
pub(crate) fn order(shape: &PartShape, reply: &mut Reply) {
    reply.add("in order:");
    reply.add_if(keys_ascend(shape.base.as_slice()), " input");
    reply.add_if(keys_ascend(shape.cells.as_slice()), " cells");
}

// The keys of a shape by indexes.
#[derive(Drop)]
struct Indexes {
    base: DimIndex,
    cells: DimIndex,
}

// An index of these keys, with a map of the second dimension, where they are in order.
fn index_of(alloc: Global, keys: &[Key]) -> Result<Option<DimIndex>, Memory> {
    if !keys_ascend(keys) {
        return Ok(None);
    }
    let mut index = DimIndex::new(alloc, keys)?;
    index.map_dimension(alloc, 1)?;
    Ok(Some(index))
}

fn indexes_of(shape: &PartShape, reply: &mut Reply) -> Option<Indexes> {
    let base = reply.made(index_of(reply.alloc, shape.base.as_slice()))??;
    let cells = reply.made(index_of(reply.alloc, shape.cells.as_slice()))??;
    Some(Indexes { base, cells })
}

fn keys_of(indexes: &Indexes) -> ShapeKeys<'_> {
    ShapeKeys {
        base: &indexes.base,
        cells: &indexes.cells,
    }
}

// What the rule looks at, over the lists of keys and, where these are in order, over indexes of them.
fn add_looks(q: &Question<'_>, reply: &mut Reply) {
    let looks = looks_of(reply.alloc, q.rule, q.model, q.target, q.turn, q.shape);
    if let Some(looks) = reply.made(looks) {
        add_listed(looks.as_slice(), reply);
    }
    if let Some(indexes) = indexes_of(q.shape, reply) {
        add_looks_over(q, &keys_of(&indexes), reply);
    }
}

fn add_looks_over(q: &Question<'_>, keys: &ShapeKeys<'_>, reply: &mut Reply) {
    let mut again = Reply::new(reply.alloc);
    let looks = looks_over(again.alloc, q.rule, q.model, q.target, q.turn, keys);
    if let Some(looks) = again.made(looks) {
        add_listed(looks.as_slice(), &mut again);
    }
    reply.but(&again);
}

// Each look with its measure, or a question mark for presence, and its cell in brackets; a dash where there is none.
fn add_listed(looks: &[Look], reply: &mut Reply) {
    reply.add_if(looks.is_empty(), "-");
    for (at, look) in looks.iter().enumerate() {
        reply.add_if(at > 0, " ");
        match look {
            Look::Measure(name) => {
                reply.number(u64::from(name.measure));
                add_cell(&name.key, reply);
            }
            Look::Presence(key) => {
                reply.add("?");
                add_cell(key, reply);
            }
        }
    }
}

fn add_cell(key: &Key, reply: &mut Reply) {
    reply.add("[");
    reply.values(key.as_slice());
    reply.add("]");
}

// What the rule makes of the target over both stores, and over all values at once, where the store that owns its cells lends them.
fn add_assigned(q: &Question<'_>, store: &Stored, reply: &mut Reply) {
    if let Some(mut cells) = reply.made(store.plain(reply.alloc)) {
        add_slots(q, &mut cells, reply);
    }
    let mut again = Reply::new(reply.alloc);
    if let Some(mut cells) = again.made(store.owned(reply.alloc)) {
        add_slots(q, &mut cells, &mut again);
        add_lent(q, &cells, &mut again);
    }
    reply.but(&again);
}

// What the rule makes of the target over this store, over the lists of keys and, where these are in order, over indexes.
fn add_slots<C: Cells>(q: &Question<'_>, cells: &mut C, reply: &mut Reply) {
    let slot = eval_cell(
        reply.alloc,
        q.rule,
        q.model,
        q.target,
        q.turn,
        q.shape,
        cells,
    );
    if let Some(slot) = reply.made(slot) {
        reply.slot(&slot);
    }
    if let Some(indexes) = indexes_of(q.shape, reply) {
        add_slot_over(q, &keys_of(&indexes), cells, reply);
    }
}

fn add_slot_over<C: Cells>(
    q: &Question<'_>,
    keys: &ShapeKeys<'_>,
    cells: &mut C,
    reply: &mut Reply,
) {
    let mut again = Reply::new(reply.alloc);
    let refs = refs_order(q.model);
    let slot = slot_over(
        again.alloc,
        q.rule,
        q.model,
        q.target,
        q.turn,
        keys,
        refs,
        cells,
    );
    if let Some(slot) = again.made(slot) {
        again.slot(&slot);
    }
    reply.but(&again);
}

fn add_lent(q: &Question<'_>, cells: &IndexedCells, reply: &mut Reply) {
    if let Some(indexes) = indexes_of(q.shape, reply) {
        add_lent_over(q, &keys_of(&indexes), cells, reply);
    }
}

fn add_lent_over(q: &Question<'_>, keys: &ShapeKeys<'_>, cells: &IndexedCells, reply: &mut Reply) {
    let Some(lent) = cells.lent() else {
        return;
    };
    let mut again = Reply::new(reply.alloc);
    let refs = refs_order(q.model);
    let found = value_over(
        again.alloc,
        q.rule,
        q.model,
        q.target,
        q.turn,
        keys,
        refs,
        lent,
    );
    add_outcome(found, &mut again);
    reply.but(&again);
}
