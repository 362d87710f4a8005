//! Automatic order over many cells: what stands at each assigned measure, found one after another and by threads.
ghost use Rattle.mq_ir.specs.Ready.{IsReady};
ghost use Rattle.mq_ir.specs.Unfolding.{model_of};
ghost use Rattle.mq_auto.specs.Findings.{IsLevelled};

use crate::answers::Reply;
use crate::models::part_of;
use crate::ready::is_ready;
use crate::replays::alike;
use crate::scene::Scene;
use crate::stores::input_of;
use crate::texts::whole_key;
use mq_auto::{ByLending, ByThreads, Finder, judge, values_over};
use mq_auto_shape::IndexedShape;
use mq_cells::{Cells, IndexedCells};
use mq_ir::{Model, PartInput, Slot};
use mq_refs::refs_order;
use mq_values::{Items, Key};
use std::thread::Threads;

// How many cells there are, and how many workers.
const CELLS: u32 = 3_000;

const WORKERS: u32 = 3;

/// What rules make of 3,000 cells, whose keys and measures are the numbers from 0: at how many measures a value stands, a fault, and
/// that another one has no value; at how many threads find the same; and what stands at the last.
pub(crate) fn run_many<R: Threads + Sync>(rt: &R, scene: &Scene, text: &str, reply: &mut Reply) {
    let input = input_of(many_cells(reply), None);
    if let Some(bound) = scene.front.query(&scene.known.catalog, text, reply) {
        if let Some(part) = reply.read(part_of(bound.get())) {
            run_ready(rt, &scene.front.model_of(part), &input, reply);
        }
    }
}

fn many_cells(reply: &mut Reply) -> Items<(Key, Key)> {
    let mut cells = Items::new(reply.alloc);
    for n in 0..CELLS {
        let cell = (whole_key(&[n], reply), whole_key(&[n], reply));
        reply.note(cells.push(cell));
    }
    cells
}

fn run_ready<R: Threads + Sync>(rt: &R, model: &Model<'_>, input: &PartInput, reply: &mut Reply) {
    match is_ready(reply.alloc, model.part, input) {
        Ok(true) => run_judged(rt, model, input, reply),
        Ok(false) => reply.unread(),
        Err(_) => reply.is_lacking = true,
    }
}

fn run_judged<R: Threads + Sync>(rt: &R, model: &Model<'_>, input: &PartInput, reply: &mut Reply)
    requires { IsReady model.now.part.now input.now }
{
    match judge(reply.alloc, model, input) {
        Ok(Ok(found)) => run_both(rt, model, input, &found, reply),
        Ok(Err(_)) => reply.unread(),
        Err(_) => reply.is_lacking = true,
    }
}

fn run_both<R: Threads + Sync>(
    rt: &R,
    model: &Model<'_>,
    input: &PartInput,
    found: &IndexedShape,
    reply: &mut Reply,
)
    requires { IsLevelled (model_of model.now) found.now }
{
    let told = slots_by(model, input, found, &ByLending, reply);
    let by_threads = ByThreads {
        rt,
        workers: WORKERS,
    };
    let again = slots_by(model, input, found, &by_threads, reply);
    add_told(&told, &again, reply);
}

// What stands at each assigned measure.
fn slots_by<F: Finder<IndexedCells>>(
    model: &Model<'_>,
    input: &PartInput,
    found: &IndexedShape,
    finder: &F,
    reply: &mut Reply,
) -> Vec<Slot>
    requires levelled { IsLevelled (model_of model.now) found.now }
    requires finder { F.is_ready finder.now }
{
    let mut slots = Vec::new(reply.alloc);
    let values = values_over(reply.alloc, model, input, found, refs_order(model), finder);
    if let Some(mut cells) = reply.made(values) {
        for (key, measure, _) in found.shape.assigned.as_slice() {
            if let Some(slot) = reply.made(cells.get(reply.alloc, key, *measure)) {
                reply.note(slots.push(slot));
            }
        }
    }
    slots
}

fn add_told(told: &[Slot], again: &[Slot], reply: &mut Reply) {
    let mut done: u64 = 0;
    let mut faulted: u64 = 0;
    let mut poisoned: u64 = 0;
    for slot in told {
        match slot {
            Slot::Done(_) => done = done.wrapping_add(1),
            Slot::Faulted(_) => faulted = faulted.wrapping_add(1),
            Slot::Poisoned => poisoned = poisoned.wrapping_add(1),
        }
    }
    reply.number(done);
    reply.add(" done, ");
    reply.number(faulted);
    reply.add(" faulted, ");
    reply.number(poisoned);
    reply.add(" poisoned, alike ");
    reply.number(alike(told, again));
    if let Some(slot) = told.last() {
        reply.add(", last ");
        reply.slot(slot);
    }
}
