//! What a model in automatic order makes of the cells: by its calls one after another, and over a runner that runs twice.
ghost use Rattle.mq_ir.specs.Ready.{IsReady};

use crate::answers::Reply;
use crate::models::part_of;
use crate::ready::is_ready;
use crate::scene::Scene;
use mq_auto::{AutoRunner, ByLending, Verdict, compute, result_of, run_auto};
use mq_cells::{Cells, PlainCells};
use mq_ir::{Answer, Model, OutCell, PartInput, PartResult, PartShape};
use mq_render::answer_text;
use mq_values::{Key, Memory, QueryFault};

/// The cells that the rules leave, or the first fault, and the shape. Where the ways come to something else, that too.
pub(crate) fn run(scene: &Scene, text: &str, reply: &mut Reply) {
    if let Some(bound) = scene.front.query(&scene.known.catalog, text, reply) {
        if let Some(part) = reply.read(part_of(bound.get())) {
            run_ready(&scene.front.model_of(part), &scene.store.input, reply);
        }
    }
}

fn run_ready(model: &Model<'_>, input: &PartInput, reply: &mut Reply) {
    match is_ready(reply.alloc, model.part, input) {
        Ok(true) => run_in_ways(model, input, reply),
        Ok(false) => reply.unread(),
        Err(_) => reply.is_lacking = true,
    }
}

fn run_in_ways(model: &Model<'_>, input: &PartInput, reply: &mut Reply)
    requires { IsReady model.now.part.now input.now }
{
    let mut shape = Reply::new(reply.alloc);
    add_run(model, input, reply, &mut shape);
    let mut again = Reply::new(reply.alloc);
    add_computed(model, input, &mut again);
    reply.but(&again);
    run_twice(model, input, reply);
    reply.join(&shape);
}

fn add_run(model: &Model<'_>, input: &PartInput, reply: &mut Reply, end: &mut Reply)
    requires { IsReady model.now.part.now input.now }
{
    if let Some((shape, outcome)) = reply.made(run_auto(reply.alloc, model, input)) {
        add_outcome(outcome, reply);
        add_shape(&shape, end);
    }
}

// What is computed in a store of the cells, and then told.
fn add_computed(model: &Model<'_>, input: &PartInput, reply: &mut Reply)
    requires { IsReady model.now.part.now input.now }
{
    match PlainCells::new(reply.alloc, input) {
        Ok(mut cells) => {
            let verdict = compute(reply.alloc, model, input, &mut cells);
            if let Some(verdict) = reply.made(verdict) {
                add_verdict(model, &input.key, verdict, &mut cells, reply);
            }
        }
        Err(_) => reply.is_lacking = true,
    }
}

fn add_verdict<C: Cells>(
    model: &Model<'_>,
    key: &Key,
    verdict: Verdict,
    cells: &mut C,
    reply: &mut Reply,
) {
    match verdict {
        Verdict::Done(shape) => {
            if let Some(outcome) = reply.made(result_of(reply.alloc, model, key, &shape, cells)) {
                add_outcome(outcome, reply);
            }
        }
        Verdict::Broken(fault) => add_fault(fault, reply),
    }
}

fn run_twice(model: &Model<'_>, input: &PartInput, reply: &mut Reply)
    requires { IsReady model.now.part.now input.now }
{
    let mut runner = AutoRunner::new(model);
    let first = runner.run(reply.alloc, input, &ByLending);
    add_other(first, reply);
    let second = runner.run(reply.alloc, input, &ByLending);
    add_other(second, reply);
}

// What came of a run, where it is something else than was told.
fn add_other(found: Result<PartResult, Memory>, reply: &mut Reply) {
    let mut again = Reply::new(reply.alloc);
    if let Some(outcome) = again.made(found) {
        add_outcome(outcome, &mut again);
    }
    reply.but(&again);
}

// Each cell with its measures behind a slash, and a star where it was a target; or the line of the fault.
fn add_outcome(outcome: PartResult, reply: &mut Reply) {
    match outcome {
        PartResult::Rows(cells) => add_cells(cells.as_slice(), reply),
        PartResult::Fault(fault) => add_fault(fault, reply),
    }
}

fn add_cells(cells: &[OutCell], reply: &mut Reply) {
    for (at, cell) in cells.iter().enumerate() {
        reply.add_if(at > 0, " ; ");
        reply.values(cell.key.as_slice());
        reply.add(" / ");
        reply.values(cell.measures.as_slice());
        reply.add_if(cell.updated, " *");
    }
}

fn add_fault(fault: QueryFault, reply: &mut Reply) {
    let done = answer_text(&Answer::Fault(fault), &mut reply.text);
    reply.note(done);
    reply.text.pop();
}

// The keys of the input, those of all cells, and each measure that is assigned: its cell, its number from 0, and its rule.
fn add_shape(shape: &PartShape, reply: &mut Reply) {
    reply.add(" from ");
    reply.keys(shape.base.as_slice());
    reply.add(" to ");
    reply.keys(shape.cells.as_slice());
    reply.add(" with");
    reply.add_if(shape.assigned.is_empty(), " -");
    for (at, (key, measure, rule)) in shape.assigned.as_slice().iter().enumerate() {
        reply.add(if at == 0 { " " } else { " ; " });
        reply.values(key.as_slice());
        reply.add(" / ");
        reply.number(u64::from(*measure));
        reply.add(" by ");
        reply.number(u64::from(*rule));
    }
}
