//! The partitions of a view, run where that was not done yet.
ghost use Rattle.std.specs.Prelude.{◌≡◌, true, IfOk, OnOk};
ghost use Rattle.std.specs.List.{All};
ghost use Rattle.mq_ir.specs.declared.query.PartInput.{PartInput};
ghost use Rattle.mq_ir.specs.Ready.{IsReady};
ghost use Rattle.mq_ir.specs.Unfolding.{Model, model_of};
ghost use Rattle.mq_refs.specs.Orders.{IsOrderOf};
ghost use Rattle.mq_kept.specs.Kept.{IsFound, IsRight, IsServing, inputs_of};
ghost use Rattle.mq_kept.specs.Kept as spec;

use crate::kept_view::{KeptPart, PartState, ShapedCells, SharedShape};
use crate::shapes::shape_after;
use mq_auto::{ByLending, Finder, values_over};
use mq_cells::{Cells, IndexedCells, MAX_ASSIGNMENTS};
use mq_ir::{Model as Lent, PartInput, PartResult};
use mq_refs::{RefsOrder, refs_order};
use mq_seq::run_seq;
use mq_values::Memory;
use std::alloc::Global;
use std::sync::Arc;

/// Runs a partition of which nothing was found yet. What was found of it is right before and after, also after `Memory`.
pub fn settle(alloc: Global, m: &Lent<'_>, part: &mut KeptPart) -> Result<(), Memory>
    requires right { IsRight (model_of m.now) part.old }
    ensures settled { OnOk result (spec.is_settled part.new.state ≡ true) }
    ensures right { IsRight (model_of m.now) part.new }
    ensures same_input { part.new.input ≡ part.old.input }
{
    if is_settled(&part.state) {
        return Ok(());
    }
    let refs = refs_order(m);
    let_go(settle_after(alloc, m, refs, &ByLending, part, None)?);
    Ok(())
}

// Lets an item go. Whatever its form is, the caller goes on in one way.
fn let_go<T: Drop>(_item: T) {}

/// Runs the partitions of which nothing was found yet, one after another; those with cells at the same keys share one shape, and the
/// finder finds the values of each that is in automatic order. It may
/// stop behind the first that comes to a fault, since that is what the view answers. What was found of them is right before and after,
/// also after `Memory`.
pub fn settle_all<F: Finder<IndexedCells>>(
    alloc: Global,
    m: &Lent<'_>,
    finder: &F,
    parts: &mut [KeptPart],
) -> Result<(), Memory>
    requires finder { F.is_ready finder.now }
    requires right { All (IsRight (model_of m.now)) parts.old }
    ensures right { All (IsRight (model_of m.now)) parts.new }
    ensures same_inputs { inputs_of parts.new ≡ inputs_of parts.old }
{
    let refs = refs_order(m);
    let mut last = None;
    for part in parts.iter_mut() {
        last = settle_after(alloc, m, refs, finder, part, last)?;
        if comes_to_fault(&part.state) {
            return Ok(());
        }
    }
    Ok(())
}

// Runs a partition of which nothing was found yet. `last` is a shape that may serve it; out comes one that may serve the next.
fn settle_after<F: Finder<IndexedCells>>(
    alloc: Global,
    m: &Lent<'_>,
    refs: RefsOrder,
    finder: &F,
    part: &mut KeptPart,
    last: Option<Arc<SharedShape>>,
) -> Result<Option<Arc<SharedShape>>, Memory>
    requires right { IsRight (model_of m.now) part.old }
    requires refs { IsOrderOf refs m.now }
    requires finder { F.is_ready finder.now }
    requires last { IsServing (model_of m.now) last }
    ensures settled { OnOk result (spec.is_settled part.new.state ≡ true) }
    ensures right { IsRight (model_of m.now) part.new }
    ensures same_input { part.new.input ≡ part.old.input }
    ensures last { IfOk result (IsServing (model_of m.now)) }
{
    if is_settled(&part.state) {
        return shape_in(&part.state);
    }
    part.state = found_of(alloc, m, refs, finder, &part.input, last)?;
    shape_in(&part.state)
}

fn is_settled(state: &PartState) -> bool
    ensures { result ≡ spec.is_settled state.now }
{
    match state {
        PartState::NotKept => false,
        PartState::Automatic(_) => true,
        PartState::Made(_) => true,
    }
}

// The shape that was found, where there is one.
fn shape_in(state: &PartState) -> Result<Option<Arc<SharedShape>>, Memory>
    ensures { (model : Model) (p : PartInput) → IsFound model p state.now → IfOk result (IsServing model) }
{
    match state {
        PartState::Automatic(kept) => Ok(Some(Arc::try_clone(&kept.shape)?)),
        _ => Ok(None),
    }
}

// Whether what was found is a fault.
fn comes_to_fault(state: &PartState) -> bool {
    match state {
        PartState::Automatic(kept) => has_fault(kept),
        PartState::Made(PartResult::Fault(_)) => true,
        _ => false,
    }
}

fn has_fault(kept: &ShapedCells) -> bool {
    let shape = &kept.shape.found.shape;
    if shape.assigned.len() > MAX_ASSIGNMENTS {
        return false;
    }
    kept.cells.first_fault(shape).is_some()
}

// What is found of an input.
fn found_of<F: Finder<IndexedCells>>(
    alloc: Global,
    m: &Lent<'_>,
    refs: RefsOrder,
    finder: &F,
    p: &PartInput,
    last: Option<Arc<SharedShape>>,
) -> Result<PartState, Memory>
    requires ready { IsReady m.now.part.now p.now }
    requires refs { IsOrderOf refs m.now }
    requires finder { F.is_ready finder.now }
    requires last { IsServing (model_of m.now) last }
    ensures settled { IfOk result (λ state. spec.is_settled state ≡ true) }
    ensures found { IfOk result (IsFound (model_of m.now) p.now) }
{
    if m.part.auto {
        found_automatic(alloc, m, refs, finder, p, last)
    } else {
        Ok(PartState::Made(run_seq(alloc, m, p)?))
    }
}

// The same in automatic order.
fn found_automatic<F: Finder<IndexedCells>>(
    alloc: Global,
    m: &Lent<'_>,
    refs: RefsOrder,
    finder: &F,
    p: &PartInput,
    last: Option<Arc<SharedShape>>,
) -> Result<PartState, Memory>
    requires automatic { m.now.part.now.auto ≡ true }
    requires ready { IsReady m.now.part.now p.now }
    requires refs { IsOrderOf refs m.now }
    requires finder { F.is_ready finder.now }
    requires last { IsServing (model_of m.now) last }
    ensures settled { IfOk result (λ state. spec.is_settled state ≡ true) }
    ensures found { IfOk result (IsFound (model_of m.now) p.now) }
{
    let found = shape_after(alloc, m, p, last)?;
    match found {
        Ok(shape) => {
            let cells = values_over(alloc, m, p, &shape.found, refs, finder)?;
            Ok(PartState::Automatic(ShapedCells { shape, cells }))
        }
        Err(fault) => Ok(PartState::Made(PartResult::Fault(fault))),
    }
}
