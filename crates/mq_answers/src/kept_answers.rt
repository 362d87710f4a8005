//! What a query with MODEL answers that is kept.
ghost use Rattle.std.specs.Prelude.{◌≡◌, ◌++◌, [], Some, IfOk, IfSome, OnOk};
ghost use Rattle.std.specs.List.{All};
ghost use Rattle.mq_values.specs.Answers.{Gives, result_map};
ghost use Rattle.mq_ir.specs.Answer as spec;
ghost use Rattle.mq_ir.specs.Printing as printing;
ghost use Rattle.mq_ir.specs.Ready.{QueryIsReady};
ghost use Rattle.mq_ir.specs.Results.{each_in_turn};
ghost use Rattle.mq_ir.specs.Tables.{Tables};
ghost use Rattle.mq_ir.specs.Unfolding.{model_of};
ghost use Rattle.mq_kept.specs.Kept.{AllRight, IsBegun, IsKept, IsRight, inputs_of};
ghost use Rattle.mq_kept.specs.Standing.{IsStanding};
ghost use Rattle.mq_answers.specs.KeptStretches.{parts_in};
ghost use Rattle.mq_answers.specs.Models.{gathered_rows};
ghost use Rattle.mq_answers.specs.Queries.{shown_of};

use crate::gathering::{KeptRows, with_shown};
use crate::kept_stretches::{KeptStretch, kept_stretches_of};
use crate::printing::printed_keys;
use crate::workers::Crew;
use mq_io::Gate;
use mq_ir::{Answer, BoundQuery, Model as Lent, ModelPart};
use mq_kept::{KeptPart, KeptView, PartState, StandingView, begun, followed, show};
use mq_tables::TableSet;
use mq_values::{Fail, Items, Key, Memory, QueryFault};
use mq_workers::run_pieces;
use std::alloc::Global;
use std::thread::Threads;

/// What a query with MODEL answers over these tables, as `answer_over` has it. What was kept of it before follows the tables, where it
/// is not fresh, and only what the change of the tables reached is run again, by the crew. Out comes what is kept of it now, beside the
/// answer: nothing where the query has a fault before its partitions (docs/MEANING.md, "Kept views"). What is read of the stores of
/// partitions that are kept is added to `reads`. `Memory` is the only error, and then nothing is kept.
pub fn kept_answer<R: Threads + Sync, T: TableSet, G: Gate>(
    crew: &Crew<'_, '_, R, G>,
    alloc: Global,
    tables: &T,
    q: &BoundQuery,
    part: &ModelPart,
    old: Option<StandingView>,
    reads: &mut u64,
) -> Result<(Option<StandingView>, Answer), Memory>
    requires ready { QueryIsReady q.now }
    requires model { q.now.model ≡ Some part.now }
    requires standing { IfSome old (IsStanding (T.tables tables.now) q.now part.now) }
    ensures exact { IfOk result (λ r. r.1 ≡ spec.answer_of (T.tables tables.now) q.now) }
    ensures standing { IfOk result (λ r. IfSome r.0 (IsStanding (T.tables tables.now) q.now part.now)) }
{
    match view_now(alloc, tables, q, part, old, reads) {
        Ok(view) => answer_of_view(crew, alloc, q, part, view, reads),
        Err(Fail::Cause(fault)) => Ok((None, Answer::Fault(fault))),
        Err(Fail::Memory) => Err(Memory),
    }
}

// What is kept of the query over these tables, by what was kept before; or its fault before its partitions.
fn view_now<T: TableSet>(
    alloc: Global,
    tables: &T,
    q: &BoundQuery,
    part: &ModelPart,
    old: Option<StandingView>,
    reads: &mut u64,
) -> Result<KeptView, Fail<QueryFault>>
    requires ready { QueryIsReady q.now }
    requires model { q.now.model ≡ Some part.now }
    requires standing { IfSome old (IsStanding (T.tables tables.now) q.now part.now) }
    ensures { IsBegun (T.tables tables.now) q.now part.now result }
{
    let Some(old) = old else {
        return begun(alloc, tables, q, part);
    };
    if old.fresh {
        return Ok(old.view);
    }
    match followed(alloc, tables, q, part, old.view, reads)? {
        Some(view) => Ok(view),
        None => begun(alloc, tables, q, part),
    }
}

// What it answers by what is kept of it, of which the partitions are run where that was not done yet.
fn answer_of_view<R: Threads + Sync, G: Gate>(
    crew: &Crew<'_, '_, R, G>,
    alloc: Global,
    q: &BoundQuery,
    part: &ModelPart,
    view: KeptView,
    reads: &mut u64,
) -> Result<(Option<StandingView>, Answer), Memory>
    requires model { q.now.model ≡ Some part.now }
    requires right { AllRight part.now view }
    ensures exact { (tables : Tables) → IsKept tables q.now part.now view → IfOk result (λ r. r.1 ≡ spec.answer_of tables q.now) }
    ensures standing { (tables : Tables) → IsKept tables q.now part.now view
        → IfOk result (λ r. IfSome r.0 (IsStanding tables q.now part.now)) }
{
    let KeptView {
        lists,
        refs,
        parts,
        lines,
    } = view;
    let model = Lent {
        part,
        lists: lists.as_slice(),
        refs: refs.as_slice(),
    };
    let (parts, answer) = answer_of_parts(crew, alloc, q, &model, parts, reads)?;
    let view = KeptView {
        lists,
        refs,
        parts,
        lines,
    };
    Ok((Some(StandingView { view, fresh: true }), answer))
}

// The same by the partitions.
fn answer_of_parts<R: Threads + Sync, G: Gate>(
    crew: &Crew<'_, '_, R, G>,
    alloc: Global,
    q: &BoundQuery,
    m: &Lent<'_>,
    parts: Items<KeptPart>,
    reads: &mut u64,
) -> Result<(Items<KeptPart>, Answer), Memory>
    requires right { All (IsRight (model_of m.now)) parts }
    ensures exact { IfOk result (λ r. r.1 ≡ shown_of (result_map (printing.printed_rows q.now) (gathered_rows (model_of m.now) (inputs_of parts)))) }
    ensures right { IfOk result (λ r. All (IsRight (model_of m.now)) r.0) }
    ensures same { IfOk result (λ r. inputs_of r.0 ≡ inputs_of parts) }
{
    let mut parts = settled(crew, alloc, m, parts)?;
    match shown_parts(alloc, q, m, parts.as_mut_slice(), reads) {
        Ok(rows) => Ok((Items::from_vec(parts), Answer::Rows(rows))),
        Err(Fail::Cause(fault)) => Ok((Items::from_vec(parts), Answer::Fault(fault))),
        Err(Fail::Memory) => Err(Memory),
    }
}

// The rows of kept partitions as they are printed, or the first fault.
fn shown_parts(
    alloc: Global,
    q: &BoundQuery,
    m: &Lent<'_>,
    parts: &mut [KeptPart],
    reads: &mut u64,
) -> Result<Items<Key>, Fail<QueryFault>>
    requires right { All (IsRight (model_of m.now)) parts.old }
    ensures exact { Gives result (result_map (printing.printed_rows q.now) (gathered_rows (model_of m.now) (inputs_of parts.old))) }
    ensures right { All (IsRight (model_of m.now)) parts.new }
    ensures same { inputs_of parts.new ≡ inputs_of parts.old }
{
    let gathered = gathered_parts(alloc, m, parts, reads)?;
    Ok(printed_keys(alloc, q, gathered.rows)?)
}

// What kept partitions add, one after another.
fn gathered_parts(
    alloc: Global,
    m: &Lent<'_>,
    parts: &mut [KeptPart],
    reads: &mut u64,
) -> Result<KeptRows, Fail<QueryFault>>
    requires right { All (IsRight (model_of m.now)) parts.old }
    ensures exact { Gives result (each_in_turn (spec.partition_step (model_of m.now)) (inputs_of parts.old) (0, [])) }
    ensures right { All (IsRight (model_of m.now)) parts.new }
    ensures same { inputs_of parts.new ≡ inputs_of parts.old }
{
    let mut gathered = KeptRows::new(alloc);
    for part in parts.iter_mut() {
        gathered = with_part(alloc, m, part, gathered, reads)?;
    }
    Ok(gathered)
}

// What a kept partition makes of what is gathered so far. Its rows are made where that was not done yet.
fn with_part(
    alloc: Global,
    m: &Lent<'_>,
    part: &mut KeptPart,
    gathered: KeptRows,
    reads: &mut u64,
) -> Result<KeptRows, Fail<QueryFault>>
    requires right { IsRight (model_of m.now) part.old }
    ensures exact { Gives result (spec.partition_step (model_of m.now) part.old.input gathered) }
    ensures right { IsRight (model_of m.now) part.new }
    ensures same_input { part.new.input ≡ part.old.input }
{
    show(alloc, m, part, reads)?;
    match &part.shown {
        Some(shown) => with_shown(&part.input.key, gathered, shown),
        None => unreachable!(),
    }
}

// The partitions, run by the crew where that was not done yet.
fn settled<R: Threads + Sync, G: Gate>(
    crew: &Crew<'_, '_, R, G>,
    alloc: Global,
    m: &Lent<'_>,
    parts: Items<KeptPart>,
) -> Result<Vec<KeptPart>, Memory>
    requires right { All (IsRight (model_of m.now)) parts }
    ensures right { IfOk result (λ after. All (IsRight (model_of m.now)) after.items) }
    ensures same { IfOk result (λ after. inputs_of after.items ≡ inputs_of parts) }
{
    if are_settled(parts.as_slice()) {
        return Ok(parts.into_vec());
    }
    let stretches = kept_stretches_of(crew.rt, alloc, m, parts, crew.workers)?;
    let done = run_pieces(crew.rt, alloc, stretches, crew.workers.count(), crew.gate)?;
    parts_of(alloc, done)
}

// Whether all partitions were run: then no piece is made.
fn are_settled(parts: &[KeptPart]) -> bool {
    for part in parts {
        if is_new(&part.state) {
            return false;
        }
    }
    true
}

fn is_new(state: &PartState) -> bool {
    match state {
        PartState::NotKept => true,
        _ => false,
    }
}

// The partitions of stretches that were run, in order.
fn parts_of<R>(alloc: Global, done: Vec<KeptStretch<'_, R>>) -> Result<Vec<KeptPart>, Memory>
    ensures { IfOk result (λ parts. parts.items ≡ parts_in done.entry.items) }
{
    let mut parts = Vec::new(alloc);
    for stretch in done {
        add_parts(stretch, &mut parts)?;
    }
    Ok(parts)
}

// The partitions of a stretch behind others.
fn add_parts<R>(stretch: KeptStretch<'_, R>, parts: &mut Vec<KeptPart>) -> Result<(), Memory>
    ensures { OnOk result (parts.new.items ≡ parts.old.items ++ stretch.entry.parts.items) }
{
    let KeptStretch {
        parts: mut own,
        done,
        ..
    } = stretch;
    done?;
    parts.append(&mut own)?;
    Ok(())
}
