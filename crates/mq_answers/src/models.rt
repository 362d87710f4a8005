//! The rows of a query with MODEL: its partitions one after another, ascending, whoever ran them.
ghost use Rattle.std.specs.Prelude.{◌≡◌, ◌<◌, ◌≤◌, [], IfOk};
ghost use Rattle.std.specs.List.{All};
ghost use Rattle.mq_values.specs.Answers.{Gives, result_map};
ghost use Rattle.mq_ir.specs.Answer as spec;
ghost use Rattle.mq_ir.specs.Partitions as input;
ghost use Rattle.mq_ir.specs.Placed.{at_partition};
ghost use Rattle.mq_ir.specs.References.{reference_over};
ghost use Rattle.mq_ir.specs.Results.{each, each_in_turn, marked};
ghost use Rattle.mq_ir.specs.Unfolding.{model_of};
ghost use Rattle.mq_ir.specs.Ready.{IsReady};
ghost use Rattle.mq_sources.specs.References.{cells_of_arrays};
ghost use Rattle.mq_answers.specs.Models.{MayRun, gathered_rows};
ghost use Rattle.mq_answers.specs.Stretches.{HasRun, with_found, with_stretch};

use crate::gathering::{Gathered, with_cells};
use crate::model_rows::ModelRow;
use crate::stretches::{Found, Stretch, stretches_of};
use crate::workers::Crew;
use mq_io::Gate;
use mq_ir::{Model as Lent, ModelPart, PartInput, PartResult, RefArray};
use mq_shape::partitions;
use mq_sources::{lists_over, references_over};
use mq_tables::TableSet;
use mq_values::{Fail, Items, Key, Memory, QueryFault};
use mq_workers::run_pieces;
use std::alloc::Global;
use std::thread::Threads;

/// How many partitions the first wave has.
const FIRST_WAVE: usize = 32;

/// The rows of the cells that the rules of a model leave, over the items of its query, or the first fault: the references
/// come first, then the FOR subqueries, then the partitions (docs/MEANING.md, "Answers"), which the crew shares.
pub fn model_rows<R: Threads + Sync, T: TableSet, G: Gate>(
    crew: &Crew<'_, '_, R, G>,
    alloc: Global,
    tables: &T,
    items: Items<Key>,
    part: &ModelPart,
) -> Result<Vec<ModelRow>, Fail<QueryFault>>
    requires may_run { MayRun part.now items }
    ensures { Gives (result_map (λ rows. rows.items) result) (spec.model_rows (T.tables tables.now) items part.now) }
{
    let refs = arrays_over(alloc, tables, part)?;
    let lists = lists_over(alloc, tables, part)?;
    let model = Lent {
        part,
        lists: lists.as_slice(),
        refs: refs.as_slice(),
    };
    let inputs = inputs_of(alloc, part, items)?;
    all_partitions(crew, alloc, &model, inputs)
}

/// The partitions of these items, which are let go before the rules run: their values stand in the cells.
pub fn inputs_of(
    alloc: Global,
    part: &ModelPart,
    items: Items<Key>,
) -> Result<Items<PartInput>, Memory>
    ensures { IfOk result (λ inputs. inputs ≡ input.partitions part.now items) }
{
    partitions(alloc, part, items.as_slice())
}

/// The arrays of the references, or the first fault of one of them.
pub fn arrays_over<T: TableSet>(
    alloc: Global,
    tables: &T,
    part: &ModelPart,
) -> Result<Items<RefArray>, Fail<QueryFault>>
    ensures { Gives (result_map cells_of_arrays result) (marked (at_partition []) (each (reference_over (T.tables tables.now)) part.now.refs)) }
{
    references_over(alloc, tables, part.refs.as_slice())
}

// The rows of all partitions.
fn all_partitions<R: Threads + Sync, G: Gate>(
    crew: &Crew<'_, '_, R, G>,
    alloc: Global,
    m: &Lent<'_>,
    inputs: Items<PartInput>,
) -> Result<Vec<ModelRow>, Fail<QueryFault>>
    requires ready { All (IsReady m.now.part.now) inputs }
    ensures { Gives (result_map (λ rows. rows.items) result) (gathered_rows (model_of m.now) inputs) }
{
    let gathered = gathered_of(crew, alloc, m, inputs)?;
    Ok(gathered.rows)
}

// What all partitions make, wave by wave. Each wave is twice as long as the one before it: so behind a fault about as many
// partitions are run in vain as there were before it, or those of the first wave.
fn gathered_of<R: Threads + Sync, G: Gate>(
    crew: &Crew<'_, '_, R, G>,
    alloc: Global,
    m: &Lent<'_>,
    inputs: Items<PartInput>,
) -> Result<Gathered, Fail<QueryFault>>
    requires ready { All (IsReady m.now.part.now) inputs }
    ensures { Gives result (each_in_turn (spec.partition_step (model_of m.now)) inputs (0, [])) }
{
    let mut gathered = Gathered::new(alloc);
    let mut left = inputs.into_vec();
    let mut length = FIRST_WAVE;
    'waves: while !left.is_empty() {
        let rest = left.split_off(wave_length(length, left.len()))?;
        gathered = with_wave(crew, alloc, m, Items::from_vec(left), gathered)?;
        left = rest;
        length = length.saturating_mul(2);
    }
    Ok(gathered)
}

// How many of those that are left are in a wave that may have so many.
fn wave_length(most: usize, left: usize) -> usize
    requires { (0 < most) × (0 < left) }
    ensures { (0 < result) × (result ≤ left) }
{
    if most < left { most } else { left }
}

// What some partitions make of what is gathered so far; the workers share them in stretches.
fn with_wave<R: Threads + Sync, G: Gate>(
    crew: &Crew<'_, '_, R, G>,
    alloc: Global,
    m: &Lent<'_>,
    inputs: Items<PartInput>,
    gathered: Gathered,
) -> Result<Gathered, Fail<QueryFault>>
    requires ready { All (IsReady m.now.part.now) inputs }
    ensures { Gives result (each_in_turn (spec.partition_step (model_of m.now)) inputs gathered) }
{
    let stretches = stretches_of(crew.rt, alloc, m, inputs, crew.workers)?.into_vec();
    let done = run_pieces(crew.rt, alloc, stretches, crew.workers.count(), crew.gate)?;
    with_done(m, done, gathered)
}

// What stretches that were run make of what is gathered so far, one after another.
fn with_done<R>(
    m: &Lent<'_>,
    done: Vec<Stretch<'_, R>>,
    gathered: Gathered,
) -> Result<Gathered, Fail<QueryFault>>
    requires { All (HasRun m.now) done.items }
    ensures { Gives result (each_in_turn (with_stretch (model_of m.now)) done.entry.items gathered) }
{
    let mut gathered = gathered;
    for stretch in done {
        gathered = with_stretch(m, stretch, gathered)?;
    }
    Ok(gathered)
}

// What a stretch makes of what is gathered so far.
fn with_stretch<R>(
    m: &Lent<'_>,
    stretch: Stretch<'_, R>,
    gathered: Gathered,
) -> Result<Gathered, Fail<QueryFault>>
    requires { HasRun m.now stretch }
    ensures { Gives result (with_stretch (model_of m.now) stretch.entry gathered) }
{
    with_all(m, stretch.found?, gathered)
}

// The same of what was found in the stretch.
fn with_all(
    m: &Lent<'_>,
    found: Items<Found>,
    gathered: Gathered,
) -> Result<Gathered, Fail<QueryFault>>
    ensures { Gives result (each_in_turn (with_found (model_of m.now)) found gathered) }
{
    let mut gathered = gathered;
    for next in found.into_vec() {
        gathered = with_found(m, next, gathered)?;
    }
    Ok(gathered)
}

// What a partition makes of what is gathered so far.
fn with_found(m: &Lent<'_>, found: Found, gathered: Gathered) -> Result<Gathered, Fail<QueryFault>>
    ensures { Gives result (with_found (model_of m.now) found gathered) }
{
    let Found { key, made } = found;
    match made {
        PartResult::Rows(cells) => with_cells(m, &key, gathered, cells),
        PartResult::Fault(fault) => Err(Fail::Cause(fault)),
    }
}
