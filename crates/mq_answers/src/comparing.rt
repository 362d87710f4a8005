//! What a query with MODEL answers over tables that stand beside those over which it is kept.
ghost use Rattle.std.specs.Prelude.{◌≡◌, [], Some, IfOk};
ghost use Rattle.std.specs.List.{All};
ghost use Rattle.mq_values.specs.Answers.{Gives, result_map};
ghost use Rattle.mq_ir.specs.Answer as spec;
ghost use Rattle.mq_ir.specs.Printing as printing;
ghost use Rattle.mq_ir.specs.Ready.{QueryIsReady};
ghost use Rattle.mq_ir.specs.Results.{each_in_turn};
ghost use Rattle.mq_ir.specs.Tables.{Tables};
ghost use Rattle.mq_ir.specs.Unfolding.{model_of};
ghost use Rattle.mq_kept.specs.Kept.{AllRight, IsKept, IsRight, inputs_of};
ghost use Rattle.mq_kept.specs.Lent.{with_parts};
ghost use Rattle.mq_kept.specs.Standing.{IsStanding};
ghost use Rattle.mq_answers.specs.Models.{gathered_rows};
ghost use Rattle.mq_answers.specs.Queries.{shown_of};

use crate::gathering::{KeptRows, with_shown};
use crate::printing::printed_keys;
use crate::queries::answer_over;
use crate::workers::Crew;
use mq_io::Gate;
use mq_ir::{Answer, BoundQuery, Model as Lent, ModelPart};
use mq_kept::{KeptView, LentPart, StandingView, parts_beside};
use mq_tables::TableSet;
use mq_values::{Fail, Items, Key, Memory, QueryFault};
use std::alloc::Global;
use std::thread::Threads;

/// What a query with MODEL answers over the tables `under`, as `answer_over` has it, by what is kept of it over the tables `before`: what
/// is kept is lent, and stays as it is. Where both have the same, it is not computed again (docs/MEANING.md, "Scenarios"). `Memory` is
/// the only error.
pub fn kept_answer_beside<R: Threads + Sync, T: TableSet, U: TableSet, G: Gate>(
    crew: &Crew<'_, '_, R, G>,
    alloc: Global,
    before: &T,
    under: &U,
    q: &BoundQuery,
    part: &ModelPart,
    kept: &StandingView,
) -> Result<Answer, Memory>
    requires ready { QueryIsReady q.now }
    requires model { q.now.model ≡ Some part.now }
    requires standing { IsStanding (T.tables before.now) q.now part.now kept.now }
    ensures { IfOk result (λ a. a ≡ spec.answer_of (U.tables under.now) q.now) }
{
    match parts_beside(alloc, before, under, q, part, kept)? {
        Some(parts) => answer_of_lent(alloc, q, part, &kept.view, parts),
        None => answer_over(crew, alloc, under, q),
    }
}

/// What a query with MODEL answers over tables of which these partitions, which are lent, are what it reads: with the lists and the arrays
/// that are kept of its view. `Memory` is the only error.
pub fn answer_of_lent(
    alloc: Global,
    q: &BoundQuery,
    part: &ModelPart,
    view: &KeptView,
    parts: Vec<LentPart<'_>>,
) -> Result<Answer, Memory>
    requires model { q.now.model ≡ Some part.now }
    requires right { AllRight part.now (with_parts view.now parts.items) }
    ensures { (tables : Tables) → IsKept tables q.now part.now (with_parts view.now parts.entry.items)
        → IfOk result (λ a. a ≡ spec.answer_of tables q.now) }
{
    let model = Lent {
        part,
        lists: view.lists.as_slice(),
        refs: view.refs.as_slice(),
    };
    answer_shown(alloc, q, &model, parts)
}

// The same by the partitions.
fn answer_shown(
    alloc: Global,
    q: &BoundQuery,
    m: &Lent<'_>,
    parts: Vec<LentPart<'_>>,
) -> Result<Answer, Memory>
    requires right { All (IsRight (model_of m.now)) parts.items }
    ensures { IfOk result (λ a. a ≡ shown_of (result_map (printing.printed_rows q.now) (gathered_rows (model_of m.now) (inputs_of parts.entry.items)))) }
{
    let mut parts = parts;
    match shown_lent(alloc, q, m, parts.as_mut_slice()) {
        Ok(rows) => Ok(Answer::Rows(rows)),
        Err(Fail::Cause(fault)) => Ok(Answer::Fault(fault)),
        Err(Fail::Memory) => Err(Memory),
    }
}

// The rows of partitions that are lent as they are printed, or the first fault.
fn shown_lent(
    alloc: Global,
    q: &BoundQuery,
    m: &Lent<'_>,
    parts: &mut [LentPart<'_>],
) -> Result<Items<Key>, Fail<QueryFault>>
    requires right { All (IsRight (model_of m.now)) parts.old }
    ensures { Gives result (result_map (printing.printed_rows q.now) (gathered_rows (model_of m.now) (inputs_of parts.old))) }
{
    let gathered = gathered_lent(alloc, m, parts)?;
    Ok(printed_keys(alloc, q, gathered.rows)?)
}

// What partitions that are lent add, one after another.
fn gathered_lent(
    alloc: Global,
    m: &Lent<'_>,
    parts: &mut [LentPart<'_>],
) -> Result<KeptRows, Fail<QueryFault>>
    requires right { All (IsRight (model_of m.now)) parts.old }
    ensures { Gives result (each_in_turn (spec.partition_step (model_of m.now)) (inputs_of parts.old) (0, [])) }
{
    let mut gathered = KeptRows::new(alloc);
    for part in parts.iter_mut() {
        gathered = with_lent(alloc, m, part, gathered)?;
    }
    Ok(gathered)
}

// What a partition that is lent makes of what is gathered so far. Its rows are made where that was not done yet.
fn with_lent(
    alloc: Global,
    m: &Lent<'_>,
    part: &mut LentPart<'_>,
    gathered: KeptRows,
) -> Result<KeptRows, Fail<QueryFault>>
    requires right { IsRight (model_of m.now) part.old }
    ensures exact { Gives result (spec.partition_step (model_of m.now) part.old.input gathered) }
    ensures right { IsRight (model_of m.now) part.new }
    ensures same_input { part.new.input ≡ part.old.input }
{
    part.show(alloc, m)?;
    match part.shown() {
        Some(shown) => with_shown(&part.input().key, gathered, shown),
        None => unreachable!(),
    }
}
