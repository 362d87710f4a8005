//! The same over tables that stand beside those of the session, where the changes are not made in place.
ghost use Rattle.std.specs.Prelude.{◌≡◌, ◌≤◌, length, IfOk, IfSome};
ghost use Rattle.std.specs.Option.{option_copied};
ghost use Rattle.mq_values.specs.declared.limits.TheConstants.{MAX_SCENARIO_CHANGES};
ghost use Rattle.mq_ir.specs.Answer.{answer_of};
ghost use Rattle.mq_ir.specs.Ready.{QueryIsReady};
ghost use Rattle.mq_ir.specs.Scenarios.{compared};
ghost use Rattle.mq_compared.specs.Kept.{IsKeptOf};

use mq_answers::{Crew, answer_over, kept_answer_beside};
use mq_io::Gate;
use mq_ir::{Answer, BoundQuery, Change, Compared};
use mq_kept::StandingView;
use mq_overlay::{Overlay, overlay};
use mq_tables::Tables;
use mq_values::{Fail, Memory};
use std::alloc::Global;
use std::thread::Threads;

/// What a query answers over the tables as these changes leave them, or the number of the first change that is refused, from 1, with
/// the refusal (docs/MEANING.md, "Scenarios"). The tables are lent, and so is what is kept of the view: it serves where the query has
/// MODEL, and nothing of either is altered. `Memory` is the only error.
pub fn compared_beside<R: Threads + Sync, G: Gate>(
    crew: &Crew<'_, '_, R, G>,
    alloc: Global,
    tables: &Tables,
    q: &BoundQuery,
    kept: Option<&StandingView>,
    changes: &[Change],
) -> Result<Compared, Memory>
    requires ready { QueryIsReady q.now }
    requires kept { IfSome (option_copied kept) (IsKeptOf tables.now q.now) }
    requires bounded { length changes.now ≤ MAX_SCENARIO_CHANGES }
    ensures { IfOk result (λ found. found ≡ compared tables.now q.now changes.now) }
{
    match overlay(alloc, tables, changes) {
        Ok(under) => Ok(Compared::Shown(answer_under(crew, alloc, tables, &under, q, kept)?)),
        Err(Fail::Cause((number, refusal))) => Ok(Compared::Stopped(number, refusal)),
        Err(Fail::Memory) => Err(Memory),
    }
}

// What a query answers over the tables under a scenario, by what is kept of it over the tables as they stand, where something is.
fn answer_under<R: Threads + Sync, G: Gate>(
    crew: &Crew<'_, '_, R, G>,
    alloc: Global,
    tables: &Tables,
    under: &Overlay<'_>,
    q: &BoundQuery,
    kept: Option<&StandingView>,
) -> Result<Answer, Memory>
    requires ready { QueryIsReady q.now }
    requires kept { IfSome (option_copied kept) (IsKeptOf tables.now q.now) }
    ensures { IfOk result (λ a. a ≡ answer_of under.now q.now) }
{
    match (&q.model, kept) {
        (Some(part), Some(kept)) => {
            kept_answer_beside(crew, alloc, tables, under, q, part, kept)
        }
        _ => answer_over(crew, alloc, under, q),
    }
}
