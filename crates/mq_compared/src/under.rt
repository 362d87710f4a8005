//! The query of a view under the changes of a scenario.
ghost use Rattle.std.specs.Prelude.{◌≡◌, ◌≤◌, length, IfOk, IfSome};
ghost use Rattle.std.specs.Option.{option_copied};
ghost use Rattle.mq_values.specs.declared.limits.TheConstants.{MAX_SCENARIO_CHANGES};
ghost use Rattle.mq_ir.specs.Ready.{QueryIsReady};
ghost use Rattle.mq_ir.specs.Scenarios.{compared};
ghost use Rattle.mq_compared.specs.Kept.{IsKeptOf};

use crate::beside::compared_beside;
use crate::in_place::answer_in_place;
use mq_answers::Crew;
use mq_io::Gate;
use mq_ir::{BoundQuery, Change, Compared};
use mq_kept::StandingView;
use mq_tables::Tables;
use mq_values::Memory;
use std::alloc::Global;
use std::thread::Threads;

/// What a query answers over the tables as these changes leave them, or the number of the first change that is refused, from 1, with
/// the refusal (docs/MEANING.md, "Scenarios"). What is kept of the view serves where it can, and stays as it is. The tables are
/// changed meanwhile, and are in the end as they were, also after `Memory`, which is the only error.
pub fn compared_under<R: Threads + Sync, G: Gate>(
    crew: &Crew<'_, '_, R, G>,
    alloc: Global,
    tables: &mut Tables,
    q: &BoundQuery,
    kept: Option<&StandingView>,
    changes: &[Change],
) -> Result<Compared, Memory>
    requires ready { QueryIsReady q.now }
    requires kept { IfSome (option_copied kept) (IsKeptOf tables.old q.now) }
    requires bounded { length changes.now ≤ MAX_SCENARIO_CHANGES }
    ensures exact { IfOk result (λ found. found ≡ compared tables.old q.now changes.now) }
    ensures same { tables.new ≡ tables.old }
{
    match answer_in_place(alloc, tables, q, kept, changes)? {
        Some(answer) => Ok(Compared::Shown(answer)),
        None => compared_beside(crew, alloc, tables, q, kept, changes),
    }
}
