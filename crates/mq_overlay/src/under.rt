//! The changes of a scenario, one after another.
ghost use Rattle.std.specs.Prelude.{◌≤◌, length};
ghost use Rattle.mq_values.specs.Answers.{Gives};
ghost use Rattle.mq_values.specs.declared.limits.TheConstants.{MAX_SCENARIO_CHANGES};
ghost use Rattle.mq_ir.specs.Scenarios.{tables_under};

use crate::changed_tables::Overlay;
use mq_ir::Change;
use mq_tables::Tables;
use mq_values::{Fail, Refused};
use std::alloc::Global;

/// The tables as these changes leave them, one after another, or the number of the first change that is refused, counted
/// from 1, with the refusal (docs/MEANING.md, "Scenarios"). There are no more changes than a scenario may have.
pub fn overlay<'a>(
    alloc: Global,
    tables: &'a Tables,
    changes: &[Change],
) -> Result<Overlay<'a>, Fail<(u32, Refused)>>
    requires { length changes.now ≤ MAX_SCENARIO_CHANGES }
    ensures { Gives result (tables_under tables.now changes.now) }
{
    let mut under = Overlay::new(alloc, tables);
    'changes: for (at, change) in changes.iter().enumerate() {
        under.hold(alloc, at as u32 + 1, change)?;
    }
    Ok(under)
}
