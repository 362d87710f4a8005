//! A change is judged, and its rows are made, before anything is altered.
ghost use Rattle.std.specs.Prelude.{◌≡◌, IfOk};
ghost use Rattle.mq_values.specs.Answers.{Gives};
ghost use Rattle.mq_ir.specs.Changes as spec;
ghost use Rattle.mq_tables.specs.Held.{RowsFit};
ghost use Rattle.mq_tables.specs.Staging as staging;

use crate::sizes::{judge_size, rows_added};
use crate::staged::Staged;
use crate::tables::Tables;
use mq_ir::Change;
use mq_values::{Fail, Refused, Words};
use std::alloc::Global;

impl Tables {
    /// What the change `c` comes to, or why it is refused (docs/MEANING.md, "Changes"): the limits on rows and values
    /// come first, then the values row by row and column by column, and then the keys. Nothing is altered. What comes
    /// of a change that fits its table stands on these tables.
    pub fn stage(&self, alloc: Global, c: &Change) -> Result<Staged, Fail<Refused>>
        ensures exact { Gives result (staging.staging self.now c.now) }
        ensures stands { RowsFit self.now → staging.ChangeFits self.now c.now → IfOk result (staging.StandsOn self.now) }
    {
        let name = table_of(c);
        let Some(table) = self.table(name.as_str()) else {
            return Err(Fail::Cause(Refused::UnknownName(name.copy()?)));
        };
        judge_size(self.as_slice(), table, rows_added(c))?;
        Staged::of_change(alloc, table, c)
    }
}

/// The table that a change is of.
pub fn table_of(c: &Change) -> &Words
    ensures { result.now ≡ spec.table_of c.now }
{
    match c {
        Change::Insert { table, .. } => table,
        Change::Append { table, .. } => table,
        Change::Update { table, .. } => table,
        Change::Delete { table, .. } => table,
    }
}
