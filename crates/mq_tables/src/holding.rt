//! A change is held over those that are pending.
ghost use Rattle.std.specs.Prelude.{◌≡◌, All, OnErr};
ghost use Rattle.mq_values.specs.Answers.{Gives, result_map};
ghost use Rattle.mq_tables.specs.Held.{RowsFit};
ghost use Rattle.mq_tables.specs.Pending.{holding};
ghost use Rattle.mq_tables.specs.Staging.{ChangeFits, StandsOn};

use crate::pending::Pending;
use crate::sizes::{judge_pending_size, rows_added};
use crate::stage::table_of;
use crate::tables::Tables;
use mq_ir::Change;
use mq_values::{Fail, Refused};
use std::alloc::Global;

impl Tables {
    /// Holds a change over those that are pending: it is judged as by `stage` against the tables as these leave them, and
    /// acts on their rows. How many rows are counted, or why it is refused (docs/MEANING.md, "Blocks"). Nothing of these
    /// tables is altered, and after any error what is pending is as before. Where what is pending stands
    /// on these tables, it does so after a change that fits its table.
    pub fn hold(
        &self,
        alloc: Global,
        pending: &mut Pending,
        c: &Change,
    ) -> Result<u64, Fail<Refused>>
        ensures exact { Gives (result_map (λ count. (pending.new, count)) result) (holding self.now pending.old c.now) }
        ensures err { OnErr result (pending.new ≡ pending.old) }
        ensures stands { RowsFit self.now → ChangeFits self.now c.now → All (StandsOn self.now) pending.old → All (StandsOn self.now) pending.new }
    {
        let name = table_of(c);
        let Some(table) = self.table(name.as_str()) else {
            return Err(Fail::Cause(Refused::UnknownName(name.copy()?)));
        };
        judge_pending_size(self.as_slice(), pending, table, rows_added(c))?;
        let count = pending.hold(alloc, table, c)?;
        Ok(count as u64)
    }
}
