//! The tables as they will stand after a staged change.
ghost use Rattle.std.specs.Prelude.{◌≡◌};

use mq_ir::Row;
use mq_tables::{Staged, TableSet, Tables};

/// The tables with the rows of a staged change in the place of those of its table.
#[derive(Drop)]
pub struct StagedTables<'a> {
    pub before: &'a Tables,
    pub staged: &'a Staged,
}

impl<'a> TableSet for StagedTables<'a> {
    ghost use Rattle.mq_ir.specs.Statement.{with_rows};

    ghost tables = { λ t. with_rows t.before.now t.staged.now.table t.staged.now.rows };

    fn rows(&self, name: &str) -> Option<&[Row]> {
        let rows = self.before.rows(name)?;
        if self.staged.table() == name {
            Some(self.staged.rows())
        } else {
            Some(rows)
        }
    }
}
