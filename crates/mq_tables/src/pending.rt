//! Changes that are held over earlier ones, none of which is committed.
ghost use Rattle.std.specs.Prelude.{◌≡◌, ◌≤◌, [], length, position, OnErr};
ghost use Rattle.std.specs.Option.{option_copied};
ghost use Rattle.mq_values.specs.Answers.{Gives, result_map};
ghost use Rattle.mq_values.specs.declared.limits.TheConstants.{MAX_ROWS};
ghost use Rattle.mq_ir.specs.Changes.{rows_added};
ghost use Rattle.mq_tables.specs.Pending.{held_one, is_of, pending_rows, rows_held};

use crate::staged::Staged;
use crate::table::Table;
use mq_ir::{Change, Row};
use mq_values::{Fail, Refused};
use std::alloc::Global;
use std::marker::Model;

/// What the changes of a block come to so far: the rows of each touched table as they leave them, one `Staged` a table, in
/// the order in which the tables were first touched. `Tables::hold` holds a change.
#[derive(Drop)]
pub struct Pending {
    held: Vec<Staged>,
}

impl Model for Pending {
    ghost use Rattle.std.specs.Prelude.{List};
    ghost use Rattle.mq_tables.specs.Staging.{Staged as Seen};

    ghost Value = { List Seen };

    ghost view = { λ p. p.held.items };
}

impl Pending {
    /// No table is touched. It takes no memory.
    pub fn new(alloc: Global) -> Pending
        ensures { result ≡ [] }
    {
        Pending {
            held: Vec::new(alloc),
        }
    }

    /// The pending rows of a touched table, or `None` exactly where that table was not touched. It takes no memory.
    pub fn rows(&self, name: &str) -> Option<&[Row]>
        ensures { option_copied result ≡ rows_held self.now name.now }
    {
        let staged = self.held.iter().find(|staged| name == staged.table())?;
        Some(staged.rows())
    }

    /// What is held, in the order in which the tables were first touched. It takes no memory.
    pub fn into_staged(self) -> Vec<Staged>
        ensures { result.items ≡ self }
    {
        self.held
    }

    /// The rows of a table as what is held leaves them.
    pub fn rows_of<'a>(&'a self, table: &'a Table) -> &'a [Row]
        ensures { result.now ≡ pending_rows self.now table.now }
    {
        match self.rows(table.name()) {
            Some(rows) => rows,
            None => table.rows(),
        }
    }

    /// Holds a change of a table more, whose size is judged, and answers how many rows it counts. After an error all is as
    /// before.
    pub fn hold(&mut self, alloc: Global, table: &Table, c: &Change) -> Result<usize, Fail<Refused>>
        requires within { length (pending_rows self.old table.now) ≤ MAX_ROWS }
        requires added { rows_added c.now ≤ MAX_ROWS }
        ensures exact { Gives (result_map (λ count. (self.new, count)) result) (held_one self.old table.now c.now) }
        ensures err { OnErr result (self.new ≡ self.old) }
    {
        match place_of(&self.held, table.name()) {
            Some(place) => self.held[place].hold(alloc, table.schema(), c),
            None => {
                let staged = Staged::of_change(alloc, table, c)?;
                let count = staged.counted();
                self.held.push(staged)?;
                Ok(count)
            }
        }
    }
}

fn place_of(held: &[Staged], name: &str) -> Option<usize>
    ensures { result ≡ position (is_of name.now) held.now }
{
    held.iter().position(|staged| name == staged.table())
}
