//! The rows that an UPDATE replaced are put back.
ghost use Rattle.std.specs.Prelude.{◌≡◌};
ghost use Rattle.mq_ir.specs.Tables.{Tables as Seen};
ghost use Rattle.mq_tables.specs.PuttingBack.{CanPutBack, WasReplaced};
ghost use Rattle.mq_tables.specs.PuttingBack as spec;

use crate::keys::spares_key;
use crate::stage::table_of;
use crate::tables::Tables;
use mq_ir::{Change, Row};
use mq_values::Items;

impl Tables {
    /// Whether a change is an UPDATE that puts a value into no column of the key of its table. It takes no memory.
    pub fn sets_no_key(&self, c: &Change) -> bool
        ensures { result ≡ spec.sets_no_key self.now c.now }
    {
        let Change::Update { table, sets, .. } = c else {
            return false;
        };
        match self.table(table.as_str()) {
            Some(table) => spares_key(sets.as_slice(), table.schema().key.as_slice()),
            None => false,
        }
    }

    /// Puts back the rows that such a change replaced, where nothing was changed since: the tables are as they were before it.
    /// It takes no memory.
    pub fn put_back(&mut self, c: &Change, were: Items<(u32, Row)>)
        requires { CanPutBack c.now were self.old }
        ensures { (before : Seen) → WasReplaced c.now were before self.old → self.new ≡ before }
    {
        self.put_rows_back(table_of(c).as_str(), were);
    }
}
