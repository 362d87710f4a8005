//! Tables beside which the rows of changed ones are held.
ghost use Rattle.std.specs.Prelude.{◌≡◌};
ghost use Rattle.mq_values.specs.Answers.{Gives, result_map};
ghost use Rattle.mq_ir.specs.Scenarios.{numbered_change};
ghost use Rattle.mq_overlay.specs.Numbers as spec;

use mq_ir::{Change, Row};
use mq_tables::{Pending, TableSet, Tables};
use mq_values::{Fail, Refused};
use std::alloc::Global;
use std::marker::Model;

/// Tables as changes leave them: it holds the rows of the tables that were touched, and lends those of the others from the
/// tables as they stand, of which nothing is altered or copied. Contracts see it as the list of tables with their rows.
#[derive(Drop)]
pub struct Overlay<'a> {
    tables: &'a Tables,
    pending: Pending,
}

impl<'a> Model for Overlay<'a> {
    ghost use Rattle.mq_ir.specs.Tables.{Tables as Seen};
    ghost use Rattle.mq_tables.specs.Pending.{with_pending};

    ghost Value = { Seen };

    ghost view = { λ o. with_pending o.tables.now o.pending };
}

impl<'a> TableSet for Overlay<'a> {
    ghost tables = { λ o. o };

    fn rows(&self, name: &str) -> Option<&[Row]> {
        let rows = self.tables.rows(name)?;
        match self.pending.rows(name) {
            Some(pending) => Some(pending),
            None => Some(rows),
        }
    }
}

impl<'a> Overlay<'a> {
    /// The tables as they stand. It takes no memory.
    pub fn new(alloc: Global, tables: &'a Tables) -> Overlay<'a>
        ensures { result ≡ tables.now }
    {
        Overlay {
            tables,
            pending: Pending::new(alloc),
        }
    }

    /// Makes the change of this number over those before it, or says with the number why it is refused
    /// (docs/MEANING.md, "Scenarios").
    pub fn hold(
        &mut self,
        alloc: Global,
        number: u32,
        change: &Change,
    ) -> Result<(), Fail<(u32, Refused)>>
        ensures { Gives (result_map (λ _. self.new) result) (numbered_change (number, change.now) self.old) }
    {
        let held = self.tables.hold(alloc, &mut self.pending, change);
        numbered(number, held)
    }
}

// What a change of this number comes to.
fn numbered(number: u32, held: Result<u64, Fail<Refused>>) -> Result<(), Fail<(u32, Refused)>>
    ensures { result ≡ spec.numbered number held }
{
    match held {
        Ok(_) => Ok(()),
        Err(Fail::Cause(refused)) => Err(Fail::Cause((number, refused))),
        Err(Fail::Memory) => Err(Fail::Memory),
    }
}
