//! What is kept of the block of a session.
ghost use Rattle.std.specs.Prelude.{◌≡◌, [], None, Some, unwrap_or, OnErr};
ghost use Rattle.mq_values.specs.Answers.{Gives, result_map};
ghost use Rattle.mq_tables.specs.Pending.{with_pending};
ghost use Rattle.mq_engine.specs.Blocks.{block_over, held_change};

use mq_ir::Change;
use mq_tables::{Pending, Staged, Tables};
use mq_values::{Fail, MAX_ROWS, Refused};
use std::alloc::Global;

/// A block: the rows that its changes leave, the line of its BEGIN, the sum of its row counts, and the line of its first
/// refused statement.
#[derive(Drop)]
pub struct OpenBlock {
    pub pending: Pending,
    pub line: u32,
    pub count: u64,
    pub refused: Option<u32>,
}

impl OpenBlock {
    /// A block without changes, whose BEGIN stands on this line. It takes no memory.
    pub fn new(alloc: Global, line: u32) -> OpenBlock
        ensures { result ≡ record { pending = []; line = line; count = 0; refused = None } }
    {
        OpenBlock {
            pending: Pending::new(alloc),
            line,
            count: 0,
            refused: None,
        }
    }

    /// Makes a change of the tables as the block leaves them, and answers how many rows are counted; or says why it is
    /// refused. Nothing of the tables is altered, and after any error the block is as before. That a further change might bring
    /// the sum of the counts beyond what 64 bits hold is answered as `Memory`, before anything is held.
    pub fn hold(&mut self, alloc: Global, tables: &Tables, c: &Change) -> Result<u64, Fail<Refused>>
        ensures exact { Gives (result_map (λ count. (block_over tables.now self.new, count)) result) (held_change (block_over tables.now self.old) c.now) }
        ensures err { OnErr result (self.new ≡ self.old) }
    {
        if self.count > u64::MAX - MAX_ROWS as u64 {
            return Err(Fail::Memory);
        }
        let count = tables.hold(alloc, &mut self.pending, c)?;
        self.count += count;
        Ok(count)
    }

    /// A statement on this line was refused: the first such line is kept.
    pub fn note_refusal(&mut self, line: u32)
        ensures { self.new ≡ record self.old { refused = Some (unwrap_or self.old.refused line) } }
    {
        if self.refused.is_none() {
            self.refused = Some(line);
        }
    }

    /// Puts the rows that the block leaves into the tables, and answers the sum of its row counts. It takes no memory.
    pub fn commit(self, tables: &mut Tables) -> u64
        ensures tables { tables.new ≡ with_pending tables.old self.pending }
        ensures counted { result ≡ self.count }
    {
        let count = self.count;
        commit_all(tables, self.pending.into_staged());
        count
    }
}

// The last is committed first: of two that are of one table the rows of the first stand in the end, as they are the ones
// that are pending.
fn commit_all(tables: &mut Tables, held: Vec<Staged>)
    ensures { tables.new ≡ with_pending tables.old held.items }
{
    let mut left = held;
    'staged: while let Some(staged) = left.pop() {
        tables.commit(staged);
    }
}
