//! The calls of blocks.
ghost use Rattle.std.specs.Prelude.{◌≡◌, ◌∷◌, [], Some, None, true, is_some, OnErr};
ghost use Rattle.std.specs.Option.{option_and_then, option_map};
ghost use Rattle.mq_values.specs.Answers.{Gives, result_map};
ghost use Rattle.mq_ir.specs.Lines.{Counted};
ghost use Rattle.mq_ir.specs.Statement as spec;
ghost use Rattle.mq_ir.specs.Statement.{Block};

use crate::engine::Engine;
use crate::open_block::OpenBlock;
use mq_io::Gate;
use mq_ir::Change;
use mq_values::{Fail, Refused};
use std::alloc::Global;

impl Engine {
    /// Whether a block is there.
    pub fn in_block(&self) -> bool
        ensures { result ≡ is_some self.now.block }
    {
        self.block.is_some()
    }

    /// The line of the BEGIN of the block that is there.
    pub fn block_line(&self) -> Option<u32>
        ensures { result ≡ option_map (λ b. b.line) self.now.block }
    {
        let block = self.block.as_ref()?;
        Some(block.line)
    }

    /// BEGIN, where no block is there, on this line of the script. It takes no memory.
    pub fn begin(&mut self, alloc: Global, line: u32)
        requires { self.old.block ≡ None }
        ensures { self.new ≡ spec.open_block self.old line }
    {
        self.block = Some(OpenBlock::new(alloc, line));
    }

    /// Holds a change in the block that is there: it is judged against the tables as the block leaves them, and acts on those.
    /// Answers how many rows are counted, or why the change is refused; then nothing is changed (docs/MEANING.md, "Blocks").
    /// A sum of the block's counts that 64 bits might not hold is answered as `Memory`.
    pub fn hold(&mut self, alloc: Global, c: &Change) -> Result<u64, Fail<Refused>>
        requires { is_some self.old.block ≡ true }
        ensures exact { (block : Block) → self.old.block ≡ Some block → Gives (result_map (λ count. (self.new, Counted count ∷ [])) result) (spec.hold_step self.old block c.now) }
        ensures err { OnErr result (self.new ≡ self.old) }
    {
        match &mut self.block {
            Some(block) => block.hold(alloc, &self.tables, c),
            None => unreachable!(),
        }
    }

    /// COMMIT of the block that is there: its changes become those of the tables, and its counts are answered in one sum; or
    /// it is refused, since a statement in it was, and then nothing is changed. It takes no memory.
    pub fn commit<G: Gate>(&mut self, _alloc: Global, _gate: &G) -> Result<u64, Fail<Refused>>
        requires { is_some self.old.block ≡ true }
        ensures exact { (block : Block) → self.old.block ≡ Some block → Gives (result_map (λ count. (self.new, Counted count ∷ [])) result) (spec.commit_step self.old block) }
        ensures err { OnErr result (self.new ≡ self.old) }
    {
        if let Some(line) = refused_line(&self.block) {
            return Err(Fail::Cause(Refused::BlockBroken(line)));
        }
        match self.block.take() {
            Some(block) => {
                self.kept.pass_over();
                Ok(block.commit(&mut self.tables))
            }
            None => unreachable!(),
        }
    }

    /// Ends the block that is there, whose changes are given up; where none is, nothing is changed. It takes no memory.
    pub fn rollback(&mut self)
        ensures { self.new ≡ spec.without_block self.old }
    {
        self.block = None;
    }

    /// A statement on this line was refused: a block that is there notes the first such line. It takes no memory.
    pub fn note_refusal(&mut self, line: u32)
        ensures { self.new ≡ spec.note_refusal self.old line }
    {
        match &mut self.block {
            Some(block) => block.note_refusal(line),
            None => {}
        }
    }
}

// The line of the first refused statement of a block.
fn refused_line(block: &Option<OpenBlock>) -> Option<u32>
    ensures { result ≡ option_and_then (λ b. b.refused) block.now }
{
    let block = block.as_ref()?;
    block.refused
}
