ghost use Rattle.std.specs.Prelude.{ℕ, List};
ghost use Rattle.mq_ir.specs.Statement.{Block, State};
ghost use Rattle.mq_tool.specs.Loads.{FileMap};
ghost use Rattle.mq_tool.specs.Script.{Read};
ghost use Rattle.mq_session_laws.specs.BlockLaws.{BlockIsItsChanges, BlockKeepsWhatWas, BrokenBlockIsNothing, RolledBackBlockIsNothing};

/// The statements of a block in which nothing is refused, and then COMMIT, come to what they come to one after another
/// outside of a block, and print the same; COMMIT prints the sum (docs/MEANING.md, "Blocks").
pub fn blocks_come_to_their_changes()
    ensures { (files : FileMap) (state : State) (line : ℕ) (end : ℕ) (rs : List (ℕ × Read)) (b : Block)
        → BlockIsItsChanges files state line end rs b }
{}

/// While a block is there, the tables, the views and the scenarios are those at its BEGIN, and so is each answer; a block that
/// a script does not end leaves them so (docs/MEANING.md, "Blocks").
pub fn blocks_keep_what_was()
    ensures { (files : FileMap) (state : State) (line : ℕ) (rs : List (ℕ × Read)) → BlockKeepsWhatWas files state line rs }
{}

/// ROLLBACK leaves the session as it was at BEGIN (docs/MEANING.md, "Blocks").
pub fn rolled_back_blocks_come_to_nothing()
    ensures { (files : FileMap) (state : State) (line : ℕ) (end : ℕ) (rs : List (ℕ × Read))
        → RolledBackBlockIsNothing files state line end rs }
{}

/// So does COMMIT where a statement of the block was refused, and it is refused with the line of the first
/// (docs/MEANING.md, "Blocks").
pub fn broken_blocks_come_to_nothing()
    ensures { (files : FileMap) (state : State) (line : ℕ) (end : ℕ) (rs : List (ℕ × Read)) (b : Block) (first : ℕ)
        → BrokenBlockIsNothing files state line end rs b first }
{}
