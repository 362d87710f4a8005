ghost use Rattle.std.specs.Prelude.{ℕ};
ghost use Rattle.mq_ir.specs.Statement.{State};
ghost use Rattle.mq_tool.specs.Loads.{FileMap};
ghost use Rattle.mq_tool.specs.Script.{Read};
ghost use Rattle.mq_bind_laws.specs.RefusedStatements.{RefusalAltersNothing};

/// A refused statement alters no table, no view and no scenario, and prints its refusal alone. A block notes its line, and
/// a refused COMMIT ends the block (docs/MEANING.md, "Statements").
pub fn refusals_alter_nothing()
    ensures { (files : FileMap) (state : State) (r : ℕ × Read) → RefusalAltersNothing files state r }
{}
