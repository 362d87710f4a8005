ghost use Rattle.std.specs.Prelude.{ℕ, List};
ghost use Rattle.mq_ir.specs.Statement.{State};
ghost use Rattle.mq_tool.specs.Loads.{FileMap};
ghost use Rattle.mq_tool.specs.Script.{Read};
ghost use Rattle.mq_bind_laws.specs.BoundViews.{ScriptKeepsViewsBound, ViewsStayBound};

/// Where each view has what some query is bound to, so it stays after each statement, DROP TABLE too
/// (docs/MEANING.md, "Statements").
pub fn views_stay_bound()
    ensures { (files : FileMap) (state : State) (r : ℕ × Read) → ViewsStayBound files state r }
{}

/// In each state that a script comes to, each view has what some query is bound to over the tables as they stand then
/// (docs/MEANING.md, "Statements").
pub fn scripts_keep_views_bound()
    ensures { (files : FileMap) (script : List (ℕ × Read)) → ScriptKeepsViewsBound files script }
{}
