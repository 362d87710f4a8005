ghost use Rattle.std.specs.Prelude.{ℕ, List};
ghost use Rattle.mq_ast.specs.declared.queries.Query.{Query};
ghost use Rattle.mq_ir.specs.declared.catalog.Catalog.{Catalog};
ghost use Rattle.mq_ir.specs.declared.catalog.Scenario.{Scenario};
ghost use Rattle.mq_ir.specs.declared.catalog.View.{View};
ghost use Rattle.mq_ir.specs.declared.query.BoundQuery.{BoundQuery};
ghost use Rattle.mq_ir.specs.Statement.{State};
ghost use Rattle.mq_tool.specs.Loads.{FileMap};
ghost use Rattle.mq_tool.specs.Script.{Read};
ghost use Rattle.mq_bind_laws.specs.StatementsBetween.{BlockGoesOn, QueryIgnoresViews, QueryOutlasts};

/// A query has the same answer whatever views and scenarios there are (docs/LANGUAGE.md, "Names").
pub fn queries_ignore_views()
    ensures { (catalog : Catalog) (views : List View) (scenarios : List Scenario) (q : Query) → QueryIgnoresViews catalog views scenarios q }
{}

/// Where a block holds tables with the names and columns of those outside of it, so it does after each statement.
pub fn blocks_keep_columns()
    ensures { (files : FileMap) (state : State) (r : ℕ × Read) → BlockGoesOn files state r }
{}

/// A query that is bound is bound to the same after each statement but DROP TABLE (docs/MEANING.md, "Statements").
pub fn queries_outlast_statements()
    ensures { (files : FileMap) (state : State) (r : ℕ × Read) (q : Query) (b : BoundQuery) → QueryOutlasts files state r q b }
{}
