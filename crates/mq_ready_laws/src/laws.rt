ghost use Rattle.mq_ast.specs.declared.statements.Stmt.{Stmt};
ghost use Rattle.mq_ir.specs.declared.catalog.Catalog.{Catalog};
ghost use Rattle.mq_ir.specs.declared.query.BoundQuery.{BoundQuery};
ghost use Rattle.mq_ir.specs.declared.statement.TableDef.{TableDef};
ghost use Rattle.mq_bind_scopes.specs.Names.{Name};
ghost use Rattle.mq_ready_laws.specs.ReadyLaws.{BoundQueryIsReady, BoundViewIsReady, CreatedTableIsNew, CreatedViewIsNew};

/// A table that may be created has a name that no table, no view and no scenario has.
pub fn created_tables_are_new()
    ensures { (catalog : Catalog) (s : Stmt) (def : TableDef) → CreatedTableIsNew catalog s def }
{}

/// So has a view that may be created.
pub fn created_views_are_new()
    ensures { (catalog : Catalog) (s : Stmt) (name : Name) (q : BoundQuery) → CreatedViewIsNew catalog s name q }
{}

/// The model of a query has a place for each dimension on each left side, and the query's items are the columns of its
/// partitions, its dimensions and its measures.
pub fn queries_are_ready()
    ensures { (catalog : Catalog) (s : Stmt) (q : BoundQuery) → BoundQueryIsReady catalog s q }
{}

/// So has the model of a query that a view stands for.
pub fn views_are_ready()
    ensures { (catalog : Catalog) (s : Stmt) (name : Name) (q : BoundQuery) → BoundViewIsReady catalog s name q }
{}
