//! That what is bound fits the catalog, on functions that do nothing: the contract of each is the law.

ghost use Rattle.std.specs.Prelude.{ℕ, List};
ghost use Rattle.mq_ast.specs.declared.expressions.E.{E};
ghost use Rattle.mq_ast.specs.declared.queries.Plain.{Plain};
ghost use Rattle.mq_ast.specs.declared.queries.Query.{Query};
ghost use Rattle.mq_ast.specs.declared.statements.ColDef.{ColDef};
ghost use Rattle.mq_ast.specs.declared.statements.Stmt.{Stmt};
ghost use Rattle.mq_ir.specs.declared.catalog.Catalog.{Catalog};
ghost use Rattle.mq_ir.specs.declared.query.BoundQuery.{BoundQuery};
ghost use Rattle.mq_ir.specs.declared.statement.Bound.{Bound};
ghost use Rattle.mq_ir.specs.declared.statement.TableDef.{TableDef};
ghost use Rattle.mq_bind_scopes.specs.Names.{Name};
ghost use Rattle.mq_bind_scopes.specs.declared.scopes.Found.{Found};
ghost use Rattle.mq_bind_scopes.specs.declared.scopes.Part.{Part};
ghost use Rattle.mq_bind_scopes.specs.declared.scopes.Scope.{Scope};
ghost use Rattle.mq_binder.specs.declared.found.Base.{Base};
ghost use Rattle.mq_binder.specs.declared.found.PlainFound.{PlainFound};
ghost use Rattle.mq_binder.specs.FitLaws.{BaseFits, MeasuresAreNamed, PlainQueryFits, QueryFits, RowExpressionFits, SchemaFits, StatementFits};

/// An expression over rows, as WHERE, an item or a value of a change, names columns of these rows alone; each call has
/// its number of arguments, no scale is above the limit, and what stands in an aggregate may stand there.
pub fn row_expressions_fit()
    ensures { (widths : List ℕ) (scope : Scope) (p : Part) (e : E) (f : Found) → RowExpressionFits widths scope p e f }
{}

/// The rows of a query fit the catalog: its FROM items are tables, each ON condition names columns of the items up to
/// its own, and WHERE those of all.
pub fn bases_fit()
    ensures { (catalog : Catalog) (p : Plain) (base : Base) → BaseFits catalog p base }
{}

/// A query without MODEL fits the catalog.
pub fn plain_queries_fit()
    ensures { (catalog : Catalog) (p : Plain) (found : PlainFound) → PlainQueryFits catalog p found }
{}

/// A query fits the catalog, with its MODEL clause.
pub fn queries_fit()
    ensures { (catalog : Catalog) (q : Query) (b : BoundQuery) → QueryFits catalog q b }
{}

/// A bound statement fits the catalog that it is bound under: what runs it can rely on its names, its numbers, the widths of its
/// lists, and the limits.
pub fn statements_fit()
    ensures { (catalog : Catalog) (s : Stmt) (b : Bound) → StatementFits catalog s b }
{}

/// A table that is created has columns and a key within the limits, whatever there is.
pub fn schemas_fit()
    ensures { (catalog : Catalog) (name : Name) (cols : List ColDef) (key : List Name) (def : TableDef) → SchemaFits catalog name cols key def }
{}

/// The model of a query has a name for each measure, whatever there is: so each catalog whose views are bound queries is
/// one for `statements_fit`.
pub fn measures_are_named()
    ensures { (catalog : Catalog) (q : Query) (b : BoundQuery) → MeasuresAreNamed catalog q b }
{}
