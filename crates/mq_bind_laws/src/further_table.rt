ghost use Rattle.std.specs.Prelude.{ℕ, List};
ghost use Rattle.mq_ast.specs.declared.queries.Query.{Query};
ghost use Rattle.mq_ast.specs.declared.statements.ColDef.{ColDef};
ghost use Rattle.mq_ast.specs.declared.statements.Stmt.{Stmt};
ghost use Rattle.mq_ir.specs.declared.catalog.Catalog.{Catalog};
ghost use Rattle.mq_ir.specs.declared.catalog.TableEntry.{TableEntry};
ghost use Rattle.mq_ir.specs.declared.query.BoundQuery.{BoundQuery};
ghost use Rattle.mq_ir.specs.declared.statement.Bound.{Bound};
ghost use Rattle.mq_bind_scopes.specs.Names.{Name};
ghost use Rattle.mq_bind_laws.specs.FurtherTable.{QueryStays, QueryStaysAnywhere, QueryStaysBound, ScenarioStays, StatementStays, StatementStaysBound, TableStays, ViewStays};

/// A query that is bound is bound to the same with a further table, and one that is refused is refused for the same
/// offence, unless that is that the name of the table is unknown (docs/LANGUAGE.md, "Names").
pub fn queries_outlast_a_further_table()
    ensures bound { (catalog : Catalog) (table : TableEntry) (q : Query) (b : BoundQuery) → QueryStaysBound catalog table q b }
    ensures answer { (catalog : Catalog) (table : TableEntry) (q : Query) → QueryStays catalog table q }
    ensures anywhere { (place : ℕ) (catalog : Catalog) (table : TableEntry) (q : Query) → QueryStaysAnywhere place catalog table q }
{}

/// So it is with each other statement that wants no new name, and with CREATE VIEW, CREATE SCENARIO and CREATE TABLE of
/// another name where there is room (docs/LANGUAGE.md, "Names").
pub fn statements_outlast_a_further_table()
    ensures bound { (catalog : Catalog) (table : TableEntry) (s : Stmt) (b : Bound) → StatementStaysBound catalog table s b }
    ensures answer { (catalog : Catalog) (table : TableEntry) (s : Stmt) → StatementStays catalog table s }
    ensures view { (catalog : Catalog) (table : TableEntry) (name : Name) (q : Query) → ViewStays catalog table name q }
    ensures scenario { (catalog : Catalog) (table : TableEntry) (name : Name) → ScenarioStays catalog table name }
    ensures table { (catalog : Catalog) (table : TableEntry) (name : Name) (cols : List ColDef) (key : List Name) → TableStays catalog table name cols key }
{}
