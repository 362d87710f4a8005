ghost use Rattle.mq_ast.specs.declared.queries.Query.{Query};
ghost use Rattle.mq_ir.specs.declared.catalog.Catalog.{Catalog};
ghost use Rattle.mq_ir.specs.declared.query.BoundQuery.{BoundQuery};
ghost use Rattle.mq_bind_scopes.specs.Names.{Name};
ghost use Rattle.mq_bind_laws.specs.DroppedTables.{QueryOutlastsTable};

/// A query that is bound is bound to the same without a table that it does not read (docs/LANGUAGE.md, "Names").
pub fn queries_outlast_other_tables()
    ensures { (catalog : Catalog) (name : Name) (q : Query) (b : BoundQuery) → QueryOutlastsTable catalog name q b }
{}
