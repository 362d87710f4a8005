//! Laws of binding, on functions that do nothing: the contract of each is the law.

ghost use Rattle.std.specs.Prelude.{List};
ghost use Rattle.mq_ast.specs.declared.expressions.E.{E};
ghost use Rattle.mq_ast.specs.declared.expressions.Path.{Path};
ghost use Rattle.mq_ast.specs.declared.queries.FromItem.{FromItem};
ghost use Rattle.mq_ast.specs.declared.queries.Sel.{Sel};
ghost use Rattle.mq_ast.specs.declared.statements.ChangeTree.{ChangeTree};
ghost use Rattle.mq_ast.specs.declared.statements.Stmt.{Stmt};
ghost use Rattle.mq_ir.specs.declared.catalog.Catalog.{Catalog};
ghost use Rattle.mq_ir.specs.declared.statement.Column.{Column};
ghost use Rattle.mq_bind_scopes.specs.Names.{Name};
ghost use Rattle.mq_binder.specs.StatementLaws.{AliasHidesColumn, AliasHidesTable, ChangesByCapitals, ColumnsByCapitals, KindOfTree, MeasuresByCapitals, OneAnswer, PathsByCapitals, ScenariosByCapitals, TablesByCapitals};
ghost use Rattle.mq_bind_scopes.specs.declared.scopes.Found.{Found};
ghost use Rattle.mq_bind_scopes.specs.declared.scopes.Named.{Named};
ghost use Rattle.mq_bind_scopes.specs.declared.scopes.Position.{Position};
ghost use Rattle.mq_bind_scopes.specs.declared.scopes.RowColumn.{RowColumn};
ghost use Rattle.mq_bind_scopes.specs.declared.scopes.Scope.{Scope};

/// Names are compared in capital letters: paths, lists of columns, and the names of tables, views, scenarios and measures that
/// differ in the case of their letters alone are bound alike (docs/LANGUAGE.md, "Names").
pub fn names_are_compared_in_capitals()
    ensures paths { (scope : Scope) (at : Position) (a b : Path) → PathsByCapitals scope at a b }
    ensures columns { (columns : List Column) (names others : List Name) → ColumnsByCapitals columns names others }
    ensures tables { (catalog : Catalog) (s : Stmt) (a b : Name) → TablesByCapitals catalog s a b }
    ensures changes { (catalog : Catalog) (c : ChangeTree) (a b : Name) → ChangesByCapitals catalog c a b }
    ensures scenarios { (catalog : Catalog) (names others : List Name) → ScenariosByCapitals catalog names others }
    ensures measures { (catalog : Catalog) (view : Name) (part cell : List E) (a b : Name) → MeasuresByCapitals catalog view part cell a b }
{}

/// An alias hides the name that it stands for: that of a table before a column, and that of a column in a list of a
/// model or reference (docs/LANGUAGE.md, "Names").
pub fn aliases_hide_names()
    ensures table { (item : FromItem) (alias : Name) (columns : List RowColumn) (at : Position) (last : Name) → AliasHidesTable item alias columns at last }
    ensures column { (sel : Sel) (path : Path) (alias : Name) (column : Named) → AliasHidesColumn sel path alias column }
{}

/// What an expression is bound to has the kind of its tree (docs/LANGUAGE.md, "Kinds").
pub fn kinds_are_of_trees()
    ensures { (scope : Scope) (at : Position) (e : E) (f : Found) → KindOfTree scope at e f }
{}

/// A statement has one answer: it is bound in one way, or refused for one offence (docs/LANGUAGE.md, "The order of
/// binding").
pub fn answers_are_one()
    ensures { (catalog : Catalog) (s : Stmt) → OneAnswer catalog s }
{}
