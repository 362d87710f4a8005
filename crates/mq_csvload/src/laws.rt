//! What holds of the rows of every file.
ghost use Rattle.std.specs.Prelude.{ℕ, List, IsTrue, IfOk};
ghost use Rattle.std.specs.List.{list_all};
ghost use Rattle.mq_ir.specs.FitsStatement.{is_row_of};
ghost use Rattle.mq_ir.specs.declared.statement.Schema.{Schema};
ghost use Rattle.mq_csvload.specs.Loading.{rows_in};

/// The rows that a file holds for a table are rows of that table: each has one value for each column, which is null or
/// of the column's kind, and not null where the column is NOT NULL. The call does nothing: its contract is the law.
pub fn loaded_rows_are_rows()
    ensures { (bytes : List ℕ) (schema : Schema) → IfOk (rows_in bytes schema) (λ rows. IsTrue (list_all (is_row_of schema) rows)) }
{}
