//! BEGIN, COMMIT and ROLLBACK (docs/LANGUAGE.md, "Statements").

ghost use Rattle.std.specs.Prelude.{List, ◌∷◌};
ghost use Rattle.mq_ast.specs.Prelude.{Word};
ghost use Rattle.mq_parse_words.specs.Reading.{from};
ghost use Rattle.mq_parse_stmt.specs.Parsing.{Whole};

use crate::pieces::ended;
use mq_ast::{Keyword, Stmt};
use mq_lexer::Token;
use mq_values::{Fail, Refused};

/// A block begun: nothing follows BEGIN.
pub(crate) fn read_begin(t: &[Token<'_>], at: usize) -> Result<Stmt, Fail<Refused>>
    ensures { Whole (Word Keyword.Begin ∷ from t.now at) result }
{
    ended(t, at)?;
    Ok(Stmt::Begin)
}

/// A block taken: nothing follows COMMIT.
pub(crate) fn read_commit(t: &[Token<'_>], at: usize) -> Result<Stmt, Fail<Refused>>
    ensures { Whole (Word Keyword.Commit ∷ from t.now at) result }
{
    ended(t, at)?;
    Ok(Stmt::Commit)
}

/// A block given up: nothing follows ROLLBACK.
pub(crate) fn read_rollback(t: &[Token<'_>], at: usize) -> Result<Stmt, Fail<Refused>>
    ensures { Whole (Word Keyword.Rollback ∷ from t.now at) result }
{
    ended(t, at)?;
    Ok(Stmt::Rollback)
}
