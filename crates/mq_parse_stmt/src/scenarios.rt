//! Scenarios: CREATE SCENARIO, DROP SCENARIO, UNDER and COMPARE (docs/LANGUAGE.md, "Statements").

ghost use Rattle.std.specs.Prelude.{List, ◌∷◌};
ghost use Rattle.mq_ast.specs.Prelude.{Word};
ghost use Rattle.mq_parse_words.specs.Reading.{from};
ghost use Rattle.mq_parse_stmt.specs.Parsing.{Whole};

use crate::change::read_change;
use crate::pieces::last;
use mq_ast::{Keyword, Stmt};
use mq_lexer::Token;
use mq_parse_query::{Naming, read_list};
use mq_parse_words::{pass_word, read_name};
use mq_values::{Fail, Refused};
use std::alloc::Global;

/// A new scenario, from behind CREATE SCENARIO on.
pub(crate) fn read_create_scenario(
    alloc: Global,
    t: &[Token<'_>],
    at: usize,
) -> Result<Stmt, Fail<Refused>>
    ensures { Whole (Word Keyword.Create ∷ Word Keyword.Scenario ∷ from t.now at) result }
{
    let name = last(t, read_name(alloc, t, at))?;
    Ok(Stmt::CreateScenario { name })
}

/// A scenario dropped, from behind DROP SCENARIO on.
pub(crate) fn read_drop_scenario(
    alloc: Global,
    t: &[Token<'_>],
    at: usize,
) -> Result<Stmt, Fail<Refused>>
    ensures { Whole (Word Keyword.Drop ∷ Word Keyword.Scenario ∷ from t.now at) result }
{
    let name = last(t, read_name(alloc, t, at))?;
    Ok(Stmt::DropScenario { name })
}

/// A change that a scenario takes in, from behind UNDER on.
pub(crate) fn read_under(alloc: Global, t: &[Token<'_>], at: usize) -> Result<Stmt, Fail<Refused>>
    ensures { Whole (Word Keyword.Under ∷ from t.now at) result }
{
    let (scenario, mid) = read_name(alloc, t, at)?;
    let change = read_change(alloc, t, mid)?;
    Ok(Stmt::Under { scenario, change })
}

/// A view compared under scenarios, from behind COMPARE on.
pub(crate) fn read_compare(alloc: Global, t: &[Token<'_>], at: usize) -> Result<Stmt, Fail<Refused>>
    ensures { Whole (Word Keyword.Compare ∷ from t.now at) result }
{
    let (view, mid) = read_name(alloc, t, at)?;
    let list = pass_word(t, mid, Keyword::Under)?;
    let scenarios = last(t, read_list::<Naming>(alloc, t, list))?;
    Ok(Stmt::Compare { view, scenarios })
}
