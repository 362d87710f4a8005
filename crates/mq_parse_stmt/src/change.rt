//! INSERT, UPDATE and DELETE (docs/LANGUAGE.md, "Statements").

ghost use Rattle.std.specs.Prelude.{◌≡◌, ◌≢◌, ◌≤◌, ◌<◌, List, ◌∷◌, length};
ghost use Rattle.mq_ast.specs.declared.levels.TheConstants as level;
ghost use Rattle.mq_ast.specs.Prelude.{SetE, Stops, Word};
ghost use Rattle.mq_ast.specs.Laws.{set_same};
ghost use Rattle.mq_parse_words.specs.Reading.{from, Anywhere, IsRead};
ghost use Rattle.mq_parse_stmt.specs.Pieces.{NamesValues, Changes};
ghost use Rattle.mq_parse_stmt.specs.Parsing.{WholeChange};

use crate::pieces::{beside, last, read_names, read_word_name};
use mq_ast::{ChangeTree, E, Keyword, Symbol};
use mq_lexer::Token;
use mq_parse_expr::read_expr;
use mq_parse_query::{Listed, Row, read_list, read_where};
use mq_parse_words::{behind_word, pass_sign, pass_word, read_name};
use mq_values::{CmpOp, Fail, Items, Refused, Words};
use std::alloc::Global;

/// A change of the rows of a table, up to the last token. SYNTAX where no change reads them all.
pub(crate) fn read_change(
    alloc: Global,
    t: &[Token<'_>],
    at: usize,
) -> Result<ChangeTree, Fail<Refused>>
    ensures { WholeChange (from t.now at) result }
{
    if let Some(behind) = behind_word(t, at, Keyword::Insert) {
        return read_insert(alloc, t, behind);
    }
    if let Some(behind) = behind_word(t, at, Keyword::Update) {
        return read_update(alloc, t, behind);
    }
    match behind_word(t, at, Keyword::Delete) {
        Some(behind) => read_delete(alloc, t, behind),
        None => Err(Fail::Cause(Refused::Syntax)),
    }
}

// Rows put into a table, from behind INSERT on.
fn read_insert(alloc: Global, t: &[Token<'_>], at: usize) -> Result<ChangeTree, Fail<Refused>>
    ensures { WholeChange (Word Keyword.Insert ∷ from t.now at) result }
{
    let (name, mid) = read_word_name(alloc, t, at, Keyword::Into)?;
    let (cols, values) = read_names_values(alloc, t, mid)?;
    let rows = last(t, read_list::<Row>(alloc, t, values))?;
    Ok(ChangeTree::Insert { name, cols, rows })
}

// The columns of the rows between brackets, where they are named, and VALUES.
fn read_names_values(
    alloc: Global,
    t: &[Token<'_>],
    at: usize,
) -> Result<(Option<Items<Words>>, usize), Fail<Refused>>
    ensures { IsRead NamesValues Anywhere t.now at result }
{
    match behind_word(t, at, Keyword::Values) {
        Some(to) => Ok((None, to)),
        None => {
            let (names, end) = read_names(alloc, t, at)?;
            let to = pass_word(t, end, Keyword::Values)?;
            Ok((Some(names), to))
        }
    }
}

// Rows changed, from behind UPDATE on.
fn read_update(alloc: Global, t: &[Token<'_>], at: usize) -> Result<ChangeTree, Fail<Refused>>
    ensures { WholeChange (Word Keyword.Update ∷ from t.now at) result }
{
    let (name, mid) = read_name(alloc, t, at)?;
    let set = pass_word(t, mid, Keyword::Set)?;
    let changes = last(t, read_changes(alloc, t, set))?;
    Ok(update(name, changes))
}

fn update(name: Words, changes: (Items<(Words, E)>, Option<E>)) -> ChangeTree
    ensures { result ≡ ChangeTree.Update name changes.0 changes.1 }
{
    let (sets, filter) = changes;
    ChangeTree::Update { name, sets, filter }
}

// The new values, with commas between them, and the condition behind WHERE, where one stands there.
fn read_changes(
    alloc: Global,
    t: &[Token<'_>],
    at: usize,
) -> Result<((Items<(Words, E)>, Option<E>), usize), Fail<Refused>>
    requires { at ≤ length t.now }
    ensures { IsRead Changes (Stops level.FILTERED) t.now at result }
{
    let (sets, mid) = read_list::<Set>(alloc, t, at)?;
    beside(sets, read_where(alloc, t, mid))
}

// A new value of a column, as a part of lists.
struct Set;

impl Listed for Set {
    ghost use Rattle.std.proofs.Common.{arith, rules};

    type Tree = (Words, E);

    ghost reads = { SetE };

    ghost stop = { Stops level.EXPRESSION };

    ghost one = { set_same };

    ghost before_comma = { Prim.search (arith, rules) };

    fn read(
        alloc: Global,
        t: &[Token<'_>],
        at: usize,
    ) -> Result<((Words, E), usize), Fail<Refused>> {
        read_set(alloc, t, at)
    }
}

fn read_set(alloc: Global, t: &[Token<'_>], at: usize) -> Result<((Words, E), usize), Fail<Refused>>
    ensures { IsRead SetE (Stops level.EXPRESSION) t.now at result }
{
    let (name, mid) = read_name(alloc, t, at)?;
    let value = pass_sign(t, mid, Symbol::Cmp(CmpOp::Eq))?;
    beside(name, read_expr(alloc, t, value))
}

// Rows taken out of a table, from behind DELETE on.
fn read_delete(alloc: Global, t: &[Token<'_>], at: usize) -> Result<ChangeTree, Fail<Refused>>
    ensures { WholeChange (Word Keyword.Delete ∷ from t.now at) result }
{
    let (name, mid) = read_word_name(alloc, t, at, Keyword::From)?;
    let filter = last(t, read_where(alloc, t, mid))?;
    Ok(ChangeTree::Delete { name, filter })
}
