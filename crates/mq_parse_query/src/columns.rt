//! Lists of columns (docs/LANGUAGE.md, "Queries").

ghost use Rattle.std.specs.Prelude.{◌≡◌, ◌≤◌, length};
ghost use Rattle.mq_ast.specs.declared.levels.TheConstants as level;
ghost use Rattle.mq_ast.specs.Prelude.{AliasE, Cols, EndsList, SelE, SomeOf, Stops, sel_of};
ghost use Rattle.mq_parse_query.specs.Pieces.{SomeName};
ghost use Rattle.mq_parse_words.specs.Reading.{Anywhere, IsRead};

use crate::lists::{Listed, read_list};
use mq_ast::{Keyword, Sel, Symbol, levels};
use mq_lexer::Token;
use mq_parse_expr::read_tree;
use mq_parse_words::{Tree, behind_word, name_at, pass_sign, read_name, settled};
use mq_values::{Fail, Items, Refused, Words};
use std::alloc::Global;

/// The alias at a place, where one stands there.
pub(crate) fn read_alias(
    alloc: Global,
    t: &[Token<'_>],
    at: usize,
) -> Result<(Option<Words>, usize), Fail<Refused>>
    requires { at ≤ length t.now }
    ensures { IsRead AliasE (Stops level.ITEM) t.now at result }
{
    if let Some(behind) = behind_word(t, at, Keyword::As) {
        return read_alias_name(alloc, t, behind);
    }
    if let Some(_) = name_at(t, at) {
        return read_alias_name(alloc, t, at);
    }
    settled(t, at, levels::ITEM)?;
    Ok((None, at))
}

// The name of an alias.
fn read_alias_name(
    alloc: Global,
    t: &[Token<'_>],
    at: usize,
) -> Result<(Option<Words>, usize), Fail<Refused>>
    requires { at ≤ length t.now }
    ensures { IsRead SomeName (Stops level.ITEM) t.now at result }
{
    let (name, to) = read_name(alloc, t, at)?;
    settled(t, to, levels::ITEM)?;
    Ok((Some(name), to))
}

impl Listed for Sel {
    ghost use Rattle.mq_ast.specs.Continuing.{Stops};
    ghost use Rattle.mq_ast.specs.GrammarQuery.{SelE};
    ghost use Rattle.mq_ast.specs.Laws.{sel_same};
    ghost use Rattle.std.proofs.Common.{arith, rules};

    type Tree = Sel;

    ghost reads = { SelE };

    ghost stop = { Stops level.ITEM };

    ghost one = { sel_same };

    ghost before_comma = { Prim.search (arith, rules) };

    fn read(alloc: Global, t: &[Token<'_>], at: usize) -> Result<(Sel, usize), Fail<Refused>> {
        let (e, mid) = read_tree(alloc, t, at)?;
        let (alias, to) = read_alias(alloc, t, mid)?;
        Ok((sel_with(e, alias), to))
    }
}

fn sel_with(e: Tree, alias: Option<Words>) -> Sel
    ensures { result ≡ sel_of e alias }
{
    Sel {
        e: e.into_inner(),
        alias,
    }
}

/// Columns with commas between them.
pub(crate) fn read_sels(
    alloc: Global,
    t: &[Token<'_>],
    at: usize,
) -> Result<(Items<Sel>, usize), Fail<Refused>>
    ensures { IsRead (SomeOf SelE) (EndsList (Stops level.ITEM)) t.now at result }
{
    read_list::<Sel>(alloc, t, at)
}

/// Columns between brackets, with commas between them.
pub(crate) fn read_cols(
    alloc: Global,
    t: &[Token<'_>],
    at: usize,
) -> Result<(Items<Sel>, usize), Fail<Refused>>
    ensures { IsRead Cols Anywhere t.now at result }
{
    let open = pass_sign(t, at, Symbol::Open)?;
    let (cols, mid) = read_sels(alloc, t, open)?;
    let to = pass_sign(t, mid, Symbol::Close)?;
    Ok((cols, to))
}
