//! The plain part of a query (docs/LANGUAGE.md, "Queries").

ghost use Rattle.std.specs.Prelude.{◌≡◌, ◌≤◌, true, false, [], length, IfOk};
ghost use Rattle.mq_ast.specs.declared.levels.TheConstants as level;
ghost use Rattle.mq_ast.specs.Prelude.{GroupE, PlainE, ShownE, SourceE, Stops, WhereE, plain_of, shown_of, source_of};
ghost use Rattle.mq_parse_words.specs.Reading.{Anywhere, IsRead};

use crate::columns::read_sels;
use crate::froms::read_from;
use crate::heap::{inner, opened_choice};
use crate::lists::{Listed, read_list};
use mq_ast::parts::{Shown, Source};
use mq_ast::{E, FromItem, Keyword, Path, Plain, Sel, Symbol, levels};
use mq_lexer::Token;
use mq_parse_expr::read_tree;
use mq_parse_words::{Tree, behind_sign, behind_word, pass_word, read_path, settled};
use mq_values::{Boxed, Fail, Items, Memory, ProdOp, Refused};
use std::alloc::Global;

/// The condition behind WHERE, where one stands there, up to a place where no token stands that goes on.
/// SYNTAX exactly where there is neither.
pub fn read_where(
    alloc: Global,
    t: &[Token<'_>],
    at: usize,
) -> Result<(Option<E>, usize), Fail<Refused>>
    requires { at ≤ length t.now }
    ensures { IsRead WhereE (Stops level.FILTERED) t.now at result }
{
    opened_choice(read_filter(alloc, t, at))
}

// The condition behind WHERE, on the heap.
fn read_filter(
    alloc: Global,
    t: &[Token<'_>],
    at: usize,
) -> Result<(Option<Tree>, usize), Fail<Refused>>
    requires { at ≤ length t.now }
    ensures { IsRead WhereE (Stops level.FILTERED) t.now at result }
{
    let Some(behind) = behind_word(t, at, Keyword::Where) else {
        settled(t, at, levels::FILTERED)?;
        return Ok((None, at));
    };
    let (e, to) = read_tree(alloc, t, behind)?;
    settled(t, to, levels::FILTERED)?;
    Ok((Some(e), to))
}

impl Listed for Path {
    ghost use Rattle.mq_ast.specs.Continuing.{Stops};
    ghost use Rattle.mq_ast.specs.GrammarNames.{PathE};
    ghost use Rattle.mq_ast.specs.Laws.{path_one};
    ghost use Rattle.std.proofs.Common.{arith, rules};

    type Tree = Path;

    ghost reads = { PathE };

    ghost stop = { Stops level.PATH };

    ghost one = { path_one };

    ghost before_comma = { Prim.search (arith, rules) };

    fn read(alloc: Global, t: &[Token<'_>], at: usize) -> Result<(Path, usize), Fail<Refused>> {
        read_path(alloc, t, at)
    }
}

// The paths of GROUP BY, where it stands there.
fn read_group(
    alloc: Global,
    t: &[Token<'_>],
    at: usize,
) -> Result<(Items<Path>, usize), Fail<Refused>>
    requires { at ≤ length t.now }
    ensures { IsRead GroupE (Stops level.PLAIN) t.now at result }
{
    let Some(group) = behind_word(t, at, Keyword::Group) else {
        settled(t, at, levels::PLAIN)?;
        return Ok((Items::new(alloc), at));
    };
    let by = pass_word(t, group, Keyword::By)?;
    let (paths, to) = read_list::<Path>(alloc, t, by)?;
    settled(t, to, levels::PLAIN)?;
    Ok((paths, to))
}

fn all_columns(alloc: Global) -> Shown
    ensures { result ≡ shown_of true [] }
{
    Shown {
        star: true,
        sels: Items::new(alloc),
    }
}

fn these(sels: Items<Sel>) -> Shown
    ensures { result ≡ shown_of false sels }
{
    Shown { star: false, sels }
}

// What stands between SELECT and FROM, with FROM.
fn read_shown(alloc: Global, t: &[Token<'_>], at: usize) -> Result<(Shown, usize), Fail<Refused>>
    ensures { IsRead ShownE Anywhere t.now at result }
{
    if let Some(star) = behind_sign(t, at, Symbol::Prod(ProdOp::Mul)) {
        let to = pass_word(t, star, Keyword::From)?;
        return Ok((all_columns(alloc), to));
    }
    let (sels, mid) = read_sels(alloc, t, at)?;
    let to = pass_word(t, mid, Keyword::From)?;
    Ok((these(sels), to))
}

fn source_with(
    alloc: Global,
    froms: Items<FromItem>,
    filter: Option<Tree>,
    group: Items<Path>,
) -> Result<Boxed<Source>, Memory>
    ensures { IfOk result (λ s. s ≡ source_of froms filter group) }
{
    let filter = inner(filter);
    Boxed::new(
        alloc,
        Source {
            froms,
            filter,
            group,
        },
    )
}

// What stands behind FROM.
fn read_source(
    alloc: Global,
    t: &[Token<'_>],
    at: usize,
) -> Result<(Boxed<Source>, usize), Fail<Refused>>
    ensures { IsRead SourceE (Stops level.PLAIN) t.now at result }
{
    let (froms, mid) = read_from(alloc, t, at)?;
    let (filter, last) = read_filter(alloc, t, mid)?;
    let (group, to) = read_group(alloc, t, last)?;
    Ok((source_with(alloc, froms, filter, group)?, to))
}

fn plain_with(alloc: Global, shown: Shown, source: Boxed<Source>) -> Result<Boxed<Plain>, Memory>
    ensures { IfOk result (λ p. p ≡ plain_of shown source) }
{
    let source = source.into_inner();
    Boxed::new(
        alloc,
        Plain {
            star: shown.star,
            sels: shown.sels,
            froms: source.froms,
            filter: source.filter,
            group: source.group,
        },
    )
}

/// SELECT with FROM, WHERE and GROUP BY.
pub(crate) fn read_plain(
    alloc: Global,
    t: &[Token<'_>],
    at: usize,
) -> Result<(Boxed<Plain>, usize), Fail<Refused>>
    ensures { IsRead PlainE (Stops level.PLAIN) t.now at result }
{
    let select = pass_word(t, at, Keyword::Select)?;
    let (shown, mid) = read_shown(alloc, t, select)?;
    let (source, to) = read_source(alloc, t, mid)?;
    Ok((plain_with(alloc, shown, source)?, to))
}
