//! The left sides of rules (docs/LANGUAGE.md, "The MODEL clause").

ghost use Rattle.std.specs.Prelude.{◌≡◌, ◌≤◌, ◌∷◌, [], List, length, IfOk, MatchOption};
ghost use Rattle.mq_parse_words.specs.Reading.{Anywhere, IsRead, from};
ghost use Rattle.std.proofs.Common.{arith};
ghost use Rattle.mq_ast.specs.declared.levels.TheConstants as level;
ghost use Rattle.mq_ast.specs.Prelude.{AloneE, DownE, EndsList, FinishE, ForListE, LitE, NameE, RangeE, Sign, StartE, Stops, Tok, Tuple};
ghost use Rattle.mq_ast.specs.Prelude.{closer, place_of, range_of};
ghost use Rattle.mq_ast.specs.Laws.{alone_same, lit_same, name_same, tuple_one};
ghost use Rattle.mq_parse_query.specs.Pieces.{Closed, ForOpen, ForPlace, LeftEnd, LeftTuples, NoForOpen, NoQuery, PlainEnd};

use crate::heap::opened;
use crate::lists::{Listed, read_list};
use crate::plain::read_plain;
use mq_ast::parts::Range;
use mq_ast::{E, ForList, Keyword, LeftPlace, LeftTree, Plain, Symbol, levels};
use mq_lexer::Token;
use mq_parse_expr::{read_tree, read_tuple};
use mq_parse_words::{
    Tree, behind_sign, behind_word, pass_sign, pass_word, put, read_name, settled,
};
use mq_values::{Boxed, Fail, Items, Memory, Refused, Words};
use std::alloc::Global;

/// Parts with commas between them, and the closing sign behind the last.
pub(crate) fn read_closed<P: Listed>(
    alloc: Global,
    t: &[Token<'_>],
    at: usize,
    close: Symbol,
) -> Result<(Items<P::Tree>, usize), Fail<Refused>>
    requires { (ts : List Tok) → EndsList P.stop (Sign close ∷ ts) }
    ensures { IsRead (Closed (Sign close) P.reads) Anywhere t.now at result }
{
    let (found, end) = read_list::<P>(alloc, t, at)?;
    let to = pass_sign(t, end, close)?;
    Ok((found, to))
}

/// A plain query, and the closing bracket behind it.
pub(crate) fn read_plain_end(
    alloc: Global,
    t: &[Token<'_>],
    at: usize,
) -> Result<(Boxed<Plain>, usize), Fail<Refused>>
    ensures { IsRead PlainEnd Anywhere t.now at result }
{
    let (plain, end) = read_plain(alloc, t, at)?;
    let to = pass_sign(t, end, Symbol::Close)?;
    Ok((plain, to))
}

/// Names, as the parts of a list.
pub struct Naming;

impl Listed for Naming {
    type Tree = Words;

    ghost reads = { NameE };

    ghost stop = { Anywhere };

    fn read(alloc: Global, t: &[Token<'_>], at: usize) -> Result<(Words, usize), Fail<Refused>> {
        read_name(alloc, t, at)
    }

    ghost one = { name_same };

    ghost before_comma = { λ ts. tt };
}

/// Lists of expressions between brackets, as the parts of a list.
pub struct Row;

impl Listed for Row {
    type Tree = Items<E>;

    ghost reads = { Tuple };

    ghost stop = { Anywhere };

    fn read(alloc: Global, t: &[Token<'_>], at: usize) -> Result<(Items<E>, usize), Fail<Refused>> {
        read_tuple(alloc, t, at)
    }

    ghost one = { tuple_one };

    ghost before_comma = { λ ts. tt };
}

// Expressions, each as a list of one, as the parts of a list.
struct Alone;

impl Listed for Alone {
    type Tree = Items<E>;

    ghost reads = { AloneE };

    ghost stop = { Stops level.EXPRESSION };

    fn read(alloc: Global, t: &[Token<'_>], at: usize) -> Result<(Items<E>, usize), Fail<Refused>> {
        read_alone(alloc, t, at)
    }

    ghost one = { alone_same };

    ghost before_comma = { λ ts. Prim.omega arith };
}

// An expression, as a list of one.
fn read_alone(alloc: Global, t: &[Token<'_>], at: usize) -> Result<(Items<E>, usize), Fail<Refused>>
    ensures { IsRead AloneE (Stops level.EXPRESSION) t.now at result }
{
    let (e, to) = read_tree(alloc, t, at)?;
    Ok((list_of(alloc, e)?, to))
}

// A list of one expression.
fn list_of(alloc: Global, e: Tree) -> Result<Items<E>, Memory>
    ensures { IfOk result (λ xs. xs ≡ e ∷ []) }
{
    let mut list = Items::new(alloc);
    put(&mut list, e)?;
    Ok(list)
}

// What a FOR goes through: parts between brackets, each a list of expressions, or a query.
fn read_for_list<P: Listed<Tree = Items<E>>>(
    alloc: Global,
    t: &[Token<'_>],
    at: usize,
) -> Result<(Boxed<ForList>, usize), Fail<Refused>>
    requires closes { (ts : List Tok) → EndsList P.stop (closer ∷ ts) }
    requires no_query { NoQuery P.reads }
    ensures { IsRead (ForListE P.reads) Anywhere t.now at result }
{
    let open = pass_sign(t, at, Symbol::Open)?;
    match behind_word(t, open, Keyword::Select) {
        Some(_) => {
            let (plain, to) = read_plain_end(alloc, t, open)?;
            Ok((rows_of(alloc, plain)?, to))
        }
        None => {
            let (list, to) = read_closed::<P>(alloc, t, open, Symbol::Close)?;
            Ok((values_of(alloc, list)?, to))
        }
    }
}

// The rows of a query.
fn rows_of(alloc: Global, plain: Boxed<Plain>) -> Result<Boxed<ForList>, Memory>
    ensures { IfOk result (λ l. l ≡ ForList.Rows plain) }
{
    Boxed::new(alloc, ForList::Rows(plain.into_inner()))
}

// Values, one list of expressions each.
fn values_of(alloc: Global, list: Items<Items<E>>) -> Result<Boxed<ForList>, Memory>
    ensures { IfOk result (λ l. l ≡ ForList.Values list) }
{
    Boxed::new(alloc, ForList::Values(list))
}

// FROM, an expression and TO.
fn read_start(alloc: Global, t: &[Token<'_>], at: usize) -> Result<(Tree, usize), Fail<Refused>>
    ensures { IsRead StartE Anywhere t.now at result }
{
    let behind = pass_word(t, at, Keyword::From)?;
    let (e, end) = read_tree(alloc, t, behind)?;
    let to = pass_word(t, end, Keyword::To)?;
    Ok((e, to))
}

// INCREMENT or DECREMENT.
fn read_down(t: &[Token<'_>], at: usize) -> Result<(bool, usize), Fail<Refused>>
    ensures { IsRead DownE Anywhere t.now at result }
{
    match behind_word(t, at, Keyword::Increment) {
        Some(to) => Ok((false, to)),
        None => {
            let to = pass_word(t, at, Keyword::Decrement)?;
            Ok((true, to))
        }
    }
}

// An expression, and INCREMENT or DECREMENT.
fn read_finish(
    alloc: Global,
    t: &[Token<'_>],
    at: usize,
) -> Result<((Tree, bool), usize), Fail<Refused>>
    ensures { IsRead FinishE Anywhere t.now at result }
{
    let (e, end) = read_tree(alloc, t, at)?;
    let (down, to) = read_down(t, end)?;
    Ok(((e, down), to))
}

fn range_from(
    alloc: Global,
    start: Tree,
    finish: (Tree, bool),
    step: Tree,
) -> Result<Boxed<Range>, Memory>
    ensures { IfOk result (λ r. r ≡ range_of start finish step) }
{
    let (finish, down) = finish;
    Boxed::new(
        alloc,
        Range {
            start: start.into_inner(),
            finish: finish.into_inner(),
            down,
            step: step.into_inner(),
        },
    )
}

// FROM, TO, and INCREMENT or DECREMENT, each with its expression.
fn read_range(
    alloc: Global,
    t: &[Token<'_>],
    at: usize,
) -> Result<(Boxed<Range>, usize), Fail<Refused>>
    ensures { IsRead RangeE (Stops level.EXPRESSION) t.now at result }
{
    let (start, mid) = read_start(alloc, t, at)?;
    let (finish, last) = read_finish(alloc, t, mid)?;
    let (step, to) = read_tree(alloc, t, last)?;
    Ok((range_from(alloc, start, finish, step)?, to))
}

fn for_range(alloc: Global, dim: Words, range: Boxed<Range>) -> Result<Boxed<LeftPlace>, Memory>
    ensures { IfOk result (λ p. p ≡ place_of dim range) }
{
    let range = range.into_inner();
    Boxed::new(
        alloc,
        LeftPlace::ForRange {
            dim,
            start: range.start,
            stop: range.finish,
            step: range.step,
            down: range.down,
        },
    )
}

fn for_in(alloc: Global, dim: Words, list: Boxed<ForList>) -> Result<Boxed<LeftPlace>, Memory>
    ensures { IfOk result (λ p. p ≡ LeftPlace.ForIn dim list) }
{
    let list = list.into_inner();
    Boxed::new(alloc, LeftPlace::ForIn { dim, list })
}

// A FOR of one dimension, behind FOR.
fn read_for(
    alloc: Global,
    t: &[Token<'_>],
    at: usize,
) -> Result<(Boxed<LeftPlace>, usize), Fail<Refused>>
    ensures { IsRead ForPlace (Stops level.EXPRESSION) t.now at result }
{
    let (dim, mid) = read_name(alloc, t, at)?;
    match behind_word(t, mid, Keyword::In) {
        Some(behind) => {
            let (list, to) = read_for_list::<Alone>(alloc, t, behind)?;
            settled(t, to, levels::EXPRESSION)?;
            Ok((for_in(alloc, dim, list)?, to))
        }
        None => {
            let (range, to) = read_range(alloc, t, mid)?;
            Ok((for_range(alloc, dim, range)?, to))
        }
    }
}

// A place of a left side.
fn read_place(
    alloc: Global,
    t: &[Token<'_>],
    at: usize,
) -> Result<(Boxed<LeftPlace>, usize), Fail<Refused>>
    ensures { IsRead LitE (Stops level.EXPRESSION) t.now at result }
{
    if let Some(to) = behind_word(t, at, Keyword::Any) {
        settled(t, to, levels::EXPRESSION)?;
        return Ok((any_place(alloc)?, to));
    }
    match behind_word(t, at, Keyword::For) {
        Some(behind) => read_for(alloc, t, behind),
        None => {
            let (e, to) = read_tree(alloc, t, at)?;
            Ok((one_place(alloc, e)?, to))
        }
    }
}

fn any_place(alloc: Global) -> Result<Boxed<LeftPlace>, Memory>
    ensures { IfOk result (λ p. p ≡ LeftPlace.Any) }
{
    Boxed::new(alloc, LeftPlace::Any)
}

fn one_place(alloc: Global, e: Tree) -> Result<Boxed<LeftPlace>, Memory>
    ensures { IfOk result (λ p. p ≡ LeftPlace.Expr e) }
{
    Boxed::new(alloc, LeftPlace::Expr(e.into_inner()))
}

impl Listed for LeftPlace {
    type Tree = LeftPlace;

    ghost reads = { LitE };

    ghost stop = { Stops level.EXPRESSION };

    fn read(
        alloc: Global,
        t: &[Token<'_>],
        at: usize,
    ) -> Result<(LeftPlace, usize), Fail<Refused>> {
        opened(read_place(alloc, t, at))
    }

    ghost one = { lit_same };

    ghost before_comma = { λ ts. Prim.omega arith };
}

// The place behind FOR and an opening bracket.
fn behind_for(t: &[Token<'_>], at: usize) -> Option<usize>
    ensures { MatchOption result (NoForOpen (from t.now at)) (ForOpen t.now at) }
{
    match behind_word(t, at, Keyword::For) {
        Some(open) => behind_sign(t, open, Symbol::Open),
        None => None,
    }
}

// A FOR of several dimensions, behind its first bracket, and the closing square bracket.
fn read_left_tuples(
    alloc: Global,
    t: &[Token<'_>],
    at: usize,
) -> Result<(Boxed<LeftTree>, usize), Fail<Refused>>
    ensures { IsRead LeftTuples Anywhere t.now at result }
{
    let (dims, end) = read_closed::<Naming>(alloc, t, at, Symbol::Close)?;
    let behind = pass_word(t, end, Keyword::In)?;
    let (list, last) = read_for_list::<Row>(alloc, t, behind)?;
    let to = pass_sign(t, last, Symbol::CloseSquare)?;
    Ok((tuples_of(alloc, dims, list)?, to))
}

fn tuples_of(
    alloc: Global,
    dims: Items<Words>,
    list: Boxed<ForList>,
) -> Result<Boxed<LeftTree>, Memory>
    ensures { IfOk result (λ l. l ≡ LeftTree.Tuples dims list) }
{
    let list = list.into_inner();
    Boxed::new(alloc, LeftTree::Tuples { dims, list })
}

fn places_of(alloc: Global, places: Items<LeftPlace>) -> Result<Boxed<LeftTree>, Memory>
    ensures { IfOk result (λ l. l ≡ LeftTree.Places places) }
{
    Boxed::new(alloc, LeftTree::Places(places))
}

/// What stands between the square brackets of a left side, and the closing one.
pub(crate) fn read_left(
    alloc: Global,
    t: &[Token<'_>],
    at: usize,
) -> Result<(Boxed<LeftTree>, usize), Fail<Refused>>
    ensures { IsRead LeftEnd Anywhere t.now at result }
{
    match behind_for(t, at) {
        Some(dims) => read_left_tuples(alloc, t, dims),
        None => {
            let (places, to) = read_closed::<LeftPlace>(alloc, t, at, Symbol::CloseSquare)?;
            Ok((places_of(alloc, places)?, to))
        }
    }
}
