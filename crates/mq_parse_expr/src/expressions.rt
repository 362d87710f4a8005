//! Expressions, level by level (docs/LANGUAGE.md, "Expressions").

ghost use Rattle.std.specs.Prelude.{◌≡◌, ◌≤◌, ◌+◌, length};
ghost use Rattle.mq_ast.specs.Tokens.{Aggregate, Word, terminal_at};
ghost use Rattle.mq_ast.specs.declared.levels.TheConstants as level;
ghost use Rattle.mq_ast.specs.Continuing.{Stops, Ends};
ghost use Rattle.mq_ast.specs.GrammarExpression.{Expr, MoreOr, AndE, MoreAnd, NotE, TestE, TestTail, Tuple, Exprs, MoreExprs, SumE, MoreSum, ProdE, MoreProd, SignE, PrimE, Brackets, MorePlaces, PlaceE, CaseE};
ghost use Rattle.mq_parse_words.specs.Reading.{from, Anywhere, IsRead};
ghost use Rattle.mq_parse_words.specs.Forms.{IsClosed, form_of as spec_form};
ghost use Rattle.mq_parse_words.specs.Fronts.{AtWhen, Behind, CellsOf, ElseEnd, RoundE, Since, SomeWhens, between_front, cmp_front, in_front, not_front};

use crate::fronts::{
    agg_head, form_at, prod_op, read_as_kind, read_is, read_leaf, read_lone, read_to_scale, room,
    sum_op, tail_at,
};
use crate::lones::{put_lone, put_lone_term};
use mq_ast::{Arm, E, Keyword, Place, ProdTerm, SumTerm, Symbol, Terminal, levels};
use mq_lexer::Token;
use mq_parse_words::{
    AggHead, Form, Tail, Tree, aggregate, all_of, any_of, any_place, behind_sign, behind_word,
    between, called, case, cast, cell, comparison, counted, in_list, named, negation, pass_sign,
    pass_word, place_of, product, put, put_arm, put_before, put_prod, put_sum, range, read_path,
    rounded, scale_of, settled, signed, sum,
};
use mq_values::{Agg, Boxed, CmpOp, Fail, Items, Refused, SumOp, Words};
use std::alloc::Global;

/// An expression, up to a place where no token stands that goes on. SYNTAX exactly where there is no such expression,
/// also behind the last token.
pub fn read_expr(alloc: Global, t: &[Token<'_>], at: usize) -> Result<(E, usize), Fail<Refused>>
    ensures { IsRead Expr (Stops level.EXPRESSION) t.now at result }
{
    let (e, to) = read_whole(alloc, t, at)?;
    Ok((e.into_inner(), to))
}

/// An expression between brackets.
pub fn read_round(alloc: Global, t: &[Token<'_>], at: usize) -> Result<(E, usize), Fail<Refused>>
    ensures { IsRead RoundE Anywhere t.now at result }
{
    let (e, to) = read_inner(alloc, t, at)?;
    Ok((e.into_inner(), to))
}

/// The tree of an expression on the heap, as readers of larger trees hand it on; for the rest as [`read_expr`].
pub fn read_tree(alloc: Global, t: &[Token<'_>], at: usize) -> Result<(Tree, usize), Fail<Refused>>
    ensures { IsRead Expr (Stops level.EXPRESSION) t.now at result }
{
    read_whole(alloc, t, at)
}

/// The tree of an expression between brackets on the heap; for the rest as [`read_round`].
pub fn read_round_tree(
    alloc: Global,
    t: &[Token<'_>],
    at: usize,
) -> Result<(Tree, usize), Fail<Refused>>
    ensures { IsRead RoundE Anywhere t.now at result }
{
    read_inner(alloc, t, at)
}

// The tree of an expression. Most are one name or one number.
#[cycle(parser)]
fn read_whole(alloc: Global, t: &[Token<'_>], at: usize) -> Result<(Tree, usize), Fail<Refused>>
    ensures { IsRead Expr (Stops level.EXPRESSION) t.now at result }
{
    match read_lone(alloc, t, at, levels::EXPRESSION)? {
        Some(e) => Ok((e, at + 1)),
        None => read_or(alloc, t, at),
    }
}

// The tree of an expression.
#[cycle(parser)]
fn read_or(alloc: Global, t: &[Token<'_>], at: usize) -> Result<(Tree, usize), Fail<Refused>>
    ensures { IsRead Expr (Stops level.EXPRESSION) t.now at result }
{
    let (first, mid) = read_and(alloc, t, at)?;
    let Some(_) = behind_word(t, mid, Keyword::Or) else {
        return Ok((first, mid));
    };
    let (others, to) = read_ors(alloc, t, mid)?;
    Ok((any_of(alloc, first, others)?, to))
}

#[cycle(parser)]
fn read_ors(alloc: Global, t: &[Token<'_>], at: usize) -> Result<(Items<E>, usize), Fail<Refused>>
    requires in_range { at ≤ length t.now }
    requires stops { Stops level.CONJUNCTION (from t.now at) }
    ensures { IsRead MoreOr (Stops level.EXPRESSION) t.now at result }
{
    let mut found = Items::with_room(alloc, 2);
    let mut to = at;
    while let Some(behind) = behind_word(t, to, Keyword::Or) {
        let (e, next) = read_and(alloc, t, behind)?;
        put(&mut found, e)?;
        to = next;
    }
    Ok((found, to))
}

#[cycle(parser)]
fn read_and(alloc: Global, t: &[Token<'_>], at: usize) -> Result<(Tree, usize), Fail<Refused>>
    ensures { IsRead AndE (Stops level.CONJUNCTION) t.now at result }
{
    let (first, mid) = read_not(alloc, t, at)?;
    let Some(_) = behind_word(t, mid, Keyword::And) else {
        return Ok((first, mid));
    };
    let (others, to) = read_ands(alloc, t, mid)?;
    Ok((all_of(alloc, first, others)?, to))
}

#[cycle(parser)]
fn read_ands(alloc: Global, t: &[Token<'_>], at: usize) -> Result<(Items<E>, usize), Fail<Refused>>
    requires in_range { at ≤ length t.now }
    requires stops { Stops level.TEST (from t.now at) }
    ensures { IsRead MoreAnd (Stops level.CONJUNCTION) t.now at result }
{
    let mut found = Items::with_room(alloc, 2);
    let mut to = at;
    while let Some(behind) = behind_word(t, to, Keyword::And) {
        let (e, next) = read_not(alloc, t, behind)?;
        put(&mut found, e)?;
        to = next;
    }
    Ok((found, to))
}

#[cycle(parser)]
fn read_not(alloc: Global, t: &[Token<'_>], at: usize) -> Result<(Tree, usize), Fail<Refused>>
    ensures { IsRead NotE (Stops level.TEST) t.now at result }
{
    match behind_word(t, at, Keyword::Not) {
        Some(behind) => {
            let (e, to) = read_test(alloc, t, behind)?;
            Ok((negation(alloc, e)?, to))
        }
        None => read_test(alloc, t, at),
    }
}

#[cycle(parser)]
fn read_test(alloc: Global, t: &[Token<'_>], at: usize) -> Result<(Tree, usize), Fail<Refused>>
    ensures { IsRead TestE (Stops level.TEST) t.now at result }
{
    let (a, mid) = read_sum(alloc, t, at)?;
    read_tail(alloc, t, mid, a)
}

// What follows the first sum of a test.
#[cycle(parser)]
fn read_tail(
    alloc: Global,
    t: &[Token<'_>],
    at: usize,
    a: Tree,
) -> Result<(Tree, usize), Fail<Refused>>
    requires in_range { at ≤ length t.now }
    requires stops { Stops level.SUM (from t.now at) }
    ensures { IsRead (TestTail a) (Stops level.TEST) t.now at result }
{
    match tail_at(t, at) {
        Tail::Cmp(op) => read_cmp(alloc, t, at + 1, a, op),
        Tail::Between => read_between(alloc, t, at + 1, a, false),
        Tail::In => read_in(alloc, t, at + 1, a, false),
        Tail::Is => read_is(alloc, t, at + 1, a),
        Tail::Not => read_negated(alloc, t, at + 1, a),
        Tail::Done => Ok((a, at)),
    }
}

// A test with NOT, behind NOT.
#[cycle(parser)]
fn read_negated(
    alloc: Global,
    t: &[Token<'_>],
    at: usize,
    a: Tree,
) -> Result<(Tree, usize), Fail<Refused>>
    ensures { IsRead (Since not_front a) (Stops level.TEST) t.now at result }
{
    match tail_at(t, at) {
        Tail::Between => read_between(alloc, t, at + 1, a, true),
        Tail::In => read_in(alloc, t, at + 1, a, true),
        _ => Err(Fail::Cause(Refused::Syntax)),
    }
}

// A comparison, behind its sign.
#[cycle(parser)]
fn read_cmp(
    alloc: Global,
    t: &[Token<'_>],
    at: usize,
    a: Tree,
    op: CmpOp,
) -> Result<(Tree, usize), Fail<Refused>>
    ensures { IsRead (Since (cmp_front op) a) (Stops level.TEST) t.now at result }
{
    let (b, to) = read_sum(alloc, t, at)?;
    settled(t, to, levels::TEST)?;
    Ok((comparison(alloc, a, op, b)?, to))
}

// A test by BETWEEN, behind it.
#[cycle(parser)]
fn read_between(
    alloc: Global,
    t: &[Token<'_>],
    at: usize,
    a: Tree,
    not: bool,
) -> Result<(Tree, usize), Fail<Refused>>
    ensures { IsRead (Since (between_front not) a) (Stops level.TEST) t.now at result }
{
    let (low, end) = read_sum(alloc, t, at)?;
    let mid = pass_word(t, end, Keyword::And)?;
    let (high, to) = read_sum(alloc, t, mid)?;
    settled(t, to, levels::TEST)?;
    Ok((between(alloc, a, not, low, high)?, to))
}

// A test by IN, behind it.
#[cycle(parser)]
fn read_in(
    alloc: Global,
    t: &[Token<'_>],
    at: usize,
    a: Tree,
    not: bool,
) -> Result<(Tree, usize), Fail<Refused>>
    ensures { IsRead (Since (in_front not) a) (Stops level.TEST) t.now at result }
{
    let (members, to) = read_tuple(alloc, t, at)?;
    settled(t, to, levels::TEST)?;
    Ok((in_list(alloc, a, not, members)?, to))
}

/// A list of expressions between brackets, with commas between them.
#[cycle(parser)]
pub fn read_tuple(
    alloc: Global,
    t: &[Token<'_>],
    at: usize,
) -> Result<(Items<E>, usize), Fail<Refused>>
    ensures { IsRead Tuple Anywhere t.now at result }
{
    let open = pass_sign(t, at, Symbol::Open)?;
    let (list, end) = read_exprs(alloc, t, open)?;
    let to = pass_sign(t, end, Symbol::Close)?;
    Ok((list, to))
}

/// Expressions with commas between them, up to a place where neither a comma stands nor a token that goes on.
#[cycle(parser)]
pub fn read_exprs(
    alloc: Global,
    t: &[Token<'_>],
    at: usize,
) -> Result<(Items<E>, usize), Fail<Refused>>
    ensures { IsRead Exprs (Ends (Terminal.Sign Symbol.Comma)) t.now at result }
{
    let (first, mid) = read_whole(alloc, t, at)?;
    let (mut all, to) = read_more_exprs(alloc, t, mid)?;
    put_before(&mut all, first)?;
    Ok((all, to))
}

#[cycle(parser)]
fn read_more_exprs(
    alloc: Global,
    t: &[Token<'_>],
    at: usize,
) -> Result<(Items<E>, usize), Fail<Refused>>
    requires in_range { at ≤ length t.now }
    requires stops { Stops level.EXPRESSION (from t.now at) }
    ensures { IsRead MoreExprs (Ends (Terminal.Sign Symbol.Comma)) t.now at result }
{
    let mut found = Items::with_room(alloc, room(t, at));
    let mut to = at;
    while let Some(behind) = behind_sign(t, to, Symbol::Comma) {
        if put_lone(alloc, t, behind, &mut found)? {
            to = behind + 1;
            continue;
        }
        let (e, next) = read_or(alloc, t, behind)?;
        put(&mut found, e)?;
        to = next;
    }
    Ok((found, to))
}

#[cycle(parser)]
fn read_sum(alloc: Global, t: &[Token<'_>], at: usize) -> Result<(Tree, usize), Fail<Refused>>
    ensures { IsRead SumE (Stops level.SUM) t.now at result }
{
    let (first, mid) = read_term(alloc, t, at)?;
    let Some(_) = sum_op(t, mid) else {
        return Ok((first, mid));
    };
    let (others, to) = read_sums(alloc, t, mid)?;
    Ok((sum(alloc, first, others)?, to))
}

#[cycle(parser)]
fn read_sums(
    alloc: Global,
    t: &[Token<'_>],
    at: usize,
) -> Result<(Items<SumTerm>, usize), Fail<Refused>>
    requires in_range { at ≤ length t.now }
    requires stops { Stops level.PRODUCT (from t.now at) }
    ensures { IsRead MoreSum (Stops level.SUM) t.now at result }
{
    let mut found = Items::with_room(alloc, 1);
    let mut to = at;
    while let Some(op) = sum_op(t, to) {
        let behind = to + 1;
        if put_lone_term(alloc, t, behind, op, &mut found)? {
            to = behind + 1;
            continue;
        }
        let (e, next) = read_prod(alloc, t, behind)?;
        put_sum(&mut found, op, e)?;
        to = next;
    }
    Ok((found, to))
}

// A term of a sum. Most are one name or one number.
#[cycle(parser)]
fn read_term(alloc: Global, t: &[Token<'_>], at: usize) -> Result<(Tree, usize), Fail<Refused>>
    ensures { IsRead ProdE (Stops level.PRODUCT) t.now at result }
{
    match read_lone(alloc, t, at, levels::PRODUCT)? {
        Some(e) => Ok((e, at + 1)),
        None => read_prod(alloc, t, at),
    }
}

#[cycle(parser)]
fn read_prod(alloc: Global, t: &[Token<'_>], at: usize) -> Result<(Tree, usize), Fail<Refused>>
    ensures { IsRead ProdE (Stops level.PRODUCT) t.now at result }
{
    let (first, mid) = read_sign(alloc, t, at)?;
    let Some(_) = prod_op(t, mid) else {
        return Ok((first, mid));
    };
    let (others, to) = read_prods(alloc, t, mid)?;
    Ok((product(alloc, first, others)?, to))
}

#[cycle(parser)]
fn read_prods(
    alloc: Global,
    t: &[Token<'_>],
    at: usize,
) -> Result<(Items<ProdTerm>, usize), Fail<Refused>>
    requires in_range { at ≤ length t.now }
    requires stops { Stops level.PRIMARY (from t.now at) }
    ensures { IsRead MoreProd (Stops level.PRODUCT) t.now at result }
{
    let mut found = Items::with_room(alloc, 1);
    let mut to = at;
    while let Some(op) = prod_op(t, to) {
        let (e, next) = read_sign(alloc, t, to + 1)?;
        put_prod(&mut found, op, e)?;
        to = next;
    }
    Ok((found, to))
}

#[cycle(parser)]
fn read_sign(alloc: Global, t: &[Token<'_>], at: usize) -> Result<(Tree, usize), Fail<Refused>>
    ensures { IsRead SignE (Stops level.PRIMARY) t.now at result }
{
    match behind_sign(t, at, Symbol::Sum(SumOp::Sub)) {
        Some(behind) => {
            let (e, to) = read_prim(alloc, t, behind)?;
            Ok((signed(alloc, e)?, to))
        }
        None => read_prim(alloc, t, at),
    }
}

#[cycle(parser)]
fn read_prim(alloc: Global, t: &[Token<'_>], at: usize) -> Result<(Tree, usize), Fail<Refused>>
    ensures { IsRead PrimE (Stops level.PRIMARY) t.now at result }
{
    match form_at(t, at) {
        Form::Name => read_name(alloc, t, at),
        Form::Aggregate(agg) => read_agg(alloc, t, at + 1, agg),
        Form::Other => Err(Fail::Cause(Refused::Syntax)),
        form => {
            let (e, to) = read_closed(alloc, t, at, form)?;
            settled(t, to, levels::PRIMARY)?;
            Ok((e, to))
        }
    }
}

// A primary expression that neither a name nor an aggregate begins.
#[cycle(parser)]
fn read_closed(
    alloc: Global,
    t: &[Token<'_>],
    at: usize,
    form: Form,
) -> Result<(Tree, usize), Fail<Refused>>
    requires in_range { at + 1 ≤ length t.now }
    requires begins { form ≡ spec_form (terminal_at (from t.now at)) }
    requires closed { IsClosed form }
    ensures { IsRead PrimE Anywhere t.now at result }
{
    match form {
        Form::Brackets => read_inner(alloc, t, at),
        Form::Case => read_case(alloc, t, at + 1),
        Form::Cast => read_cast(alloc, t, at + 1),
        Form::Round => read_rounded(alloc, t, at + 1),
        Form::Call(word) => read_call(alloc, t, at + 1, word),
        _ => read_leaf(alloc, t, at, form),
    }
}

// A column, or a cell by its places.
#[cycle(parser)]
fn read_name(alloc: Global, t: &[Token<'_>], at: usize) -> Result<(Tree, usize), Fail<Refused>>
    requires in_range { at ≤ length t.now }
    requires begins { terminal_at (from t.now at) ≡ Terminal.Name }
    ensures { IsRead PrimE (Stops level.PRIMARY) t.now at result }
{
    let (path, mid) = read_path(alloc, t, at)?;
    let Some(_) = behind_sign(t, mid, Symbol::OpenSquare) else {
        settled(t, mid, levels::PRIMARY)?;
        return Ok((named(alloc, path)?, mid));
    };
    let (places, to) = read_brackets(alloc, t, mid)?;
    settled(t, to, levels::PRIMARY)?;
    Ok((cell(alloc, path, places)?, to))
}

// An aggregate, behind its word.
#[cycle(parser)]
fn read_agg(
    alloc: Global,
    t: &[Token<'_>],
    at: usize,
    agg: Agg,
) -> Result<(Tree, usize), Fail<Refused>>
    ensures { IsRead (Behind (Aggregate agg)) (Stops level.PRIMARY) t.now at result }
{
    match agg_head(t, at, agg) {
        AggHead::All(to) => {
            settled(t, to, levels::PRIMARY)?;
            Ok((counted(alloc)?, to))
        }
        AggHead::Cells(measure, cells) => {
            let measure = Words::new(alloc, measure)?;
            read_range(alloc, t, cells, agg, measure)
        }
        AggHead::Values => {
            let (e, to) = read_inner(alloc, t, at)?;
            settled(t, to, levels::PRIMARY)?;
            Ok((aggregate(alloc, agg, e)?, to))
        }
    }
}

// The cells of an aggregate, from their bracket on.
#[cycle(parser)]
fn read_range(
    alloc: Global,
    t: &[Token<'_>],
    at: usize,
    agg: Agg,
    measure: Words,
) -> Result<(Tree, usize), Fail<Refused>>
    requires in_range { at ≤ length t.now }
    requires begins { terminal_at (from t.now at) ≡ Terminal.Sign Symbol.OpenSquare }
    ensures { IsRead (CellsOf agg measure) (Stops level.PRIMARY) t.now at result }
{
    let (places, to) = read_brackets(alloc, t, at)?;
    settled(t, to, levels::PRIMARY)?;
    Ok((range(alloc, agg, measure, places)?, to))
}

// The tree of an expression between brackets.
#[cycle(parser)]
fn read_inner(alloc: Global, t: &[Token<'_>], at: usize) -> Result<(Tree, usize), Fail<Refused>>
    ensures { IsRead RoundE Anywhere t.now at result }
{
    let open = pass_sign(t, at, Symbol::Open)?;
    let (e, end) = read_whole(alloc, t, open)?;
    let to = pass_sign(t, end, Symbol::Close)?;
    Ok((e, to))
}

// A CAST, behind its word.
#[cycle(parser)]
fn read_cast(alloc: Global, t: &[Token<'_>], at: usize) -> Result<(Tree, usize), Fail<Refused>>
    ensures { IsRead (Behind (Word Keyword.Cast)) Anywhere t.now at result }
{
    let open = pass_sign(t, at, Symbol::Open)?;
    let (e, end) = read_whole(alloc, t, open)?;
    let (kind, to) = read_as_kind(t, end)?;
    Ok((cast(alloc, e, kind)?, to))
}

// A ROUND, behind its word.
#[cycle(parser)]
fn read_rounded(alloc: Global, t: &[Token<'_>], at: usize) -> Result<(Tree, usize), Fail<Refused>>
    ensures { IsRead (Behind (Word Keyword.Round)) Anywhere t.now at result }
{
    let open = pass_sign(t, at, Symbol::Open)?;
    let (e, end) = read_whole(alloc, t, open)?;
    let (places, to) = read_to_scale(t, end)?;
    Ok((rounded(alloc, e, scale_of(places))?, to))
}

// A call, behind its word.
#[cycle(parser)]
fn read_call(
    alloc: Global,
    t: &[Token<'_>],
    at: usize,
    word: Keyword,
) -> Result<(Tree, usize), Fail<Refused>>
    requires { spec_form (Terminal.Word word) ≡ Form.Call word }
    ensures { IsRead (Behind (Word word)) Anywhere t.now at result }
{
    let (args, to) = read_tuple(alloc, t, at)?;
    match called(alloc, word, args)? {
        Some(e) => Ok((e, to)),
        None => Err(Fail::Cause(Refused::Syntax)),
    }
}

// A CASE, behind its word.
#[cycle(parser)]
fn read_case(alloc: Global, t: &[Token<'_>], at: usize) -> Result<(Tree, usize), Fail<Refused>>
    ensures { IsRead (Behind (Word Keyword.Case)) Anywhere t.now at result }
{
    let (subject, start) = read_subject(alloc, t, at)?;
    let (arms, mid) = read_whens(alloc, t, start)?;
    let (other, to) = read_else(alloc, t, mid)?;
    Ok((case(alloc, subject, arms, other)?, to))
}

// What stands between CASE and its first WHEN.
#[cycle(parser)]
fn read_subject(
    alloc: Global,
    t: &[Token<'_>],
    at: usize,
) -> Result<(Option<Tree>, usize), Fail<Refused>>
    ensures { IsRead CaseE AtWhen t.now at result }
{
    match behind_word(t, at, Keyword::When) {
        Some(_) => Ok((None, at)),
        None => {
            let (e, to) = read_whole(alloc, t, at)?;
            pass_word(t, to, Keyword::When)?;
            Ok((Some(e), to))
        }
    }
}

#[cycle(parser)]
fn read_whens(
    alloc: Global,
    t: &[Token<'_>],
    at: usize,
) -> Result<(Items<Arm>, usize), Fail<Refused>>
    ensures { IsRead SomeWhens (Ends (Terminal.Word Keyword.When)) t.now at result }
{
    let mut found = Items::new(alloc);
    let mut to = pass_word(t, at, Keyword::When)?;
    loop {
        let (test, end) = read_whole(alloc, t, to)?;
        let mid = pass_word(t, end, Keyword::Then)?;
        let (value, next) = read_whole(alloc, t, mid)?;
        put_arm(&mut found, test, value)?;
        match behind_word(t, next, Keyword::When) {
            Some(behind) => to = behind,
            None => return Ok((found, next)),
        }
    }
}

// What stands behind ELSE, and END.
#[cycle(parser)]
fn read_else(
    alloc: Global,
    t: &[Token<'_>],
    at: usize,
) -> Result<(Option<Tree>, usize), Fail<Refused>>
    ensures { IsRead ElseEnd Anywhere t.now at result }
{
    match behind_word(t, at, Keyword::Else) {
        Some(behind) => {
            let (e, end) = read_whole(alloc, t, behind)?;
            let to = pass_word(t, end, Keyword::End)?;
            Ok((Some(e), to))
        }
        None => {
            let to = pass_word(t, at, Keyword::End)?;
            Ok((None, to))
        }
    }
}

// The places of a cell or a range, between square brackets.
#[cycle(parser)]
fn read_brackets(
    alloc: Global,
    t: &[Token<'_>],
    at: usize,
) -> Result<(Items<Place>, usize), Fail<Refused>>
    ensures { IsRead Brackets Anywhere t.now at result }
{
    let open = pass_sign(t, at, Symbol::OpenSquare)?;
    let (first, mid) = read_place(alloc, t, open)?;
    let (mut all, end) = read_places(alloc, t, mid)?;
    let to = pass_sign(t, end, Symbol::CloseSquare)?;
    put_before(&mut all, first)?;
    Ok((all, to))
}

#[cycle(parser)]
fn read_places(
    alloc: Global,
    t: &[Token<'_>],
    at: usize,
) -> Result<(Items<Place>, usize), Fail<Refused>>
    requires in_range { at ≤ length t.now }
    requires stops { Stops level.EXPRESSION (from t.now at) }
    ensures { IsRead MorePlaces (Ends (Terminal.Sign Symbol.Comma)) t.now at result }
{
    let mut found = Items::with_room(alloc, room(t, at));
    let mut to = at;
    while let Some(behind) = behind_sign(t, to, Symbol::Comma) {
        let (place, next) = read_place(alloc, t, behind)?;
        put(&mut found, place)?;
        to = next;
    }
    Ok((found, to))
}

#[cycle(parser)]
fn read_place(
    alloc: Global,
    t: &[Token<'_>],
    at: usize,
) -> Result<(Boxed<Place>, usize), Fail<Refused>>
    ensures { IsRead PlaceE (Stops level.EXPRESSION) t.now at result }
{
    match behind_word(t, at, Keyword::Any) {
        Some(to) => {
            settled(t, to, levels::EXPRESSION)?;
            Ok((any_place(alloc)?, to))
        }
        None => {
            let (e, to) = read_whole(alloc, t, at)?;
            Ok((place_of(alloc, e)?, to))
        }
    }
}
