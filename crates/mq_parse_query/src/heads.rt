//! The parts of a MODEL clause before its rules (docs/LANGUAGE.md, "The MODEL clause").

ghost use Rattle.std.specs.Prelude.{◌≡◌, ◌≢◌, ◌≤◌, ◌+◌, ◌∷◌, length, IfOk, MatchOption};
ghost use Rattle.std.proofs.Common.{arith};
ghost use Rattle.mq_ast.specs.declared.clauses.TheConstants as clause;
ghost use Rattle.mq_ast.specs.Prelude.{AutoE, AxesE, DimsE, HeadE, IterateE, MainE, Opens, OptE, PartsE, Past, RefE, RefSourceE};
ghost use Rattle.mq_ast.specs.Prelude.{ReturnE, RoundInt, UntilE, WhichE, Word, head_of, ref_of};
ghost use Rattle.mq_ast.specs.Laws.{opt_not_past, opt_same, ref_not_past, ref_past, ref_same};
ghost use Rattle.mq_parse_query.specs.Pieces.{AutoEnd, Iterates, Refers, Returns, Ruling, first_word, option_of as spec_option};
ghost use Rattle.mq_parse_query.specs.Pieces.{second_word as spec_second};
ghost use Rattle.mq_parse_words.specs.Reading.{Anywhere, IsRead, Then, from};
ghost use Rattle.mq_parse_query.specs.Lists as lists;

use crate::columns::read_cols;
use crate::heap::inner;
use crate::left::read_plain_end;
use crate::lists::{Repeated, read_many};
use crate::rules::{past, read_mode};
use mq_ast::parts::Head;
use mq_ast::{Keyword, Opt, Plain, RefTree, Sel, Symbol, Terminal, clauses};
use mq_lexer::Token;
use mq_parse_expr::read_round_tree;
use mq_parse_words::{Tree, behind_word, pass_sign, pass_word, read_int, read_name, terminal};
use mq_values::{Boxed, Fail, Items, Memory, Mode, Num, Refused, Words};
use std::alloc::Global;

// The option that begins with this word.
fn option_of(terminal: Terminal) -> Option<Opt>
    ensures { result ≡ spec_option terminal }
{
    match terminal {
        Terminal::Word(word) => match word {
            Keyword::Ignore => Some(Opt::IgnoreNav),
            Keyword::Keep => Some(Opt::KeepNav),
            Keyword::Unique => Some(Opt::UniqueDimension),
            _ => None,
        },
        _ => None,
    }
}

// The second word of an option.
fn second_word(opt: Opt) -> Keyword
    ensures { result ≡ spec_second opt }
{
    match opt {
        Opt::IgnoreNav | Opt::KeepNav => Keyword::Nav,
        Opt::UniqueDimension => Keyword::Dimension,
    }
}

// The option whose first word stands at a place.
fn option_at(t: &[Token<'_>], at: usize) -> Option<Opt>
    ensures { MatchOption result (Past clause.OPTION (from t.now at)) (λ o. Then (Word (first_word o)) t.now at (at + 1)) }
{
    option_of(terminal(t, at))
}

// The option at a place, and the place behind it, where one stands there.
fn next_option(
    alloc: Global,
    t: &[Token<'_>],
    at: usize,
) -> Result<Option<(Boxed<Opt>, usize)>, Fail<Refused>>
    ensures { lists.Turns OptE Anywhere (Past clause.OPTION) t.now at result }
{
    match option_at(t, at) {
        Some(opt) => {
            let to = pass_word(t, at + 1, second_word(opt))?;
            Ok(Some((Boxed::new(alloc, opt)?, to)))
        }
        None => Ok(None),
    }
}

impl Repeated for Opt {
    type Tree = Opt;

    ghost reads = { OptE };

    ghost stop = { Anywhere };

    ghost end = { Past clause.OPTION };

    fn next(
        alloc: Global,
        t: &[Token<'_>],
        at: usize,
    ) -> Result<Option<(Boxed<Opt>, usize)>, Fail<Refused>> {
        next_option(alloc, t, at)
    }

    ghost one = { opt_same };

    ghost end_stops = { λ ts s. tt };

    ghost next_stops = { λ a ts to d. tt };

    ghost none_at_end = { opt_not_past };
}

// ALL or UPDATED.
fn read_which(t: &[Token<'_>], at: usize) -> Result<(bool, usize), Fail<Refused>>
    ensures { IsRead WhichE Anywhere t.now at result }
{
    match behind_word(t, at, Keyword::All) {
        Some(to) => Ok((false, to)),
        None => {
            let to = pass_word(t, at, Keyword::Updated)?;
            Ok((true, to))
        }
    }
}

// RETURN, behind it.
fn read_rows(t: &[Token<'_>], at: usize) -> Result<(bool, usize), Fail<Refused>>
    ensures { IsRead Returns (Past clause.RETURN) t.now at result }
{
    let (updated, end) = read_which(t, at)?;
    let to = pass_word(t, end, Keyword::Rows)?;
    past(t, to, clauses::RETURN)?;
    Ok((updated, to))
}

/// RETURN, where it stands there, and whether UPDATED stands in it.
pub(crate) fn read_return(t: &[Token<'_>], at: usize) -> Result<(bool, usize), Fail<Refused>>
    requires { at ≤ length t.now }
    ensures { IsRead ReturnE (Past clause.RETURN) t.now at result }
{
    match behind_word(t, at, Keyword::Return) {
        Some(behind) => read_rows(t, behind),
        None => {
            past(t, at, clauses::RETURN)?;
            Ok((false, at))
        }
    }
}

// The name of a REFERENCE, and its query between brackets behind ON.
fn read_source(
    alloc: Global,
    t: &[Token<'_>],
    at: usize,
) -> Result<((Words, Boxed<Plain>), usize), Fail<Refused>>
    ensures { IsRead RefSourceE Anywhere t.now at result }
{
    let (name, end) = read_name(alloc, t, at)?;
    let on = pass_word(t, end, Keyword::On)?;
    let open = pass_sign(t, on, Symbol::Open)?;
    let (plain, to) = read_plain_end(alloc, t, open)?;
    Ok(((name, plain), to))
}

// DIMENSION BY with its columns, and MEASURES.
fn read_dims(
    alloc: Global,
    t: &[Token<'_>],
    at: usize,
) -> Result<(Items<Sel>, usize), Fail<Refused>>
    ensures { IsRead DimsE Anywhere t.now at result }
{
    let dimension = pass_word(t, at, Keyword::Dimension)?;
    let by = pass_word(t, dimension, Keyword::By)?;
    let (dims, end) = read_cols(alloc, t, by)?;
    let to = pass_word(t, end, Keyword::Measures)?;
    Ok((dims, to))
}

/// DIMENSION BY and MEASURES, with their columns.
pub(crate) fn read_axes(
    alloc: Global,
    t: &[Token<'_>],
    at: usize,
) -> Result<((Items<Sel>, Items<Sel>), usize), Fail<Refused>>
    ensures { IsRead AxesE Anywhere t.now at result }
{
    let (dims, mid) = read_dims(alloc, t, at)?;
    let (measures, to) = read_cols(alloc, t, mid)?;
    Ok(((dims, measures), to))
}

fn ref_tree(
    alloc: Global,
    source: (Words, Boxed<Plain>),
    axes: (Items<Sel>, Items<Sel>),
    opts: Items<Opt>,
) -> Result<Boxed<RefTree>, Memory>
    ensures { IfOk result (λ r. r ≡ ref_of source axes opts) }
{
    let (name, query) = source;
    let (dims, measures) = axes;
    Boxed::new(
        alloc,
        RefTree {
            name,
            query: query.into_inner(),
            dims,
            measures,
            opts,
        },
    )
}

// A REFERENCE, behind its word.
fn read_ref(
    alloc: Global,
    t: &[Token<'_>],
    at: usize,
) -> Result<(Boxed<RefTree>, usize), Fail<Refused>>
    ensures { IsRead Refers (Past clause.OPTION) t.now at result }
{
    let (source, mid) = read_source(alloc, t, at)?;
    let (axes, next) = read_axes(alloc, t, mid)?;
    let (opts, to) = read_many::<Opt>(alloc, t, next)?;
    Ok((ref_tree(alloc, source, axes, opts)?, to))
}

// The reference at a place, and the place behind it, where one stands there.
fn next_ref(
    alloc: Global,
    t: &[Token<'_>],
    at: usize,
) -> Result<Option<(Boxed<RefTree>, usize)>, Fail<Refused>>
    ensures { lists.Turns RefE (Past clause.OPTION) (Past clause.REFERENCE) t.now at result }
{
    match behind_word(t, at, Keyword::Reference) {
        Some(behind) => {
            let (found, to) = read_ref(alloc, t, behind)?;
            Ok(Some((found, to)))
        }
        None => {
            past(t, at, clauses::REFERENCE)?;
            Ok(None)
        }
    }
}

impl Repeated for RefTree {
    type Tree = RefTree;

    ghost reads = { RefE };

    ghost stop = { Past clause.OPTION };

    ghost end = { Past clause.REFERENCE };

    fn next(
        alloc: Global,
        t: &[Token<'_>],
        at: usize,
    ) -> Result<Option<(Boxed<RefTree>, usize)>, Fail<Refused>> {
        next_ref(alloc, t, at)
    }

    ghost one = { ref_same };

    ghost end_stops = { λ ts s. Prim.omega arith };

    ghost next_stops = { ref_past };

    ghost none_at_end = { ref_not_past };
}

/// The name behind MAIN, where it stands there.
pub(crate) fn read_main(
    alloc: Global,
    t: &[Token<'_>],
    at: usize,
) -> Result<(Option<Words>, usize), Fail<Refused>>
    requires { at ≤ length t.now }
    ensures { IsRead MainE (Past clause.MAIN) t.now at result }
{
    match behind_word(t, at, Keyword::Main) {
        Some(behind) => {
            let (name, to) = read_name(alloc, t, behind)?;
            past(t, to, clauses::MAIN)?;
            Ok((Some(name), to))
        }
        None => {
            past(t, at, clauses::MAIN)?;
            Ok((None, at))
        }
    }
}

/// The columns of PARTITION BY, where it stands there.
pub(crate) fn read_parts(
    alloc: Global,
    t: &[Token<'_>],
    at: usize,
) -> Result<(Items<Sel>, usize), Fail<Refused>>
    requires { at ≤ length t.now }
    ensures { IsRead PartsE (Past clause.PARTITION) t.now at result }
{
    match behind_word(t, at, Keyword::Partition) {
        Some(partition) => {
            let by = pass_word(t, partition, Keyword::By)?;
            let (parts, to) = read_cols(alloc, t, by)?;
            past(t, to, clauses::PARTITION)?;
            Ok((parts, to))
        }
        None => {
            past(t, at, clauses::PARTITION)?;
            Ok((Items::new(alloc), at))
        }
    }
}

// ORDER, behind AUTOMATIC or SEQUENTIAL.
fn read_auto_end(t: &[Token<'_>], at: usize, auto: bool) -> Result<(bool, usize), Fail<Refused>>
    ensures { IsRead (AutoEnd auto) (Past clause.ORDER) t.now at result }
{
    let to = pass_word(t, at, Keyword::Order)?;
    past(t, to, clauses::ORDER)?;
    Ok((auto, to))
}

// The order of the rules, where it stands there: whether it is AUTOMATIC.
fn read_auto(t: &[Token<'_>], at: usize) -> Result<(bool, usize), Fail<Refused>>
    requires { at ≤ length t.now }
    ensures { IsRead AutoE (Past clause.ORDER) t.now at result }
{
    if let Some(behind) = behind_word(t, at, Keyword::Automatic) {
        return read_auto_end(t, behind, true);
    }
    match behind_word(t, at, Keyword::Sequential) {
        Some(behind) => read_auto_end(t, behind, false),
        None => {
            past(t, at, clauses::ORDER)?;
            Ok((false, at))
        }
    }
}

// The condition of UNTIL, where it stands there.
fn read_until(
    alloc: Global,
    t: &[Token<'_>],
    at: usize,
) -> Result<(Option<Tree>, usize), Fail<Refused>>
    requires { at ≤ length t.now }
    ensures { IsRead UntilE (Past clause.UNTIL) t.now at result }
{
    match behind_word(t, at, Keyword::Until) {
        Some(behind) => {
            let (e, to) = read_round_tree(alloc, t, behind)?;
            past(t, to, clauses::UNTIL)?;
            Ok((Some(e), to))
        }
        None => {
            past(t, at, clauses::UNTIL)?;
            Ok((None, at))
        }
    }
}

// A number without a point between brackets.
fn read_round_int(t: &[Token<'_>], at: usize) -> Result<(Num, usize), Fail<Refused>>
    ensures { IsRead RoundInt Anywhere t.now at result }
{
    let open = pass_sign(t, at, Symbol::Open)?;
    let (number, end) = read_int(t, open)?;
    let to = pass_sign(t, end, Symbol::Close)?;
    Ok((number, to))
}

// ITERATE, behind it.
fn read_turns(
    alloc: Global,
    t: &[Token<'_>],
    at: usize,
) -> Result<((Option<Num>, Option<Tree>), usize), Fail<Refused>>
    ensures { IsRead Iterates (Past clause.UNTIL) t.now at result }
{
    let (number, mid) = read_round_int(t, at)?;
    let (until, to) = read_until(alloc, t, mid)?;
    Ok(((Some(number), until), to))
}

// ITERATE with its UNTIL, where it stands there.
fn read_iterate(
    alloc: Global,
    t: &[Token<'_>],
    at: usize,
) -> Result<((Option<Num>, Option<Tree>), usize), Fail<Refused>>
    requires { at ≤ length t.now }
    ensures { IsRead IterateE (Past clause.UNTIL) t.now at result }
{
    match behind_word(t, at, Keyword::Iterate) {
        Some(behind) => read_turns(alloc, t, behind),
        None => {
            past(t, at, clauses::UNTIL)?;
            Ok(((None, None), at))
        }
    }
}

fn head_from(
    alloc: Global,
    mode: Option<Mode>,
    auto: bool,
    iterate: (Option<Num>, Option<Tree>),
) -> Result<Boxed<Head>, Memory>
    ensures { IfOk result (λ h. h ≡ head_of mode auto iterate) }
{
    let (iterate, until) = iterate;
    let until = inner(until);
    Boxed::new(
        alloc,
        Head {
            mode,
            auto,
            iterate,
            until,
        },
    )
}

// RULES, behind it.
fn read_ruling(
    alloc: Global,
    t: &[Token<'_>],
    at: usize,
) -> Result<(Boxed<Head>, usize), Fail<Refused>>
    requires { at ≤ length t.now }
    ensures { IsRead Ruling Opens t.now at result }
{
    let (mode, mid) = read_mode(t, at)?;
    let (auto, next) = read_auto(t, mid)?;
    let (iterate, to) = read_iterate(alloc, t, next)?;
    pass_sign(t, to, Symbol::Open)?;
    Ok((head_from(alloc, mode, auto, iterate)?, to))
}

/// RULES, where it stands there, up to the opening bracket of the rules.
pub(crate) fn read_head(
    alloc: Global,
    t: &[Token<'_>],
    at: usize,
) -> Result<(Boxed<Head>, usize), Fail<Refused>>
    requires { at ≤ length t.now }
    ensures { IsRead HeadE Opens t.now at result }
{
    match behind_word(t, at, Keyword::Rules) {
        Some(behind) => read_ruling(alloc, t, behind),
        None => {
            pass_sign(t, at, Symbol::Open)?;
            Ok((head_from(alloc, None, false, (None, None))?, at))
        }
    }
}
