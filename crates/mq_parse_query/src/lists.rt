//! Parts that stand one or more times, with commas between them, or one behind the other.

ghost use Rattle.std.specs.Prelude.{◌≡◌, ◌<◌, ◌≤◌, ℕ, List, ◌∷◌, length};
ghost use Rattle.mq_ast.specs.Prelude.{EndsList, ManyOf, MoreOf, OneTree, SomeOf, Tok, comma};
ghost use Rattle.mq_parse_query.specs.Lists.{Turns};
ghost use Rattle.mq_parse_words.specs.Reading.{IsRead, from};

use mq_ast::Symbol;
use mq_lexer::Token;
use mq_parse_words::{behind_sign, put};
use mq_values::{Boxed, Fail, Items, Refused};
use std::alloc::Global;

/// A part of which lists with commas are made.
pub trait Listed {
    /// Its tree.
    type Tree: Drop;

    /// Which tree reads which tokens.
    ghost reads: { Self.Tree → List Tok → List Tok → Type 0 };

    /// Where a part ends.
    ghost stop: { List Tok → Type 0 };

    /// The tree that reads the tokens from a place on, and the place behind it. SYNTAX where there is none, also behind the
    /// last token.
    fn read(alloc: Global, t: &[Token<'_>], at: usize) -> Result<(Self::Tree, usize), Fail<Refused>>
        ensures { IsRead reads stop t.now at result };

    /// A part reads tokens in one way only.
    ghost one: { OneTree reads stop };

    /// It may end before a comma.
    ghost before_comma: { (ts : List Tok) → stop (comma ∷ ts) };
}

/// One part or more, with commas between them, up to a place where no comma stands. SYNTAX exactly where there are none,
/// also behind the last token.
pub fn read_list<P: Listed>(
    alloc: Global,
    t: &[Token<'_>],
    at: usize,
) -> Result<(Items<P::Tree>, usize), Fail<Refused>>
    ensures { IsRead (SomeOf P.reads) (EndsList P.stop) t.now at result }
{
    let (first, mid) = P::read(alloc, t, at)?;
    let (mut all, to) = read_more::<P>(alloc, t, mid)?;
    all.put_first(first)?;
    Ok((all, to))
}

// The parts behind the first.
fn read_more<P: Listed>(
    alloc: Global,
    t: &[Token<'_>],
    at: usize,
) -> Result<(Items<P::Tree>, usize), Fail<Refused>>
    requires in_range { at ≤ length t.now }
    requires stops { P.stop (from t.now at) }
    ensures { IsRead (MoreOf P.reads) (EndsList P.stop) t.now at result }
{
    let mut found = Items::new(alloc);
    let mut to = at;
    while let Some(behind) = behind_sign(t, to, Symbol::Comma) {
        let (part, next) = P::read(alloc, t, behind)?;
        found.push(part)?;
        to = next;
    }
    Ok((found, to))
}

/// A part that may stand any number of times, one behind the other.
pub(crate) trait Repeated {
    /// Its tree.
    type Tree: Drop;

    /// Which tree reads which tokens.
    ghost reads: { Self.Tree → List Tok → List Tok → Type 0 };

    /// Where a part ends.
    ghost stop: { List Tok → Type 0 };

    /// Where the last of them ends.
    ghost end: { List Tok → Type 0 };

    /// The part that begins at a place, on the heap, and the place behind it; none where the last one has ended.
    fn next(
        alloc: Global,
        t: &[Token<'_>],
        at: usize,
    ) -> Result<Option<(Boxed<Self::Tree>, usize)>, Fail<Refused>>
        requires { at ≤ length t.now }
        ensures { Turns reads stop end t.now at result };

    /// A part reads tokens in one way only.
    ghost one: { OneTree reads stop };

    /// Where the last one ends, a part ends.
    ghost end_stops: { (ts : List Tok) → end ts → stop ts };

    /// A part may end where another begins.
    ghost next_stops: { (a : Self.Tree) (ts to : List Tok) → reads a ts to → stop ts };

    /// Where the last one ends, no other begins.
    ghost none_at_end: { (a : Self.Tree) (ts to : List Tok) → end ts → reads a ts to → ⊥ };
}

/// Parts one behind the other, up to a place where no other begins.
pub(crate) fn read_many<P: Repeated>(
    alloc: Global,
    t: &[Token<'_>],
    at: usize,
) -> Result<(Items<P::Tree>, usize), Fail<Refused>>
    requires { at ≤ length t.now }
    ensures { IsRead (ManyOf P.reads) P.end t.now at result }
{
    let mut found = Items::new(alloc);
    let mut to = at;
    while let Some((part, next)) = P::next(alloc, t, to)? {
        put(&mut found, part)?;
        to = next;
    }
    Ok((found, to))
}
