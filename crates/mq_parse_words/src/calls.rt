//! The functions that are called by a word of their own (docs/LANGUAGE.md, "Expressions").

ghost use Rattle.std.specs.Prelude.{◌≡◌};
ghost use Rattle.mq_ast.specs.Calls as spec;

use mq_ast::Keyword;
use mq_values::Func;

/// The function that a word calls, and how many expressions it takes; none where it calls none so.
pub(crate) fn call_of(word: Keyword) -> Option<(Func, usize)>
    ensures { result ≡ spec.call_of word }
{
    match word {
        Keyword::Abs => Some((Func::Abs, 1)),
        Keyword::Floor => Some((Func::Floor, 1)),
        Keyword::Length => Some((Func::Length, 1)),
        Keyword::Nvl => Some((Func::Nvl, 2)),
        _ => None,
    }
}
