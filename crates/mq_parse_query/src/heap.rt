//! Trees on the heap, as readers hand them on: each is moved as one word, and proofs see a value in place of its variants.
//! They are taken off it where a tree above holds them itself.

ghost use Rattle.std.specs.Prelude.{◌≡◌};

use mq_values::{Boxed, Fail, Refused};

/// What a reader gave, off the heap.
pub(crate) fn opened<T: Drop>(
    read: Result<(Boxed<T>, usize), Fail<Refused>>,
) -> Result<(T, usize), Fail<Refused>>
    ensures { result ≡ read }
{
    match read {
        Ok((tree, to)) => Ok((tree.into_inner(), to)),
        Err(fault) => Err(fault),
    }
}

/// What a reader of a part that may be missing gave, off the heap.
pub(crate) fn opened_choice<T: Drop>(
    read: Result<(Option<Boxed<T>>, usize), Fail<Refused>>,
) -> Result<(Option<T>, usize), Fail<Refused>>
    ensures { result ≡ read }
{
    match read {
        Ok((tree, to)) => Ok((inner(tree), to)),
        Err(fault) => Err(fault),
    }
}

/// What may stand on the heap, off it.
pub(crate) fn inner<T: Drop>(tree: Option<Boxed<T>>) -> Option<T>
    ensures { result ≡ tree }
{
    match tree {
        Some(tree) => Some(tree.into_inner()),
        None => None,
    }
}
