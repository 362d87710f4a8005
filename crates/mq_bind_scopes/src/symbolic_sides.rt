//! Left sides that are symbolic, and where ORDER BY has a meaning on a left side (docs/LANGUAGE.md, "The order of binding").

ghost use Rattle.std.specs.Prelude.{◌≡◌, not, ◌||◌};
ghost use Rattle.std.specs.List.{list_any};
ghost use Rattle.mq_bind_scopes.specs.SymbolicSides as spec;

use mq_ir::{Left, LeftItem};

fn is_symbolic_item(item: &LeftItem) -> bool
    ensures { result ≡ spec.is_symbolic_item item.now }
{
    match item {
        LeftItem::Sym(_) => true,
        _ => false,
    }
}

fn any_symbolic(items: &[LeftItem]) -> bool
    ensures { result ≡ list_any spec.is_symbolic_item items.now }
{
    items.iter().any(|item| is_symbolic_item(item))
}

fn is_symbolic(left: &Left) -> bool
    ensures { result ≡ spec.is_symbolic left.now }
{
    match left {
        Left::Places(items) => any_symbolic(items.as_slice()),
        Left::Tuples(_, _) => false,
    }
}

/// ORDER BY on a left side wants a symbolic item, and no AUTOMATIC ORDER.
pub fn is_order_misused(auto: bool, left: &Left) -> bool
    ensures { result ≡ (auto || not (spec.is_symbolic left.now)) }
{
    auto || !is_symbolic(left)
}
