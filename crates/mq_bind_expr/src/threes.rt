//! A list of three.

ghost use Rattle.std.specs.Prelude.{◌≡◌, ◌≢◌, ◌∷◌, [], length, MatchOption};

use mq_values::Items;

/// The items of a list of three.
#[derive(Drop)]
pub struct Three<T> {
    pub first: T,
    pub second: T,
    pub third: T,
}

/// The items of a list, where they are three.
pub fn as_three<T: Drop>(items: Items<T>) -> Option<Three<T>>
    ensures { MatchOption result (length items ≢ 3) (λ t. items ≡ t.first ∷ t.second ∷ t.third ∷ []) }
{
    if items.len() != 3 {
        return None;
    }
    let mut items = items.into_vec();
    let Some(third) = items.pop() else {
        return None;
    };
    let Some(second) = items.pop() else {
        return None;
    };
    let Some(first) = items.pop() else {
        return None;
    };
    Some(Three {
        first,
        second,
        third,
    })
}
