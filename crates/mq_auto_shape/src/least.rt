//! The least of a list.
ghost use Rattle.std.specs.Prelude.{◌≡◌, Some};
ghost use Rattle.std.specs.Option.{option_copied};
ghost use Rattle.mq_ir.specs.Shape.{least_of};
ghost use Rattle.mq_auto_shape.specs.Walk.{sooner_of};

/// The least of these, the first of those that are alike; `None` where there are none.
pub fn least<T: Ord>(items: &[T]) -> Option<&T>
    ensures { option_copied result ≡ least_of T.cmp items.now }
{
    let mut least: Option<&T> = None;
    let mut at = items.len();
    // From the last to the first: of those that are alike the first is kept.
    'looking: while at > 0 {
        at -= 1;
        least = sooner(&items[at], least);
    }
    least
}

// The one that is less: `one`, where they are alike or there is no other.
fn sooner<'a, T: Ord>(one: &'a T, other: Option<&'a T>) -> Option<&'a T>
    ensures { option_copied result ≡ Some (sooner_of T.cmp one.now (option_copied other.entry)) }
{
    match other {
        Some(other) if one.cmp(other).is_gt() => Some(other),
        _ => Some(one),
    }
}
