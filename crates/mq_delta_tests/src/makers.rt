//! Values, short lists, and boxes. A tree is let go at each way out of a function that holds one, and each such place is proved
//! form by form: so what is made goes into a box or a list by these, which hold anything.
ghost use Rattle.std.specs.Prelude.{◌≡◌, [], ◌∷◌, Ok, IfOk};

use mq_values::{Boxed, Items, Memory, Num, Value};
use std::alloc::Global;

pub fn value(number: i128) -> Value {
    Value::Num(Num::new(number, 0))
}

pub fn one<T: Drop>(alloc: Global, item: T) -> Result<Items<T>, Memory>
    ensures { IfOk result (λ items. items ≡ item ∷ []) }
{
    let mut items = Items::new(alloc);
    items.push(item)?;
    Ok(items)
}

pub fn two<T: Drop>(alloc: Global, first: T, second: T) -> Result<Items<T>, Memory>
    ensures { IfOk result (λ items. items ≡ first ∷ second ∷ []) }
{
    let mut both = one(alloc, first)?;
    both.push(second)?;
    Ok(both)
}

/// Puts what was made behind these.
pub fn add<T: Drop>(items: &mut Items<T>, made: Result<T, Memory>) -> Result<(), Memory> {
    items.push(made?)
}

/// What was made, in a box.
pub fn boxed<T: Drop>(alloc: Global, made: Result<T, Memory>) -> Result<Boxed<T>, Memory>
    ensures { IfOk result (λ item. made ≡ Ok item) }
{
    Boxed::new(alloc, made?)
}

/// Two boxes.
pub fn boxes<A: Drop, B: Drop>(
    alloc: Global,
    first: A,
    second: B,
) -> Result<(Boxed<A>, Boxed<B>), Memory>
    ensures { IfOk result (λ boxes. (boxes.0 ≡ first) × (boxes.1 ≡ second)) }
{
    let first = Boxed::new(alloc, first)?;
    let second = Boxed::new(alloc, second)?;
    Ok((first, second))
}

/// A box, and a list of one item.
pub fn box_and_one<A: Drop, B: Drop>(
    alloc: Global,
    first: A,
    second: B,
) -> Result<(Boxed<A>, Items<B>), Memory> {
    let first = Boxed::new(alloc, first)?;
    let second = one(alloc, second)?;
    Ok((first, second))
}

/// Both that were made.
pub fn both<A: Drop, B: Drop>(
    first: Result<A, Memory>,
    second: Result<B, Memory>,
) -> Result<(A, B), Memory> {
    let first = first?;
    let second = second?;
    Ok((first, second))
}
