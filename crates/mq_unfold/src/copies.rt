//! Copies of places.
ghost use Rattle.std.specs.Prelude.{◌≡◌, [], ◌∷◌, ◌++◌, IfOk};

use mq_ir::SinglePlace;
use mq_values::{Items, Memory};
use std::alloc::Global;

/// The places of `front`, and `last` behind them.
pub fn longer(
    alloc: Global,
    front: &[SinglePlace],
    last: &SinglePlace,
) -> Result<Items<SinglePlace>, Memory>
    ensures { IfOk result (λ places. places ≡ front.now ++ last.now ∷ []) }
{
    let mut places = Items::new(alloc);
    for place in front {
        places.push(same_place(alloc, place)?)?;
    }
    places.push(same_place(alloc, last)?)?;
    Ok(places)
}

/// The same place once more.
pub fn same_place(alloc: Global, place: &SinglePlace) -> Result<SinglePlace, Memory>
    ensures { IfOk result (λ p. p ≡ place.now) }
{
    match place {
        SinglePlace::At(v) => Ok(SinglePlace::At(v.copy()?)),
        SinglePlace::Sym(test) => Ok(SinglePlace::Sym(test.copy(alloc)?)),
    }
}
