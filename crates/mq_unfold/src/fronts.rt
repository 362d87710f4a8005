//! One place of each spread, in every way.
ghost use Rattle.std.specs.Prelude.{◌≡◌, [], ◌∷◌, ◌++◌, map, IfOk, OnOk};
ghost use Rattle.std.specs.List.{flat_map};
ghost use Rattle.mq_ir.specs.Combinations.{combinations};
ghost use Rattle.mq_unfold.specs.Spreads.{form_places};

use crate::copies::{longer, same_place};
use crate::forms::{Form, Spread};
use mq_ir::{SinglePlace, last_list_turns_fastest};
use mq_values::{Items, Memory};
use std::alloc::Global;

/// The places of all single left sides; the first spread turns slowest.
pub fn combined(alloc: Global, spreads: Items<Spread>) -> Result<Items<Items<SinglePlace>>, Memory>
    ensures { IfOk result (λ rows. rows ≡ combinations spreads) }
{
    last_list_turns_fastest();
    let mut fronts = Items::new(alloc);
    fronts.push(Items::new(alloc))?;
    for spread in spreads.into_vec() {
        fronts = followed(alloc, fronts, spread.into_form())?;
    }
    Ok(fronts)
}

// Each of the fronts with each of these places behind it.
fn followed(
    alloc: Global,
    fronts: Items<Items<SinglePlace>>,
    form: Form,
) -> Result<Items<Items<SinglePlace>>, Memory>
    ensures { IfOk result (λ rows. rows ≡ flat_map (λ front. map (λ x. front ++ x ∷ []) (form_places form)) fronts) }
{
    match form {
        Form::One(place) => with_one(alloc, fronts, &place),
        Form::Listed(places) => with_each(alloc, fronts.as_slice(), places.as_slice()),
        Form::Stepped(steps) => {
            let places = steps.places(alloc)?;
            with_each(alloc, fronts.as_slice(), places.as_slice())
        }
    }
}

// Each of the fronts with this place behind it. The fronts themselves grow.
fn with_one(
    alloc: Global,
    fronts: Items<Items<SinglePlace>>,
    place: &SinglePlace,
) -> Result<Items<Items<SinglePlace>>, Memory>
    ensures { IfOk result (λ rows. rows ≡ flat_map (λ front. map (λ x. front ++ x ∷ []) (place.now ∷ [])) fronts) }
{
    let mut rows = Items::with_room(alloc, fronts.len());
    for front in fronts.into_vec() {
        let mut row = front;
        row.push(same_place(alloc, place)?)?;
        rows.push(row)?;
    }
    Ok(rows)
}

// Each of the fronts with each of the places behind it.
fn with_each(
    alloc: Global,
    fronts: &[Items<SinglePlace>],
    places: &[SinglePlace],
) -> Result<Items<Items<SinglePlace>>, Memory>
    ensures { IfOk result (λ rows. rows ≡ flat_map (λ front. map (λ x. front ++ x ∷ []) places.now) fronts.now) }
{
    let mut rows = Items::new(alloc);
    for front in fronts {
        push_each(alloc, front.as_slice(), places, &mut rows)?;
    }
    Ok(rows)
}

// Puts behind `rows` the front with each of the places behind it.
fn push_each(
    alloc: Global,
    front: &[SinglePlace],
    places: &[SinglePlace],
    rows: &mut Items<Items<SinglePlace>>,
) -> Result<(), Memory>
    ensures { OnOk result (rows.new ≡ rows.old ++ map (λ x. front.now ++ x ∷ []) places.now) }
{
    for place in places {
        rows.push(longer(alloc, front, place)?)?;
    }
    Ok(())
}
