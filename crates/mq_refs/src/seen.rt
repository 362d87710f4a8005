//! The values that were seen at the looks of a right side.
ghost use Rattle.std.specs.Prelude.{◌≡◌, ◌<◌, true, length, drop, slice_index_or, None, Ok, IfOk, IfSome};
ghost use Rattle.mq_values.specs.declared.value.Value.TheVariants.{Null};
ghost use Rattle.mq_cells.specs.Stores as stores;
ghost use Rattle.mq_cells.specs.Stores.{cell_name};
ghost use Rattle.mq_refs.specs.Sightings.{AreSteady, value_seen};
ghost use Rattle.mq_refs.specs.Sites.{site_of, value_named};
ghost use Rattle.mq_refs.specs.declared.sighting.Sighting.{Sighting as OneSighting};

use crate::names::names_at_once;
use crate::sighting::Sighting;
use crate::standpoint::Standpoint;
use crate::worths::Worths;
use mq_ir::{CellName, Expr};
use mq_values::{Items, Memory, Value};
use std::marker::Model;

/// What was seen at the looks of a right side. Contracts see it as the list of its sightings.
/// References are read mostly in the order of their looks, so each search begins behind the last one's find.
#[derive(Drop)]
pub struct Seen {
    sightings: Items<Sighting>,
    next: usize,
}

impl Model for Seen {
    ghost use Rattle.std.specs.Prelude.{List};
    ghost use Rattle.mq_refs.specs.Sightings.{AreSteady};
    ghost use Rattle.mq_refs.specs.declared.sighting.Sighting.{Sighting as OneSighting};

    ghost Value = { List OneSighting };

    ghost view = { λ seen. seen.sightings };

    ghost invariant = { λ seen. AreSteady seen.sightings };
}

impl Seen {
    /// These sightings, each of which saw the same as others of its measure.
    pub fn new(sightings: Items<Sighting>) -> Seen
        requires { AreSteady sightings }
        ensures { result ≡ sightings }
    {
        Seen { sightings, next: 0 }
    }
}

impl Worths for Seen {
    ghost worth = { value_seen };

    // What the sighting behind the last one's find saw, where it is told at once to be of that measure. It is for a
    // reference in its turn: its indices were evaluated for its look.
    fn next_value(
        &mut self,
        at: &Standpoint<'_>,
        measure: u32,
        indices: &[Expr],
    ) -> Result<Option<Value>, Memory> {
        let sightings = self.sightings.as_slice();
        match seen_next(sightings, self.next, at, measure, indices) {
            Some(value) => {
                let v = value.copy()?;
                self.next += 1;
                Ok(Some(v))
            }
            None => Ok(None),
        }
    }

    fn value_at(&mut self, _place: u32, key: &[Value], measure: u32) -> Result<Value, Memory> {
        self.value(key, measure)
    }

    // What was seen there, or null.
    fn value(&mut self, key: &[Value], measure: u32) -> Result<Value, Memory> {
        let sightings = self.sightings.as_slice();
        match place_of(sightings, self.next, key, measure) {
            Some(at) => {
                let v = sightings[at].value.copy()?;
                self.next = at + 1;
                Ok(v)
            }
            None => Ok(Value::Null),
        }
    }
}

// What was seen at place `next`, where this is told at once to be the measure of the cell that `indices` name.
fn seen_next<'a>(
    sightings: &'a [Sighting],
    next: usize,
    at: &Standpoint<'_>,
    measure: u32,
    indices: &[Expr],
) -> Option<&'a Value>
    requires { AreSteady sightings.now }
    ensures exact { IfSome result (λ v. value_named (site_of at.now) (value_seen sightings.now) measure indices.now ≡ Ok v.now) }
    ensures place { IfSome result (λ v. next < length sightings.now) }
{
    if next >= sightings.len() {
        return None;
    }
    let sighting = &sightings[next];
    let dims = at.model.part.dims.as_slice();
    let key = sighting.name.key.as_slice();
    if sighting.name.measure == measure && names_at_once(at, dims, indices, key) {
        Some(&sighting.value)
    } else {
        None
    }
}

// The place of a sighting of a measure: the first from `from` on, else the first of all, or `None` where there is none.
fn place_of(sightings: &[Sighting], from: usize, key: &[Value], measure: u32) -> Option<usize>
    ensures found { IfSome result (λ at. at < length sightings.now) }
    ensures named { (other : OneSighting) →
        IfSome result (λ at. stores.is_named (slice_index_or sightings.now at other).name (cell_name key.now measure) ≡ true) }
    ensures none { result ≡ None → value_seen sightings.now (cell_name key.now measure) ≡ Null }
{
    match place_from(sightings, from, key, measure) {
        Some(at) => Some(at),
        None => place_from(sightings, 0, key, measure),
    }
}

// The place of the first sighting of a measure from `from` on, or `None` where there is none.
fn place_from(sightings: &[Sighting], from: usize, key: &[Value], measure: u32) -> Option<usize>
    ensures found { IfSome result (λ at. at < length sightings.now) }
    ensures named { (other : OneSighting) →
        IfSome result (λ at. stores.is_named (slice_index_or sightings.now at other).name (cell_name key.now measure) ≡ true) }
    ensures none { result ≡ None → value_seen (drop from sightings.now) (cell_name key.now measure) ≡ Null }
{
    for at in from..sightings.len() {
        if is_named(&sightings[at].name, key, measure) {
            return Some(at);
        }
    }
    None
}

// Whether this is the name of a measure of the cell at `key`.
fn is_named(name: &CellName, key: &[Value], measure: u32) -> bool
    ensures { result ≡ stores.is_named name.now (cell_name key.now measure) }
{
    name.key.as_slice().cmp(key).is_eq() && name.measure == measure
}
