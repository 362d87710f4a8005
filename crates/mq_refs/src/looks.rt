//! What a right side looks at.
ghost use Rattle.std.specs.Prelude.{◌≡◌, ◌++◌, IfOk, OnOk};
ghost use Rattle.std.specs.List.{filter};
ghost use Rattle.mq_ir.specs.Looks as spec;
ghost use Rattle.mq_ir.specs.Looks.{leaf_looks, look_at, looks_at, looks_named};
ghost use Rattle.mq_ir.specs.Reads.{cell_named, range_named};
ghost use Rattle.mq_ir.specs.Slots.{site_in};
ghost use Rattle.mq_ir.specs.Targets.{meets_every};
ghost use Rattle.mq_ir.specs.Unfolding.{model_of};
ghost use Rattle.mq_refs.specs.LookLists.{presence_at};
ghost use Rattle.mq_refs.specs.Sites.{site_of, site_over, site_with};

use crate::cell_keys::CellKeys;
use crate::names::{key_named, tests_named};
use crate::standpoint::Standpoint;
use crate::walk::{LeafVisitor, push_looks};
use mq_ir::{CellName, Expr, Leaf, Look, Model, PartShape, Rule, Test};
use mq_values::{DimTest, Fail, Items, Key, Memory};
use std::alloc::Global;

/// What the right side of a rule looks at where `target` is assigned, in the order of its references, those of untaken
/// branches included. A reference whose index or operand faults looks at nothing (docs/MEANING.md, "Looks"). `Memory`
/// is the only error.
pub fn looks_of(
    alloc: Global,
    r: &Rule,
    m: &Model<'_>,
    target: &Key,
    turn: u32,
    s: &PartShape,
) -> Result<Items<Look>, Memory>
    ensures { IfOk result (λ looks. looks ≡ spec.looks_of (site_in (model_of m.now) s.now turn target.now) r.now.right) }
{
    looks_over(alloc, r, m, target, turn, s)
}

/// The same as `looks_of`, over the cells that `keys` has. The cells of a range are found as `keys` finds them.
pub fn looks_over<K: CellKeys>(
    alloc: Global,
    r: &Rule,
    m: &Model<'_>,
    target: &Key,
    turn: u32,
    keys: &K,
) -> Result<Items<Look>, Memory>
    ensures { IfOk result (λ looks. looks ≡ spec.looks_of (site_with (model_of m.now) turn target.now (K.set keys.now)) r.now.right) }
{
    let at = Standpoint {
        model: m,
        target,
        turn,
    };
    looks_from(alloc, &at, keys, &r.right)
}

/// The looks of `e` where it stands.
pub fn looks_from<K: CellKeys>(
    alloc: Global,
    at: &Standpoint<'_>,
    keys: &K,
    e: &Expr,
) -> Result<Items<Look>, Memory>
    ensures { IfOk result (λ looks. looks ≡ spec.looks_of (site_over at.now (K.set keys.now)) e.now) }
{
    let mut looks = Items::new(alloc);
    push_looks(alloc, &AllLooks { at, keys }, e, &mut looks)?;
    Ok(looks)
}

// All looks of leaves, as a list.
#[derive(Drop)]
struct AllLooks<'a, K: CellKeys> {
    at: &'a Standpoint<'a>,
    keys: &'a K,
}

impl<K: CellKeys> LeafVisitor for AllLooks<'_, K> {
    type Found = Items<Look>;

    ghost looks = { λ all. leaf_looks (site_over all.at.now (K.set all.keys.now)) };

    ghost shown = { λ all looks. looks };

    ghost is_sound = { λ all looks. Unit {0} };

    fn visit(&self, alloc: Global, leaf: &Leaf, found: &mut Items<Look>) -> Result<(), Memory> {
        push_leaf(alloc, self.at, self.keys, leaf, found)
    }
}

// Puts the looks of a leaf behind `looks`.
fn push_leaf<K: CellKeys>(
    alloc: Global,
    at: &Standpoint<'_>,
    keys: &K,
    leaf: &Leaf,
    looks: &mut Items<Look>,
) -> Result<(), Memory>
    ensures { OnOk result (looks.new ≡ looks.old ++ leaf_looks (site_over at.now (K.set keys.now)) leaf.now) }
{
    match leaf {
        Leaf::Cell(measure, indices) | Leaf::NotNull(measure, indices) => {
            push_measure(alloc, at, *measure, indices.as_slice(), looks)
        }
        Leaf::Range(_, measure, places) => {
            push_range(alloc, at, keys, *measure, places.as_slice(), looks)
        }
        Leaf::Present(indices) => push_presence(alloc, at, indices.as_slice(), looks),
        _ => Ok(()),
    }
}

// The measure of a single cell.
fn push_measure(
    alloc: Global,
    at: &Standpoint<'_>,
    measure: u32,
    indices: &[Expr],
    looks: &mut Items<Look>,
) -> Result<(), Memory>
    ensures { OnOk result (looks.new ≡ looks.old ++ looks_named (look_at measure)
        (cell_named (site_of at.now) at.now.model.now.part.now.dims indices.now)) }
{
    match key_named(alloc, at, indices)? {
        Some(key) => looks.push(Look::Measure(CellName { key, measure })),
        None => Ok(()),
    }
}

// Whether a single cell is in the input.
fn push_presence(
    alloc: Global,
    at: &Standpoint<'_>,
    indices: &[Expr],
    looks: &mut Items<Look>,
) -> Result<(), Memory>
    ensures { OnOk result (looks.new ≡ looks.old ++ looks_named presence_at
        (cell_named (site_of at.now) at.now.model.now.part.now.dims indices.now)) }
{
    match key_named(alloc, at, indices)? {
        Some(key) => looks.push(Look::Presence(key)),
        None => Ok(()),
    }
}

// The measures of the cells of a range.
fn push_range<K: CellKeys>(
    alloc: Global,
    at: &Standpoint<'_>,
    keys: &K,
    measure: u32,
    places: &[Test],
    looks: &mut Items<Look>,
) -> Result<(), Memory>
    ensures { OnOk result (looks.new ≡ looks.old
        ++ looks_named (looks_at measure) (range_named (site_over at.now (K.set keys.now)) places.now)) }
{
    match tests_named(alloc, at, at.model.part.dims.as_slice(), places) {
        Ok(tests) => push_cells(alloc, measure, tests.as_slice(), keys, looks),
        Err(Fail::Cause(_)) => Ok(()),
        Err(Fail::Memory) => Err(Memory),
    }
}

// The measures of the cells that meet every test.
fn push_cells<K: CellKeys>(
    alloc: Global,
    measure: u32,
    tests: &[DimTest],
    keys: &K,
    looks: &mut Items<Look>,
) -> Result<(), Memory>
    ensures { OnOk result (looks.new ≡ looks.old ++ looks_at measure (filter (meets_every tests.now) (K.set keys.now))) }
{
    let places = keys.meeting(alloc, tests)?;
    for place in places.as_slice() {
        let key = keys.key_at(*place).copy()?;
        looks.push(Look::Measure(CellName { key, measure }))?;
    }
    Ok(())
}
