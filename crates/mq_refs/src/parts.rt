//! What a right side looks at, as parts: single measures, and runs of cells at one measure.
ghost use Rattle.std.specs.Prelude.{◌≡◌, ◌++◌, ◌∷◌, [], ℕ, false, length, slice_index_or, IfOk, OnOk, List};
ghost use Rattle.std.specs.List.{All, filter};
ghost use Rattle.mq_ir.specs.Keys.{Tuple};
ghost use Rattle.mq_ir.specs.Looks as spec;
ghost use Rattle.mq_ir.specs.Looks.{leaf_looks, look_at, looks_at, looks_named};
ghost use Rattle.mq_ir.specs.Reads.{cell_named, range_named};
ghost use Rattle.mq_ir.specs.Targets.{meets_every};
ghost use Rattle.mq_ir.specs.Unfolding.{model_of};
ghost use Rattle.mq_refs.specs.declared.parts.LookPart.TheVariants as part;
ghost use Rattle.mq_refs.specs.LookParts.{is_wanted, is_within, looks_in, wanted_looks};
ghost use Rattle.mq_refs.specs.Sites.{site_of, site_over, site_with};

use crate::cell_keys::CellKeys;
use crate::names::{key_named, tests_named};
use crate::standpoint::Standpoint;
use crate::walk::{LeafVisitor, push_looks};
use mq_dim_index::PlaceRun;
use mq_ir::{CellName, Expr, Leaf, Model, Rule, Test};
use mq_values::{DimTest, Fail, Items, Key, Memory};
use std::alloc::Global;

/// A part of what a right side looks at: a measure of one cell, or one measure of the cells at the places from the first
/// number to before the second, of a set of keys. The measure of a run comes first.
#[derive(Drop)]
pub enum LookPart {
    Measure(CellName),
    Run(u32, u32, u32),
}

/// What the right side of a rule looks at where `target` is assigned, as parts, in the order of its references. Looks at
/// measures of which `wanted` says false or nothing are left out, and so are those at presences (docs/MEANING.md, "Looks").
/// `Memory` is the only error.
pub fn look_parts<K: CellKeys>(
    alloc: Global,
    r: &Rule,
    m: &Model<'_>,
    target: &Key,
    turn: u32,
    keys: &K,
    wanted: &[bool],
) -> Result<Items<LookPart>, Memory>
    ensures looks { IfOk result (λ parts. looks_in (K.set keys.now) parts
        ≡ filter (is_wanted wanted.now) (spec.looks_of (site_with (model_of m.now) turn target.now (K.set keys.now)) r.now.right)) }
    ensures within { IfOk result (λ parts. All (is_within (length (K.set keys.now))) parts) }
{
    let at = Standpoint {
        model: m,
        target,
        turn,
    };
    let visitor = WantedLooks {
        at: &at,
        keys,
        wanted,
    };
    let mut parts = Items::new(alloc);
    push_looks(alloc, &visitor, &r.right, &mut parts)?;
    Ok(parts)
}

// The looks of leaves at measures that are wanted, as parts. What a leaf at another measure names is not worked out.
#[derive(Drop)]
struct WantedLooks<'a, K: CellKeys> {
    at: &'a Standpoint<'a>,
    keys: &'a K,
    wanted: &'a [bool],
}

impl<K: CellKeys> LeafVisitor for WantedLooks<'_, K> {
    type Found = Items<LookPart>;

    ghost looks = { λ v. wanted_looks v.wanted.now (site_over v.at.now (K.set v.keys.now)) };

    ghost shown = { λ v parts. looks_in (K.set v.keys.now) parts };

    ghost is_sound = { λ v parts. All (is_within (length (K.set v.keys.now))) parts };

    fn visit(&self, alloc: Global, leaf: &Leaf, found: &mut Items<LookPart>) -> Result<(), Memory> {
        push_leaf(alloc, self.at, self.keys, self.wanted, leaf, found)
    }
}

// Puts the parts of a leaf behind the others, where its measure is wanted.
fn push_leaf<K: CellKeys>(
    alloc: Global,
    at: &Standpoint<'_>,
    keys: &K,
    wanted: &[bool],
    leaf: &Leaf,
    parts: &mut Items<LookPart>,
) -> Result<(), Memory>
    requires { All (is_within (length (K.set keys.now))) parts.old }
    ensures looks { OnOk result (looks_in (K.set keys.now) parts.new
        ≡ looks_in (K.set keys.now) parts.old ++ wanted_looks wanted.now (site_over at.now (K.set keys.now)) leaf.now) }
    ensures within { OnOk result (All (is_within (length (K.set keys.now))) parts.new) }
{
    match leaf {
        Leaf::Cell(measure, indices) | Leaf::NotNull(measure, indices) => {
            push_measure(alloc, at, wanted, *measure, indices.as_slice(), parts)
        }
        Leaf::Range(_, measure, places) => {
            push_range(alloc, at, keys, wanted, *measure, places.as_slice(), parts)
        }
        Leaf::Present(_) => Ok(()),
        _ => Ok(()),
    }
}

// The measure of a single cell, where it is wanted.
fn push_measure(
    alloc: Global,
    at: &Standpoint<'_>,
    wanted: &[bool],
    measure: u32,
    indices: &[Expr],
    parts: &mut Items<LookPart>,
) -> Result<(), Memory>
    ensures looks { (set : List Tuple) → OnOk result (looks_in set parts.new ≡ looks_in set parts.old ++ filter (is_wanted wanted.now)
        (looks_named (look_at measure) (cell_named (site_of at.now) at.now.model.now.part.now.dims indices.now))) }
    ensures within { (count : ℕ) → All (is_within count) parts.old → OnOk result (All (is_within count) parts.new) }
{
    if !is_set(wanted, measure) {
        return Ok(());
    }
    match key_named(alloc, at, indices)? {
        Some(key) => parts.push(LookPart::Measure(CellName { key, measure })),
        None => Ok(()),
    }
}

fn is_set(wanted: &[bool], m: u32) -> bool
    ensures { result ≡ slice_index_or wanted.now m false }
{
    match wanted.get(m as usize) {
        Some(set) => *set,
        None => false,
    }
}

// The measures of the cells of a range, where they are wanted.
fn push_range<K: CellKeys>(
    alloc: Global,
    at: &Standpoint<'_>,
    keys: &K,
    wanted: &[bool],
    measure: u32,
    places: &[Test],
    parts: &mut Items<LookPart>,
) -> Result<(), Memory>
    requires { All (is_within (length (K.set keys.now))) parts.old }
    ensures looks { OnOk result (looks_in (K.set keys.now) parts.new ≡ looks_in (K.set keys.now) parts.old
        ++ filter (is_wanted wanted.now) (looks_named (looks_at measure) (range_named (site_over at.now (K.set keys.now)) places.now))) }
    ensures within { OnOk result (All (is_within (length (K.set keys.now))) parts.new) }
{
    if is_set(wanted, measure) {
        push_cells(alloc, at, keys, measure, places, parts)
    } else {
        Ok(())
    }
}

// The measures of the cells of a range.
fn push_cells<K: CellKeys>(
    alloc: Global,
    at: &Standpoint<'_>,
    keys: &K,
    measure: u32,
    places: &[Test],
    parts: &mut Items<LookPart>,
) -> Result<(), Memory>
    requires { All (is_within (length (K.set keys.now))) parts.old }
    ensures looks { OnOk result (looks_in (K.set keys.now) parts.new ≡ looks_in (K.set keys.now) parts.old
        ++ looks_named (looks_at measure) (range_named (site_over at.now (K.set keys.now)) places.now)) }
    ensures within { OnOk result (All (is_within (length (K.set keys.now))) parts.new) }
{
    match tests_named(alloc, at, at.model.part.dims.as_slice(), places) {
        Ok(tests) => push_runs(alloc, keys, measure, tests.as_slice(), parts),
        Err(Fail::Cause(_)) => Ok(()),
        Err(Fail::Memory) => Err(Memory),
    }
}

// The measures of the cells that meet every test.
fn push_runs<K: CellKeys>(
    alloc: Global,
    keys: &K,
    measure: u32,
    tests: &[DimTest],
    parts: &mut Items<LookPart>,
) -> Result<(), Memory>
    requires { All (is_within (length (K.set keys.now))) parts.old }
    ensures looks { OnOk result (looks_in (K.set keys.now) parts.new
        ≡ looks_in (K.set keys.now) parts.old ++ looks_at measure (filter (meets_every tests.now) (K.set keys.now))) }
    ensures within { OnOk result (All (is_within (length (K.set keys.now))) parts.new) }
{
    let found = keys.runs_meeting(alloc, tests)?;
    'runs: for run in found.as_slice() {
        push_run(measure, run, parts)?;
    }
    Ok(())
}

// The measures of the cells at the places of a run.
fn push_run(measure: u32, run: &PlaceRun, parts: &mut Items<LookPart>) -> Result<(), Memory>
    ensures { OnOk result (parts.new ≡ parts.old ++ part.Run measure run.now.first run.now.past ∷ []) }
{
    parts.push(LookPart::Run(measure, run.first, run.past))
}
