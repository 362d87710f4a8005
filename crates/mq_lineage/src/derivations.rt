//! The derivation of a measure of a cell.
ghost use Rattle.std.specs.Prelude.{◌≡◌, [], Ok, map, IfOk, OnOk};
ghost use Rattle.mq_ir.specs.declared.query.PartInput.{PartInput};
ghost use Rattle.mq_ir.specs.Automatic.{levelled_shape, shape_found};
ghost use Rattle.mq_ir.specs.Derivations.{AreAccepted, derivation};
ghost use Rattle.mq_ir.specs.Partitions.{Cells as Input};
ghost use Rattle.mq_ir.specs.Unfolding.{model_of};
ghost use Rattle.mq_cells.specs.IndexedStores.{input_in, results_of};
ghost use Rattle.mq_auto.specs.Findings.{IsLevelled};
ghost use Rattle.mq_auto.specs.Meaning.{HoldsValues};
ghost use Rattle.mq_auto_shape.specs.Conditions.{AreReady};
ghost use Rattle.mq_auto_shape.specs.Found.{AreRoundsOf};
ghost use Rattle.mq_lineage.specs.Found.{IsFound};
ghost use Rattle.mq_lineage.specs.Ordered.{step_names};
ghost use Rattle.mq_lineage.specs.Told.{told_with};

use crate::naming::{Told, told_in};
use crate::sources::sources_of;
use crate::steps::{lent_steps_of, steps_of};
use mq_auto_shape::{IndexedShape, indexed_shape_of, places_of};
use mq_cells::{Cells, IndexedCells};
use mq_change_laws::shapes_are_sound;
use mq_derivation_laws::{derivations_are_accepted, derivations_have_the_sources};
use mq_ir::{CellName, Derivation, Model, PartShape};
use mq_refs::ShapeKeys;
use mq_values::{Items, Memory};
use std::alloc::Global;

/// Where the value of a measure of a cell comes from, for what `compute` left in `cells`: the least set that has it and,
/// with each assigned measure, all measures that it looks at. Those that no rule assigns come first, ascending, then the
/// others by their rounds, ascending within one; each is told with its rule and what stands there (docs/MEANING.md,
/// "Derivations"). `s` is the shape that the rules make of the keys of its input. `check` says true of it. `Memory` is the
/// only error.
pub fn derive<C: Cells>(
    alloc: Global,
    m: &Model<'_>,
    s: &PartShape,
    cells: &mut C,
    target: &CellName,
) -> Result<Derivation, Memory>
    requires ready { AreReady m.now.part.now s.now.base }
    requires found { Ok s.now ≡ levelled_shape (model_of m.now) s.now.base }
    ensures exact { (input : Input) → HoldsValues (model_of m.now) s.now input (C.input cells.old) (C.results cells.old)
        → IfOk result (λ d. d.steps ≡ derivation (model_of m.now) s.now input target.now) }
    ensures accepted { (p : PartInput) → HoldsValues (model_of m.now) s.now p.cells (C.input cells.old) (C.results cells.old)
        → shape_found (model_of m.now) p ≡ Ok s.now
        → IfOk result (λ d. AreAccepted (model_of m.now) s.now p.cells [] d.steps) }
    ensures same_input { C.input cells.new ≡ C.input cells.old }
    ensures same_results { C.results cells.new ≡ C.results cells.old }
{
    derivations_are_accepted();
    let found = found_again(alloc, m, s)?;
    let told = told_of(alloc, m, s, &found, target)?;
    let steps = steps_of(alloc, told.as_slice(), cells)?;
    Ok(Derivation { steps })
}

// The shape once more, with its rounds and its cells as an index.
fn found_again(alloc: Global, m: &Model<'_>, s: &PartShape) -> Result<IndexedShape, Memory>
    requires ready { AreReady m.now.part.now s.now.base }
    requires found { Ok s.now ≡ levelled_shape (model_of m.now) s.now.base }
    ensures rounds { IfOk result (λ it. AreRoundsOf (model_of m.now) s.now it.leveled.rounds) }
    ensures cells { IfOk result (λ it. it.cells ≡ s.now.cells) }
    ensures found { OnOk result (IsFound (model_of m.now) s.now) }
{
    shapes_are_sound();
    let found = indexed_shape_of(alloc, m, s.base.as_slice())?;
    match found {
        Ok(it) => Ok(it),
        Err(_) => unreachable!(),
    }
}

/// The same as `derive`, over a store that is lent, by a shape with its rounds and its indexes, as `judge` of mq_auto finds it: no
/// shape is made.
pub fn derive_lent(
    alloc: Global,
    m: &Model<'_>,
    found: &IndexedShape,
    cells: &IndexedCells,
    target: &CellName,
) -> Result<Derivation, Memory>
    requires { IsLevelled (model_of m.now) found.now }
    ensures exact { (input : Input) → HoldsValues (model_of m.now) found.now.shape input (input_in cells.now) (results_of cells.now)
        → IfOk result (λ d. d.steps ≡ derivation (model_of m.now) found.now.shape input target.now) }
    ensures accepted { (p : PartInput)
        → HoldsValues (model_of m.now) found.now.shape p.cells (input_in cells.now) (results_of cells.now)
        → shape_found (model_of m.now) p ≡ Ok found.now.shape
        → IfOk result (λ d. AreAccepted (model_of m.now) found.now.shape p.cells [] d.steps) }
{
    derivations_are_accepted();
    shapes_are_sound();
    // Every index says of its keys that they ascend.
    found.base.keys();
    let told = told_of(alloc, m, &found.shape, found, target)?;
    let steps = lent_steps_of(alloc, told.as_slice(), cells)?;
    Ok(Derivation { steps })
}

// The measures that a derivation tells, in order, each with its rule. `found` has the rounds of the shape and its cells as an
// index.
fn told_of(
    alloc: Global,
    m: &Model<'_>,
    s: &PartShape,
    found: &IndexedShape,
    target: &CellName,
) -> Result<Items<Told>, Memory>
    requires cells { found.now.cells ≡ s.now.cells }
    requires found { IsFound (model_of m.now) s.now }
    requires rounds { AreRoundsOf (model_of m.now) s.now found.now.leveled.rounds }
    ensures { IfOk result (λ told. told ≡ map (told_with s.now) (step_names (model_of m.now) s.now target.now)) }
{
    derivations_have_the_sources();
    let keys = ShapeKeys {
        base: &found.base,
        cells: &found.cells,
    };
    let rounds = found.leveled.rounds.as_slice();
    let places = places_of(alloc, s, &found.cells)?;
    let sources = sources_of(alloc, m, s, &keys, rounds, places, target)?;
    let given = sources.given(alloc)?;
    told_in(alloc, s, rounds, &sources, given.as_slice())
}
