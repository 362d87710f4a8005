//! A step, judged by those before it.
ghost use Rattle.std.specs.Prelude.{◌≡◌, List, Some, IfOk};
ghost use Rattle.std.specs.Bool.{Decides};
ghost use Rattle.std.specs.List.{list_all};
ghost use Rattle.mq_ir.specs.declared.query.DerivationStep.{DerivationStep as Seen};
ghost use Rattle.mq_ir.specs.declared.query.Look.TheVariants.{Measure};
ghost use Rattle.mq_ir.specs.declared.query.PartShape.{PartShape as ShapeSeen};
ghost use Rattle.mq_ir.specs.Automatic.{rule_at};
ghost use Rattle.mq_ir.specs.Derivations.{IsDerived};
ghost use Rattle.mq_ir.specs.Unfolding.{model_of};
ghost use Rattle.mq_cells.specs.IndexedStores.{input_in, results_of};
ghost use Rattle.mq_lineage.specs.Nodes.{HasRulesOf};
ghost use Rattle.mq_lineage.specs.Telling.{AreTold, IsMade, look_told};

use crate::node_map::NodeMap;
use crate::slots::is_same_slot;
use mq_cells::{Held, IndexedCells};
use mq_ir::{CellName, DerivationStep, Look, Model, PartShape, Rule, Slot, steps_read_their_looks};
use mq_refs::{eval_cell, looks_of};
use mq_values::Memory;
use std::alloc::Global;

/// Whether a step is by the rule of this number, looks at measures of earlier steps alone, and has what the rule makes of
/// their slots. At the measures of the earlier steps, and nowhere else, results stand in `cells`: their slots.
pub fn is_derived(
    alloc: Global,
    m: &Model<'_>,
    s: &PartShape,
    rules: &NodeMap,
    cells: &mut IndexedCells,
    step: &DerivationStep,
    number: u32,
) -> Result<bool, Memory>
    requires { HasRulesOf s.now rules.now }
    ensures exact { IfOk result (λ told. (earlier : List Seen) → AreTold earlier (results_of cells.old)
        → Decides told (IsDerived (model_of m.now) s.now earlier step.now number)) }
    ensures same_input { input_in cells.new ≡ input_in cells.old }
    ensures same_results { results_of cells.new ≡ results_of cells.old }
{
    if !is_assigned_by(rules, &step.name, number)? {
        return Ok(false);
    }
    match m.part.rules.get(number.saturating_sub(1) as usize) {
        Some(rule) => is_made(alloc, m, s, rule, cells, step),
        None => Ok(is_same_slot(&step.slot, &Slot::Poisoned)),
    }
}

// Whether the rule of this number assigns a measure.
fn is_assigned_by(rules: &NodeMap, name: &CellName, number: u32) -> Result<bool, Memory>
    ensures { (s : ShapeSeen) → HasRulesOf s rules.now → IfOk result (λ told. Decides told (rule_at s (Measure name.now) ≡ Some number)) }
{
    match rules.get(&name.key, name.measure)? {
        Some(found) => Ok(found == number),
        None => Ok(false),
    }
}

// Whether a step is what a rule makes of the slots of earlier steps.
fn is_made(
    alloc: Global,
    m: &Model<'_>,
    s: &PartShape,
    rule: &Rule,
    cells: &mut IndexedCells,
    step: &DerivationStep,
) -> Result<bool, Memory>
    ensures exact { IfOk result (λ told. (earlier : List Seen) → AreTold earlier (results_of cells.old)
        → Decides told (IsMade (model_of m.now) s.now earlier step.now rule.now)) }
    ensures same_input { input_in cells.new ≡ input_in cells.old }
    ensures same_results { results_of cells.new ≡ results_of cells.old }
{
    steps_read_their_looks();
    let looks = looks_of(alloc, rule, m, &step.name.key, 0, s)?;
    if !are_told(cells, looks.as_slice()) {
        return Ok(false);
    }
    let slot = eval_cell(alloc, rule, m, &step.name.key, 0, s, cells)?;
    Ok(is_same_slot(&step.slot, &slot))
}

// Whether all measures among these looks are told.
fn are_told(cells: &IndexedCells, looks: &[Look]) -> bool
    ensures { result ≡ list_all (look_told (results_of cells.now)) looks.now }
{
    'looks: for look in looks {
        if !is_told(cells, look) {
            return false;
        }
    }
    true
}

// Whether a look is of a measure that is told, or of a presence.
fn is_told(cells: &IndexedCells, look: &Look) -> bool
    ensures { result ≡ look_told (results_of cells.now) look.now }
{
    match look {
        Look::Measure(name) => cells.result(&name.key, name.measure).is_some(),
        Look::Presence(_) => true,
    }
}
