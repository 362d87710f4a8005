//! Steps, accepted one after another.
ghost use Rattle.std.specs.Prelude.{◌≡◌, [], true, List, IfOk, OnOk};
ghost use Rattle.std.specs.Bool.{Decides};
ghost use Rattle.mq_ir.specs.declared.query.DerivationStep.{DerivationStep as Seen};
ghost use Rattle.mq_ir.specs.Derivations.{AreAccepted, IsAccepted};
ghost use Rattle.mq_ir.specs.Unfolding.{model_of};
ghost use Rattle.mq_cells.specs.Ascents.{CellsAscend};
ghost use Rattle.mq_cells.specs.Columns.{no_results};
ghost use Rattle.mq_cells.specs.IndexedStores.{results_of};
ghost use Rattle.mq_lineage.specs.Nodes.{HasRulesOf};
ghost use Rattle.mq_lineage.specs.Telling.{AreTold, Tells};

use crate::given::is_given;
use crate::node_map::NodeMap;
use crate::rules::rules_of;
use crate::telling::is_derived;
use mq_cells::{Cells, IndexedCells, cells_ascend, copy_slot};
use mq_ir::{Derivation, DerivationStep, Model, PartInput, PartShape};
use mq_values::{Key, Memory};
use std::alloc::Global;

/// Whether steps are accepted: each without a rule is assigned by none in `s` and has the value of the input, null where
/// the input does not have the cell; each with a rule is assigned by it, looks at measures of earlier steps alone, and has
/// what the rule makes of their slots (docs/MEANING.md, "Derivations"). It asks nothing of the steps, nor of the shape.
/// `Memory` is the only error.
pub fn check(
    alloc: Global,
    m: &Model<'_>,
    p: &PartInput,
    s: &PartShape,
    d: &Derivation,
) -> Result<bool, Memory>
    ensures { IfOk result (λ told. Decides told (AreAccepted (model_of m.now) s.now p.now.cells [] d.now.steps)) }
{
    let rules = rules_of(alloc, s)?;
    let input = p.cells.as_slice();
    let mut cells = IndexedCells::new(alloc, p)?;
    are_accepted(
        alloc,
        m,
        s,
        &rules,
        input,
        cells_ascend(input),
        d.steps.as_slice(),
        &mut cells,
    )
}

// Whether these steps are accepted. No result stands in `cells` yet.
fn are_accepted(
    alloc: Global,
    m: &Model<'_>,
    s: &PartShape,
    rules: &NodeMap,
    input: &[(Key, Key)],
    ascend: bool,
    steps: &[DerivationStep],
    cells: &mut IndexedCells,
) -> Result<bool, Memory>
    requires rules { HasRulesOf s.now rules.now }
    requires ascend { ascend ≡ true → CellsAscend input.now }
    requires empty { results_of cells.old ≡ no_results }
    ensures { IfOk result (λ told. Decides told (AreAccepted (model_of m.now) s.now input.now [] steps.now)) }
{
    'steps: for step in steps {
        if !is_accepted(alloc, m, s, rules, input, ascend, cells, step)? {
            return Ok(false);
        }
        tell(step, cells)?;
    }
    Ok(true)
}

// Whether a step is accepted behind those that are told.
fn is_accepted(
    alloc: Global,
    m: &Model<'_>,
    s: &PartShape,
    rules: &NodeMap,
    input: &[(Key, Key)],
    ascend: bool,
    cells: &mut IndexedCells,
    step: &DerivationStep,
) -> Result<bool, Memory>
    requires rules { HasRulesOf s.now rules.now }
    requires ascend { ascend ≡ true → CellsAscend input.now }
    ensures exact { IfOk result (λ told. (earlier : List Seen) → AreTold earlier (results_of cells.old)
        → Decides told (IsAccepted (model_of m.now) s.now input.now earlier step.now)) }
    ensures same_results { results_of cells.new ≡ results_of cells.old }
{
    match step.rule {
        Some(number) => is_derived(alloc, m, s, rules, cells, step, number),
        None => is_given(s, rules, input, ascend, step),
    }
}

// A step more is told.
fn tell(step: &DerivationStep, cells: &mut IndexedCells) -> Result<(), Memory>
    ensures { OnOk result (Tells step.now (results_of cells.old) (results_of cells.new)) }
{
    cells.put(&step.name.key, step.name.measure, copy_slot(&step.slot)?)?;
    Ok(())
}
