//! A step that no rule made.
ghost use Rattle.std.specs.Prelude.{◌≡◌, true, slice_index_or, IfOk};
ghost use Rattle.std.specs.Bool.{Decides};
ghost use Rattle.mq_ir.specs.declared.query.Slot.TheVariants.{Done};
ghost use Rattle.mq_ir.specs.Derivations.{IsGiven};
ghost use Rattle.mq_ir.specs.Reads.{measure_at};
ghost use Rattle.mq_cells.specs.Ascents.{CellsAscend};
ghost use Rattle.mq_lineage.specs.Nodes.{HasRulesOf};

use crate::node_map::NodeMap;
use crate::slots::is_same_value;
use mq_cells::find_measures;
use mq_ir::{CellName, DerivationStep, PartShape, Slot};
use mq_values::{Key, Memory, Value};

/// Whether no rule assigns the measure of a step, and the step has the value of the input, null where the input does not
/// have the cell. The cells of the input ascend where `ascend` says so.
pub fn is_given(
    s: &PartShape,
    rules: &NodeMap,
    input: &[(Key, Key)],
    ascend: bool,
    step: &DerivationStep,
) -> Result<bool, Memory>
    requires rules { HasRulesOf s.now rules.now }
    requires ascend { ascend ≡ true → CellsAscend input.now }
    ensures { IfOk result (λ told. Decides told (IsGiven s.now input.now step.now)) }
{
    match rules.get(&step.name.key, step.name.measure)? {
        Some(_) => Ok(false),
        None => Ok(has_input(input, ascend, &step.name, &step.slot)),
    }
}

// Whether a slot is the value that the input has at a measure.
fn has_input(input: &[(Key, Key)], ascend: bool, name: &CellName, slot: &Slot) -> bool
    requires { ascend ≡ true → CellsAscend input.now }
    ensures { Decides result (slot.now ≡ Done (measure_at input.now name.now)) }
{
    match slot {
        Slot::Done(v) => is_input(input, ascend, name, v),
        _ => false,
    }
}

// Whether a value is the one that the input has at a measure.
fn is_input(input: &[(Key, Key)], ascend: bool, name: &CellName, v: &Value) -> bool
    requires { ascend ≡ true → CellsAscend input.now }
    ensures { Decides result (v.now ≡ measure_at input.now name.now) }
{
    match find_measures(input, ascend, name.key.as_slice()) {
        Some(measures) => is_measure(measures, name.measure, v),
        None => v.is_null(),
    }
}

// Whether a value is the measure of this number, or null behind the end.
fn is_measure(measures: &Key, m: u32, v: &Value) -> bool
    ensures { Decides result (v.now ≡ slice_index_or measures.now m Value.Null) }
{
    match measures.as_slice().get(m as usize) {
        Some(own) => is_same_value(v, own),
        None => v.is_null(),
    }
}
