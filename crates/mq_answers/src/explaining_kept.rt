//! Where the value of a measure of a cell of a view comes from, by what is kept of the view.
ghost use Rattle.std.specs.Prelude.{◌≡◌, IfOk, IfSome};
ghost use Rattle.std.specs.List.{All, find};
ghost use Rattle.std.specs.Option.{option_copied};
ghost use Rattle.mq_ir.specs.declared.query.BoundQuery.{BoundQuery};
ghost use Rattle.mq_ir.specs.Explaining as spec;
ghost use Rattle.mq_ir.specs.Tables.{Tables};
ghost use Rattle.mq_ir.specs.Unfolding.{Model, model_of};
ghost use Rattle.mq_kept.specs.Kept.{AllRight, HasValues, IsKept, IsRight};
ghost use Rattle.mq_answers.specs.Explained.{PartsAscend, has_key};

use crate::explaining::{accepted, explained_in, is_cell};
use mq_ir::{CellName, Explained, Model as Lent, ModelPart, PartInput, partitions_ascend};
use mq_kept::{KeptPart, KeptView, PartState, ShapedCells};
use mq_lineage::derive_lent;
use mq_values::{Key, Memory};
use std::alloc::Global;

/// Where a measure of a cell of a query comes from, exactly as `explained_over` has it over the tables for which this is kept of the
/// query. Of a partition whose values are kept nothing is computed again but the steps; another one is computed alone
/// (docs/MEANING.md, "Explaining a cell"). `Memory` is the only error.
pub fn explained_kept(
    alloc: Global,
    part: &ModelPart,
    view: &KeptView,
    key: &Key,
    cell: &CellName,
) -> Result<Explained, Memory>
    requires right { AllRight part.now view.now }
    ensures { (tables : Tables) (q : BoundQuery) → IsKept tables q part.now view.now
        → IfOk result (λ e. e ≡ spec.explained_over tables q part.now key.now cell.now) }
{
    partitions_ascend();
    let model = Lent {
        part,
        lists: view.lists.as_slice(),
        refs: view.refs.as_slice(),
    };
    match part_with(view.parts.as_slice(), key) {
        Some(kept) => explained_of(alloc, &model, kept, cell),
        None => Ok(Explained::NoPartition),
    }
}

// The partition with this key. Partitions of tables ascend by their keys.
fn part_with<'a>(parts: &'a [KeptPart], key: &Key) -> Option<&'a KeptPart>
    ensures found { PartsAscend parts.now → option_copied result ≡ find (has_key key.now) parts.now }
    ensures right { (model : Model) → All (IsRight model) parts.now → IfSome result (λ kept. IsRight model kept.now) }
{
    match parts.binary_search_by(|part| part.input.key.cmp(key)) {
        Ok(at) => Some(&parts[at]),
        Err(_) => None,
    }
}

// In one partition. Of one that came to a fault it is asked anew, whether its shape has the fault: that of a value is no answer here.
fn explained_of(
    alloc: Global,
    m: &Lent<'_>,
    kept: &KeptPart,
    cell: &CellName,
) -> Result<Explained, Memory>
    requires { IsRight (model_of m.now) kept.now }
    ensures { IfOk result (λ e. e ≡ spec.explained_in (model_of m.now) cell.now kept.now.input) }
{
    match &kept.state {
        PartState::Automatic(values) => explained_by(alloc, m, &kept.input, values, cell),
        _ => explained_in(alloc, m, &kept.input, cell),
    }
}

// In one whose values are kept.
fn explained_by(
    alloc: Global,
    m: &Lent<'_>,
    p: &PartInput,
    values: &ShapedCells,
    cell: &CellName,
) -> Result<Explained, Memory>
    requires { HasValues (model_of m.now) p.now values.now }
    ensures { IfOk result (λ e. e ≡ spec.explained_in (model_of m.now) cell.now p.now) }
{
    let found = &values.shape.found;
    if !is_cell(&found.shape, &cell.key) {
        return Ok(Explained::NoCell);
    }
    let told = derive_lent(alloc, m, found, &values.cells, cell)?;
    let steps = accepted(alloc, m, p, &found.shape, told)?;
    Ok(Explained::Steps(steps))
}
