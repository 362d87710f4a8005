//! Cells of reference models.
ghost use Rattle.std.specs.Prelude.{◌≡◌, true, [], take, drop, slice_index_or, IfOk};
ghost use Rattle.mq_values.specs.Answers.{Gives};
ghost use Rattle.mq_values.specs.declared.value.Kind.TheVariants.{Int};
ghost use Rattle.mq_values.specs.declared.value.Value.TheVariants.{Null};
ghost use Rattle.mq_ir.specs.Reads as spec;
ghost use Rattle.mq_ir.specs.Unfolding.{model_of};
ghost use Rattle.mq_cells.specs.Stores.{cell_name};
ghost use Rattle.mq_refs.specs.Orders.{ArraysAscend, CellsAscend, IsOrderOf};
ghost use Rattle.mq_refs.specs.Sites.{site_of};

use crate::names::cell_named;
use crate::order::RefsOrder;
use crate::standpoint::Standpoint;
use mq_cells::find_measures;
use mq_ir::{Expr, Model, RefPart};
use mq_reads::nav;
use mq_values::{Fail, Key, Kind, Memory, Value, ValueFault};
use std::alloc::Global;

/// A measure of a cell of reference number `r`, under that reference's NAV; null where there is no such reference.
pub fn reference_cell(
    alloc: Global,
    at: &Standpoint<'_>,
    refs: RefsOrder,
    r: u32,
    measure: u32,
    indices: &[Expr],
) -> Result<Value, Fail<ValueFault>>
    requires { IsOrderOf refs at.now.model.now }
    ensures { Gives result (spec.reference_cell (site_of at.now) r measure indices.now) }
{
    match at.model.part.refs.as_slice().get(r as usize) {
        Some(part) => reference_value(
            alloc,
            at,
            part,
            cells_of(at.model, r),
            refs.ascend,
            measure,
            indices,
        ),
        None => Ok(Value::Null),
    }
}

// The cells of a reference.
fn cells_of<'a>(m: &Model<'a>, r: u32) -> &'a [(Key, Key)]
    ensures cells { result.now ≡ slice_index_or (model_of m.now).refs r [] }
    ensures ascending { ArraysAscend m.now.refs.now → CellsAscend result.now }
{
    match m.refs.get(r as usize) {
        Some(array) => array.cells.as_slice(),
        None => &[],
    }
}

fn reference_value(
    alloc: Global,
    at: &Standpoint<'_>,
    part: &RefPart,
    cells: &[(Key, Key)],
    ascend: bool,
    measure: u32,
    indices: &[Expr],
) -> Result<Value, Fail<ValueFault>>
    requires { ascend ≡ true → CellsAscend cells.now }
    ensures { Gives result (spec.reference_value (site_of at.now) part.now cells.now measure indices.now) }
{
    let dims = part.dims.len();
    let key = cell_named(alloc, at, up_to(part.kinds.as_slice(), dims), indices)?;
    let v = measure_at(cells, ascend, key.as_slice(), measure)?;
    let kind = kind_in(from(part.kinds.as_slice(), dims), measure);
    Ok(nav(Some(v), kind, part.ignore_nav))
}

// The first `count` kinds.
fn up_to(kinds: &[Kind], count: usize) -> &[Kind]
    ensures { result.now ≡ take count kinds.now }
{
    &kinds[..count.min(kinds.len())]
}

// The kinds behind the first `count`.
fn from(kinds: &[Kind], count: usize) -> &[Kind]
    ensures { result.now ≡ drop count kinds.now }
{
    &kinds[count.min(kinds.len())..]
}

/// The kind of a measure; INT where there is none.
pub fn kind_in(kinds: &[Kind], measure: u32) -> Kind
    ensures { result ≡ slice_index_or kinds.now measure Int }
{
    match kinds.get(measure as usize) {
        Some(kind) => *kind,
        None => Kind::Int,
    }
}

// The measure of a cell; null where the cell is not there.
fn measure_at(
    cells: &[(Key, Key)],
    ascend: bool,
    key: &[Value],
    measure: u32,
) -> Result<Value, Memory>
    requires { ascend ≡ true → CellsAscend cells.now }
    ensures { IfOk result (λ v. v ≡ spec.measure_at cells.now (cell_name key.now measure)) }
{
    match find_measures(cells, ascend, key) {
        Some(measures) => value_in(measures.as_slice(), measure),
        None => Ok(Value::Null),
    }
}

// A measure of these; null where there is none.
fn value_in(measures: &[Value], measure: u32) -> Result<Value, Memory>
    ensures { IfOk result (λ v. v ≡ slice_index_or measures.now measure Null) }
{
    match measures.get(measure as usize) {
        Some(v) => v.copy(),
        None => Ok(Value::Null),
    }
}
