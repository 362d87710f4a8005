//! EXPLAIN CELL: where the value of a measure of a cell comes from.

ghost use Rattle.std.specs.Prelude.{◌≡◌, [], ℕ};
ghost use Rattle.mq_values.specs.Answers.{Gives};
ghost use Rattle.mq_ir.specs.Explaining as spec;
ghost use Rattle.mq_ir.specs.Explaining.{explanation};
ghost use Rattle.mq_ir.specs.Items.{row_leaves};
ghost use Rattle.mq_ir.specs.Statement.{State};
ghost use Rattle.mq_tool.specs.Loads.{FileMap};
ghost use Rattle.mq_tool.specs.Places.{value_at_place};
ghost use Rattle.mq_tool.specs.Statements.{outside};
ghost use Rattle.mq_tool.specs.Steps.{Takes};

use mq_engine::Engine;
use mq_io::Gate;
use mq_ir::{Answer, Bound, CellAsked, CellName, Explained, Expr, Leaf, ModelPart};
use mq_render::{answer_text, derivation_text};
use mq_scalar::{Env, converted};
use mq_values::{Fail, Items, Key, Kind, Refused, Value, ValueFault};
use std::alloc::Global;

/// The number that `CHANGE_VALUE` has for a value that stands in no row.
pub const NO_ROW: u32 = 0;

/// Appends the derivation of a measure of a cell of a view with MODEL to `out`, a step a line and then their number, or the
/// fault for which there is none, and answers whether it is one. The values that name the partition come first, then those
/// that name the cell, and then whether they are there (docs/MEANING.md, "Derivations").
pub(crate) fn explain<G: Gate>(
    alloc: Global,
    engine: &Engine,
    asked: &CellAsked,
    out: &mut Vec<u8>,
    gate: &G,
) -> Result<bool, Fail<Refused>>
    ensures { (files : FileMap) (line : ℕ) → Takes (outside files engine.now line (Bound.ExplainCell asked.now)) engine.now engine.now out.old.items out.new.items result }
{
    let view = asked.view.as_str();
    let Some(model) = engine.catalog().model(view) else {
        return Err(Fail::Cause(Refused::UnknownName(asked.view.copy()?)));
    };
    let part = part_key(alloc, model, asked)?;
    let name = CellName {
        key: cell_key(alloc, model, asked)?,
        measure: asked.measure,
    };
    match engine.explain(alloc, view, &part, &name, gate) {
        Ok(explained) => explanation_text(model, part, name.key, explained, out),
        Err(Fail::Cause(none)) => Err(Fail::Cause(Refused::UnknownName(none.name))),
        Err(Fail::Memory) => Err(Fail::Memory),
    }
}

// The values that name the partition, and those that name the cell.
fn part_key(alloc: Global, model: &ModelPart, asked: &CellAsked) -> Result<Key, Fail<Refused>>
    ensures { Gives result (spec.place_values model.now.part_kinds asked.now.part) }
{
    place_values(alloc, model.part_kinds.as_slice(), asked.part.as_slice())
}

fn cell_key(alloc: Global, model: &ModelPart, asked: &CellAsked) -> Result<Key, Fail<Refused>>
    ensures { Gives result (spec.place_values model.now.dims asked.now.cell) }
{
    place_values(alloc, model.dims.as_slice(), asked.cell.as_slice())
}

// Appends what explaining a cell gave, of the partition and the cell of these keys, and answers whether it is a fault; or why
// it is refused.
fn explanation_text(
    model: &ModelPart,
    part: Key,
    cell: Key,
    explained: Explained,
    out: &mut Vec<u8>,
) -> Result<bool, Fail<Refused>>
    ensures { (state : State) → Takes (explanation state model.now part cell explained) state state out.old.items out.new.items result }
{
    match explained {
        Explained::Steps(derivation) => {
            derivation_text(model.names.as_slice(), &derivation, out)?;
            Ok(false)
        }
        Explained::Fault(fault) => {
            answer_text(&Answer::Fault(fault), out)?;
            Ok(true)
        }
        Explained::NoPartition => Err(Fail::Cause(Refused::NoPartition(part))),
        Explained::NoCell => Err(Fail::Cause(Refused::NoCell(cell))),
    }
}

// The values of expressions, each converted to the kind of its place.
fn place_values(alloc: Global, kinds: &[Kind], es: &[Expr]) -> Result<Key, Fail<Refused>>
    ensures { Gives result (spec.place_values kinds.now es.now) }
{
    let mut values = Items::with_room(alloc, es.len());
    'places: for (at, e) in es.iter().enumerate() {
        match kinds.get(at) {
            Some(kind) => values.push(place_value(alloc, *kind, e)?)?,
            None => return Ok(Key::new(alloc, values)?),
        }
    }
    Ok(Key::new(alloc, values)?)
}

// The value of an expression, converted to the kind of its place.
fn place_value(alloc: Global, kind: Kind, e: &Expr) -> Result<Value, Fail<Refused>>
    ensures { Gives result (value_at_place kind e.now) }
{
    match converted(alloc, e, kind, &mut NoRow) {
        Ok(v) => Ok(v),
        Err(Fail::Cause(fault)) => Err(Fail::Cause(Refused::ChangeValue(NO_ROW, fault))),
        Err(Fail::Memory) => Err(Fail::Memory),
    }
}

// The expressions that name a place see no row.
#[derive(Drop)]
struct NoRow;

impl Env for NoRow {
    ghost gives = { λ _. row_leaves [] };

    fn leaf(&mut self, _alloc: Global, _leaf: &Leaf) -> Result<Value, Fail<ValueFault>> {
        Ok(Value::Null)
    }
}
