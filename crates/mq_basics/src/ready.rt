//! Whether the rules may run over a partition, as `run_seq` and `run_auto` ask (mq_ir, `specs/Ready`).
ghost use Rattle.std.specs.Prelude.{◌≡◌, ◌↔◌, length, IfOk, IsTrue};
ghost use Rattle.std.specs.Map.{keys_of};
ghost use Rattle.mq_ir.specs.Ready.{HaveLength, IsReady, LeftHasPlaces, LeftsHavePlaces};

use mq_cells::keys_ascend;
use mq_ir::{Left, ModelPart, PartInput};
use mq_values::{Key, Memory};
use std::alloc::Global;

/// Whether each left side has a place and each cell a value for each dimension, and the cells ascend where no tuple
/// stands twice.
pub(crate) fn is_ready(alloc: Global, part: &ModelPart, p: &PartInput) -> Result<bool, Memory>
    ensures { IfOk result (λ ready. IsTrue ready ↔ IsReady part.now p.now) }
{
    let keys = keys_in(alloc, p.cells.as_slice())?;
    Ok(
        lefts_have_places(part)
            && have_length(part.dims.len(), &keys)
            && (p.repeated.is_some() || keys_ascend(&keys)),
    )
}

fn lefts_have_places(part: &ModelPart) -> bool
    ensures { IsTrue result ↔ LeftsHavePlaces part.now }
{
    let n = part.dims.len();
    part.rules
        .as_slice()
        .iter()
        .all(|rule| has_places(n, &rule.left))
}

fn has_places(n: usize, left: &Left) -> bool
    ensures { IsTrue result ↔ LeftHasPlaces n left.now }
{
    match left {
        Left::Places(items) => items.len() == n,
        Left::Tuples(_, _) => true,
    }
}

fn have_length(n: usize, keys: &[Key]) -> bool
    ensures { IsTrue result ↔ HaveLength n keys.now }
{
    keys.iter().all(|key| has_length(n, key))
}

fn has_length(n: usize, key: &Key) -> bool
    ensures { IsTrue result ↔ (length key.now ≡ n) }
{
    key.as_slice().len() == n
}

// The keys of these cells.
fn keys_in(alloc: Global, cells: &[(Key, Key)]) -> Result<Vec<Key>, Memory>
    ensures { IfOk result (λ keys. keys.items ≡ keys_of cells.now) }
{
    let mut keys = Vec::with_capacity(alloc, cells.len())?;
    for (key, _measures) in cells {
        keys.push(key.copy()?)?;
    }
    Ok(keys)
}
