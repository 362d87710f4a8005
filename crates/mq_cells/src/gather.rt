//! The cells of an input, numbered.
ghost use Rattle.std.specs.Prelude.{◌≡◌, Some, None, if◌then◌else◌, IfOk, OnOk};
ghost use Rattle.std.specs.List.Sorted.{IsStrictlySortedBy};
ghost use Rattle.std.specs.Map.{keys_of};
ghost use Rattle.std.specs.Option.{option_or};
ghost use Rattle.mq_values.specs.Order.{cmp_key};
ghost use Rattle.mq_ir.specs.Keys.{Tuple, is_same};
ghost use Rattle.mq_ir.specs.Partitions.{cell_at};
ghost use Rattle.mq_cells.specs.Ascents.{CellsAscend};
ghost use Rattle.mq_cells.specs.IndexedStores.{IsFree, input_over};
ghost use Rattle.mq_cells.specs.Numberings.{Grows};

use crate::lane::Lane;
use crate::numbers::Numbers;
use crate::search::cells_ascend;
use mq_values::{Key, Memory};
use std::alloc::Global;

/// These cells, numbered, and their measures by the numbers; of several at one tuple the first counts.
pub fn gather(alloc: Global, input: &[(Key, Key)]) -> Result<(Numbers, Lane<Key>), Memory>
    ensures input { IfOk result (λ g. input_over g.0 g.1 ≡ cell_at input.now) }
    ensures free { IfOk result (λ g. IsFree g.0 g.1) }
    ensures keys { IfOk result (λ g. IsStrictlySortedBy cmp_key (keys_of input.now) → g.0.keys ≡ keys_of input.now) }
{
    if cells_ascend(input) {
        in_order(alloc, input)
    } else {
        fill(alloc, Numbers::new(alloc, &[])?, input)
    }
}

// Ascending cells, numbered in their order.
fn in_order(alloc: Global, input: &[(Key, Key)]) -> Result<(Numbers, Lane<Key>), Memory>
    requires { CellsAscend input.now }
    ensures input { IfOk result (λ g. input_over g.0 g.1 ≡ cell_at input.now) }
    ensures free { IfOk result (λ g. IsFree g.0 g.1) }
    ensures keys { IfOk result (λ g. g.0.keys ≡ keys_of input.now) }
{
    let mut keys = Vec::with_capacity(alloc, input.len())?;
    let mut measures = Vec::with_capacity(alloc, input.len())?;
    for (key, own) in input {
        keys.push(key.copy()?)?;
        measures.push(Some(own.copy()?))?;
    }
    Ok((Numbers::new(alloc, &keys)?, Lane::from_items(measures)))
}

/// These cells beside those that there are, which have no measures then.
pub fn fill(
    alloc: Global,
    cells: Numbers,
    input: &[(Key, Key)],
) -> Result<(Numbers, Lane<Key>), Memory>
    ensures input { IfOk result (λ g. input_over g.0 g.1 ≡ cell_at input.now) }
    ensures free { IfOk result (λ g. IsFree g.0 g.1) }
    ensures grows { IfOk result (λ g. Grows cells g.0) }
{
    let mut cells = cells;
    let mut given = Lane::new(alloc);
    let mut near = 0;
    for (key, measures) in input {
        give(&mut cells, &mut given, key, measures, &mut near)?;
    }
    Ok((cells, given))
}

// Measures at a key, unless there are some.
fn give(
    cells: &mut Numbers,
    given: &mut Lane<Key>,
    key: &Key,
    measures: &Key,
    near: &mut u32,
) -> Result<(), Memory>
    requires { IsFree cells.old given.old }
    ensures input { OnOk result ((q : Tuple) → input_over cells.new given.new q
        ≡ option_or (input_over cells.old given.old q) (if is_same key.now q then Some measures.now else None)) }
    ensures free { OnOk result (IsFree cells.new given.new) }
    ensures grows { Grows cells.old cells.new }
{
    let number = cells.add(key, near)?;
    match given.get(number as usize) {
        Some(_) => Ok(()),
        None => given.put(number, measures.copy()?),
    }
}
