//! Whether the order of a rule's targets would matter and is not given.
ghost use Rattle.std.specs.Prelude.{◌≡◌, ◌≤◌, ◌-◌, drop, false, length, slice_index_or, take, true, IfOk};
ghost use Rattle.std.specs.List.{All, list_any};
ghost use Rattle.std.specs.Map.{keys_of};
ghost use Rattle.mq_ir.specs.Sequential as spec;
ghost use Rattle.mq_ir.specs.Targets.{is_symbolic as spec_is_symbolic, place_is_symbolic};
ghost use Rattle.mq_refs.specs.LookParts.{is_within, looks_in, looks_of_part};
ghost use Rattle.mq_values.specs.KeySets.{HasKeysOf};
ghost use Rattle.mq_seq.specs.Steps.{act_in, first_past, is_other as spec_is_other, looks_past as spec_looks_past};

use crate::acting::Acting;
use crate::grid::Grid;
use mq_ir::{SingleLeft, SinglePlace};
use mq_refs::{CellKeys, LookPart, look_parts};
use mq_values::{Key, KeySet, Memory, set_of};
use std::alloc::Global;

/// Where a left side has a symbolic item and no ORDER BY: the first of its targets that looks at the assigned measure of
/// another (docs/MEANING.md, "Sequential order").
pub fn order_missing(
    alloc: Global,
    act: &Acting<'_>,
    left: &SingleLeft,
    targets: &[Key],
    grid: &Grid,
) -> Result<Option<Key>, Memory>
    ensures { IfOk result (λ key. key ≡ spec.order_missing (act_in act.now grid.now.input) left.now (keys_of grid.now.track.cells) targets.now) }
{
    if is_symbolic(left) && left.order.is_empty() {
        first_looking(alloc, act, targets, grid)
    } else {
        Ok(None)
    }
}

fn is_symbolic(left: &SingleLeft) -> bool
    ensures { result ≡ spec_is_symbolic left.now }
{
    left.places.as_slice().iter().any(|place| is_symbol(place))
}

fn is_symbol(place: &SinglePlace) -> bool
    ensures { result ≡ place_is_symbolic place.now }
{
    match place {
        SinglePlace::At(_) => false,
        SinglePlace::Sym(_) => true,
    }
}

// The first target that looks past itself.
fn first_looking(
    alloc: Global,
    act: &Acting<'_>,
    targets: &[Key],
    grid: &Grid,
) -> Result<Option<Key>, Memory>
    ensures { IfOk result (λ key. key ≡ first_past (act_in act.now grid.now.input) (keys_of grid.now.track.cells) targets.now targets.now) }
{
    let set = set_of(alloc, targets)?;
    let own = own_measure(alloc, act.rule.measure)?;
    'targets: for target in targets {
        if looks_past(alloc, act, targets, &set, &own, target, grid)? {
            return Ok(Some(target.copy()?));
        }
    }
    Ok(None)
}

// Whether a measure is `m`, by its number.
fn own_measure(alloc: Global, m: u32) -> Result<Vec<bool>, Memory>
    ensures { IfOk result (λ own. slice_index_or own.items m false ≡ true) }
{
    let mut own = Vec::new(alloc);
    'reaching: while own.len() <= m as usize {
        own.push(false)?;
    }
    own[m as usize] = true;
    Ok(own)
}

// Whether a target looks at the assigned measure of another: `set` has the keys of the targets. No other measure is looked
// for.
fn looks_past(
    alloc: Global,
    act: &Acting<'_>,
    targets: &[Key],
    set: &KeySet,
    own: &[bool],
    target: &Key,
    grid: &Grid,
) -> Result<bool, Memory>
    requires set { HasKeysOf targets.now set.now }
    requires own { slice_index_or own.now act.now.rule.now.measure false ≡ true }
    ensures { IfOk result (λ past. past ≡ spec_looks_past (act_in act.now grid.now.input) (keys_of grid.now.track.cells) targets.now target.now) }
{
    let cells = grid.store();
    let parts = look_parts(alloc, act.rule, act.model, target, act.turn, cells, own)?;
    Ok(any_of_other(parts.as_slice(), cells, set, act.rule.measure, target))
}

// Whether one of these parts is at measure `m` of a key of the set other than `target`.
fn any_of_other<K: CellKeys>(
    parts: &[LookPart],
    cells: &K,
    set: &KeySet,
    m: u32,
    target: &Key,
) -> bool
    requires { All (is_within (length (K.set cells.now))) parts.now }
    ensures { result ≡ list_any (spec.is_of_other set.now m target.now) (looks_in (K.set cells.now) parts.now) }
{
    'parts: for part in parts {
        if part_of_other(part, cells, set, m, target) {
            return true;
        }
    }
    false
}

// The same of one part.
fn part_of_other<K: CellKeys>(
    part: &LookPart,
    cells: &K,
    set: &KeySet,
    m: u32,
    target: &Key,
) -> bool
    requires { is_within (length (K.set cells.now)) part.now }
    ensures { result ≡ list_any (spec.is_of_other set.now m target.now) (looks_of_part (K.set cells.now) part.now) }
{
    match part {
        LookPart::Measure(name) => name.measure == m && is_other(&name.key, set, target),
        LookPart::Run(measure, first, past) => {
            *measure == m && run_has_other(*first, *past, cells, set, target)
        }
    }
}

// Whether the cells at the places from `first` to before `past` have a key of the set other than `target`.
fn run_has_other<K: CellKeys>(first: u32, past: u32, cells: &K, set: &KeySet, target: &Key) -> bool
    requires { past ≤ length (K.set cells.now) }
    ensures { result ≡ list_any (spec_is_other set.now target.now) (take (past - first) (drop first (K.set cells.now))) }
{
    for place in first..past {
        if is_other(cells.key_at(place), set, target) {
            return true;
        }
    }
    false
}

// Whether a key is one of the set other than `target`.
fn is_other(key: &Key, set: &KeySet, target: &Key) -> bool
    ensures { result ≡ spec_is_other set.now target.now key.now }
{
    set.has(key) && !key.cmp(target).is_eq()
}
