//! The rows that went and came, by their partitions.
ghost use Rattle.std.specs.Prelude.{◌≡◌, ◌≤◌, [], ◌++◌, take, drop, map, not, length, IfOk, OnOk};
ghost use Rattle.std.specs.List.{filter};
ghost use Rattle.mq_ir.specs.Partitions.{ascending as spec_ascending};
ghost use Rattle.mq_ir.specs.Rising.{Rising};
ghost use Rattle.mq_delta_parts.specs.Groups.{AreGroups, Grouped, NoneLess, by_key, changes_of, group_from, has_key};
ghost use Rattle.mq_delta_parts.specs.Groups.{is_mark as spec_is_mark, rows_marked, with_mark};

use crate::cuts::{key_of, up_to};
use mq_ir::ModelPart;
use mq_values::{Items, Key, Memory, Value};
use std::alloc::Global;
use std::cmp::Ordering;

/// The rows of a partition that went and came, in their order.
#[derive(Drop)]
pub struct PartChange {
    pub key: Key,
    pub gone: Items<Key>,
    pub come: Items<Key>,
}

// A row, and whether it came.
type Change = (Key, bool);

/// The item rows that went and came by their partitions: a group for each partition of which a row went or came, ascending by the
/// partition keys. `Memory` is the only error.
pub fn touched_keys(
    alloc: Global,
    part: &ModelPart,
    gone: &[Key],
    come: &[Key],
) -> Result<Items<PartChange>, Memory>
    ensures { IfOk result (λ groups. AreGroups part.now.parts gone.now come.now groups) }
{
    let parts = part.parts as usize;
    let changes = changes_in_order(alloc, parts, gone, come)?;
    groups_in(alloc, parts, &changes)
}

// The rows that went and came, ascending by their partition keys.
fn changes_in_order(
    alloc: Global,
    parts: usize,
    gone: &[Key],
    come: &[Key],
) -> Result<Vec<Change>, Memory>
    ensures { IfOk result (λ changes. changes.items ≡ spec_ascending (by_key parts) (changes_of gone.now come.now)) }
{
    let mut changes = Vec::new(alloc);
    push_changes(&mut changes, gone, false)?;
    push_changes(&mut changes, come, true)?;
    ascending(parts, changes)
}

// Puts rows behind the others, each with this mark.
fn push_changes(changes: &mut Vec<Change>, rows: &[Key], came: bool) -> Result<(), Memory>
    ensures { OnOk result (changes.new.items ≡ changes.old.items ++ map (with_mark came) rows.now) }
{
    'rows: for row in rows {
        changes.push((row.copy()?, came))?;
    }
    Ok(())
}

// The changes, ascending by the partition keys of their rows; those of one partition stay in their order.
fn ascending(parts: usize, changes: Vec<Change>) -> Result<Vec<Change>, Memory>
    ensures { IfOk result (λ sorted. sorted.items ≡ spec_ascending (by_key parts) changes.items) }
{
    let mut sorted = changes;
    sorted.sort_by(|a, b| cmp_parts(parts, a, b))?;
    Ok(sorted)
}

// Which row has the lesser partition key.
fn cmp_parts(parts: usize, a: &Change, b: &Change) -> Ordering
    ensures { result ≡ by_key parts a.now b.now }
{
    up_to(a.0.as_slice(), parts).cmp(up_to(b.0.as_slice(), parts))
}

// The groups of the partitions of changes that ascend by their partition keys.
fn groups_in(alloc: Global, parts: usize, changes: &[Change]) -> Result<Items<PartChange>, Memory>
    requires { Rising (by_key parts) changes.now }
    ensures { IfOk result (λ groups. Grouped parts changes.now [] groups) }
{
    let mut groups = Items::new(alloc);
    let mut rest = changes;
    'runs: while !rest.is_empty() {
        let first = &rest[0];
        let key = up_to(first.0.as_slice(), parts);
        let count = run_length(parts, key, rest);
        let (run, others) = rest.split_at(count);
        groups.push(group_of(alloc, key, run)?)?;
        rest = others;
    }
    Ok(groups)
}

// How many of these changes are of the partition of this key, where none has a lesser one.
fn run_length(parts: usize, key: &[Value], changes: &[Change]) -> usize
    requires least { NoneLess parts key.now changes.now }
    requires rising { Rising (by_key parts) changes.now }
    ensures within { result ≤ length changes.now }
    ensures run { take result changes.now ≡ filter (has_key parts key.now) changes.now }
    ensures others { drop result changes.now ≡ filter (λ change. not (has_key parts key.now change)) changes.now }
{
    changes.partition_point(|change| is_of(parts, key, change))
}

// Whether the row is of the partition of this key.
fn is_of(parts: usize, key: &[Value], change: &Change) -> bool
    ensures { result ≡ has_key parts key.now change.now }
{
    key.cmp(up_to(change.0.as_slice(), parts)).is_eq()
}

// The group of the partition of this key, of which these are the changes.
fn group_of(alloc: Global, key: &[Value], changes: &[Change]) -> Result<PartChange, Memory>
    ensures { IfOk result (λ group. group ≡ group_from key.now changes.now) }
{
    Ok(PartChange {
        key: key_of(alloc, key)?,
        gone: marked_rows(alloc, changes, false)?,
        come: marked_rows(alloc, changes, true)?,
    })
}

// The rows that have this mark.
fn marked_rows(alloc: Global, changes: &[Change], came: bool) -> Result<Items<Key>, Memory>
    ensures { IfOk result (λ rows. rows ≡ rows_marked came changes.now) }
{
    let mut rows = Items::new(alloc);
    'changes: for change in changes {
        if is_mark(came, change.1) {
            rows.push(change.0.copy()?)?;
        }
    }
    Ok(rows)
}

fn is_mark(came: bool, mark: bool) -> bool
    ensures { result ≡ spec_is_mark came mark }
{
    if came { mark } else { !mark }
}
