//! A view that is kept, after a change of the tables.
ghost use Rattle.std.specs.Prelude.{◌≡◌, ◌<◌, true, Some, length, IfOk, IfSome};
ghost use Rattle.std.specs.List.{All};
ghost use Rattle.mq_ir.specs.Ready.{IsReady, QueryIsReady};
ghost use Rattle.mq_ir.specs.Unfolding.{Model, model_of};
ghost use Rattle.mq_sources.specs.References.{cells_of_arrays};
ghost use Rattle.mq_kept.specs.Kept.{AllRight, IsFollowed, IsRight, inputs_of, model_with, view_in};
ghost use Rattle.mq_kept.specs.Sources.{found_in};

use crate::beginning::unsettled;
use crate::comparing::{are_same_arrays, are_same_lists};
use crate::kept_view::{KeptPart, KeptView};
use crate::refreshing::refreshed;
use crate::sources::{Sources, sources_over};
use mq_ir::{BoundQuery, Model as Lent, ModelPart, PartInput};
use mq_tables::TableSet;
use mq_values::{Fail, Items, Key, Memory};
use std::alloc::Global;

/// What is kept of a view over these tables, by what was kept of it before they changed. Where its FOR subqueries and references are
/// as they were, each partition that still is there keeps what was found of it, or is refreshed; else nothing was found of any. `None`
/// comes exactly where its query has a fault before its partitions. What is read of the stores of partitions is added to `reads`.
/// `Memory` is the only error.
pub fn followed<T: TableSet>(
    alloc: Global,
    tables: &T,
    q: &BoundQuery,
    part: &ModelPart,
    old: KeptView,
    reads: &mut u64,
) -> Result<Option<KeptView>, Memory>
    requires ready { QueryIsReady q.now }
    requires model { q.now.model ≡ Some part.now }
    requires right { AllRight part.now old }
    ensures { IfOk result (IsFollowed (T.tables tables.now) q.now part.now) }
{
    match sources_over(alloc, tables, q, part) {
        Ok(found) => Ok(Some(brought(alloc, part, old, found, reads)?)),
        Err(Fail::Cause(_fault)) => Ok(None),
        Err(Fail::Memory) => Err(Memory),
    }
}

// What is kept over these sources, by what was kept before.
fn brought(
    alloc: Global,
    part: &ModelPart,
    old: KeptView,
    found: Sources,
    reads: &mut u64,
) -> Result<KeptView, Memory>
    requires right { AllRight part.now old }
    requires ready { All (IsReady part.now) found.inputs }
    ensures same { IfOk result (λ view. view_in part.now view ≡ found_in part.now found) }
    ensures right { IfOk result (AllRight part.now) }
    ensures lines { IfOk result (λ view. view.lines ≡ found.lines) }
{
    if has_same_model(&old, &found) {
        brought_on(alloc, part, old.parts, found, reads)
    } else {
        unsettled(alloc, found)
    }
}

// Whether the FOR subqueries and the references are as they were.
fn has_same_model(old: &KeptView, found: &Sources) -> bool
    ensures lists { result ≡ true → old.now.lists ≡ found.now.lists }
    ensures refs { result ≡ true → old.now.refs ≡ found.now.refs }
{
    are_same_lists(old.lists.as_slice(), found.lists.as_slice())
        && are_same_arrays(old.refs.as_slice(), found.refs.as_slice())
}

// The same where they are.
fn brought_on(
    alloc: Global,
    part: &ModelPart,
    parts: Items<KeptPart>,
    found: Sources,
    reads: &mut u64,
) -> Result<KeptView, Memory>
    requires right { All (IsRight (model_with part.now found.lists (cells_of_arrays found.refs))) parts }
    requires ready { All (IsReady part.now) found.inputs }
    ensures same { IfOk result (λ view. view_in part.now view ≡ found_in part.now found) }
    ensures right { IfOk result (AllRight part.now) }
    ensures lines { IfOk result (λ view. view.lines ≡ found.lines) }
{
    let Sources {
        inputs,
        lists,
        refs,
        lines,
    } = found;
    let model = Lent {
        part,
        lists: lists.as_slice(),
        refs: refs.as_slice(),
    };
    let parts = parts_after(alloc, &model, parts, inputs, reads)?;
    Ok(KeptView {
        lists,
        refs,
        parts,
        lines,
    })
}

// The partitions with these inputs, by those of before. Both ascend by their keys, which tells only what it costs.
fn parts_after(
    alloc: Global,
    m: &Lent<'_>,
    old: Items<KeptPart>,
    inputs: Items<PartInput>,
    reads: &mut u64,
) -> Result<Items<KeptPart>, Memory>
    requires right { All (IsRight (model_of m.now)) old }
    requires ready { All (IsReady m.now.part.now) inputs }
    ensures same { IfOk result (λ parts. inputs_of parts ≡ inputs) }
    ensures right { IfOk result (All (IsRight (model_of m.now))) }
{
    let mut left = reversed(old);
    let mut parts = Items::with_room(alloc, inputs.len());
    for input in inputs.into_vec() {
        let part = part_after(alloc, m, &mut left, input, reads)?;
        parts.push(part)?;
    }
    Ok(parts)
}

// The last comes first.
fn reversed(parts: Items<KeptPart>) -> Vec<KeptPart>
    ensures { (model : Model) → All (IsRight model) parts → All (IsRight model) result.items }
{
    let mut parts = parts.into_vec();
    parts.as_mut_slice().reverse();
    parts
}

// The partition with this input. `left` has those of before that may still come, the next of them last.
fn part_after(
    alloc: Global,
    m: &Lent<'_>,
    left: &mut Vec<KeptPart>,
    input: PartInput,
    reads: &mut u64,
) -> Result<KeptPart, Memory>
    requires right { All (IsRight (model_of m.now)) left.old.items }
    requires ready { IsReady m.now.part.now input }
    ensures left { All (IsRight (model_of m.now)) left.new.items }
    ensures input { IfOk result (λ part. part.input ≡ input) }
    ensures right { IfOk result (IsRight (model_of m.now)) }
{
    match taken_at(left, &input.key) {
        Some(part) => refreshed(alloc, m, part, input, reads),
        None => Ok(KeptPart::new(input)),
    }
}

// Takes the partition with this key, where it is among these. Those before it are gone.
fn taken_at(left: &mut Vec<KeptPart>, key: &Key) -> Option<KeptPart>
    ensures left { (model : Model) → All (IsRight model) left.old.items → All (IsRight model) left.new.items }
    ensures taken { (model : Model) → All (IsRight model) left.old.items → IfSome result (IsRight model) }
{
    'passing: while is_before(left.as_slice(), key) {
        let_go(left.pop());
    }
    if is_at(left.as_slice(), key) {
        left.pop()
    } else {
        None
    }
}

// Lets an item go. Whatever its form is, the caller's loop goes on in one way.
fn let_go<T: Drop>(_item: T) {}

// Whether the last of these comes before this key.
fn is_before(left: &[KeptPart], key: &Key) -> bool
    ensures { result ≡ true → 0 < length left.now }
{
    match left.last() {
        Some(part) => part.input.key.cmp(key).is_lt(),
        None => false,
    }
}

// Whether it has this key.
fn is_at(left: &[KeptPart], key: &Key) -> bool {
    match left.last() {
        Some(part) => part.input.key.cmp(key).is_eq(),
        None => false,
    }
}
