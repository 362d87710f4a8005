//! The partitions of a view, after a change of the item rows of its query.
ghost use Rattle.std.specs.Prelude.{◌≡◌, List, true, IfOk, IfSome, OnOk};
ghost use Rattle.std.specs.List.{All};
ghost use Rattle.mq_ir.specs.Keys.{Tuple};
ghost use Rattle.mq_ir.specs.Partitions.{partitions};
ghost use Rattle.mq_ir.specs.Ready.{IsReady};
ghost use Rattle.mq_ir.specs.Unfolding.{model_of};
ghost use Rattle.mq_delta_parts.specs.Woven.{IsChangeOf};
ghost use Rattle.mq_kept.specs.Kept.{IsRight, inputs_of};
ghost use Rattle.mq_kept.specs.Renewed.{HasFollowed, IsAt, IsThere, MayFollow, MayRenew, OneFollowed, OneMayFollow};

use crate::comparing::is_same_input;
use crate::kept_view::{KeptPart, PartState};
use crate::refreshing::state_after;
use crate::shapes::LONGEST_WITH_COURSE;
use mq_delta_items::ItemChange;
use mq_delta_parts::{PartChange, input_after, touched_keys};
use mq_ir::{Model, ModelPart, PartInput, partitions_ascend};
use mq_values::{Key, Memory};
use std::alloc::Global;
use std::mem::replace;

/// Gives a partition another input, as `refreshed` does, and counts what is read as it does. `Memory` is the only error; what was found
/// of the partition is right after it too, of one of the two inputs.
pub fn renew(
    alloc: Global,
    m: &Model<'_>,
    part: &mut KeptPart,
    input: PartInput,
    reads: &mut u64,
) -> Result<(), Memory>
    requires right { IsRight (model_of m.now) part.old }
    requires ready { IsReady m.now.part.now input }
    ensures input { OnOk result (part.new.input ≡ input) }
    ensures right { IsRight (model_of m.now) part.new }
{
    if is_same_input(&part.input, &input) {
        return Ok(());
    }
    part.shown = None;
    let state = replace(&mut part.state, PartState::NotKept);
    part.state = state_after(alloc, m, &part.input, &input, state, reads)?;
    part.input = input;
    Ok(())
}

/// Gives the partitions of a view the inputs that they have after a change of the item rows of its query, by the rows that went and
/// came. `true`: they have these inputs. `false`: a partition came or went, is a long one (`LONGEST_WITH_COURSE`), or has a dimension
/// tuple twice; then some partitions may have theirs and others not. What was found of each is right for the input that it has, whatever
/// the answer is. What is read of their stores is added to `reads`. `Memory` is the only error.
pub fn renew_parts(
    alloc: Global,
    m: &Model<'_>,
    change: &ItemChange,
    parts: &mut [KeptPart],
    reads: &mut u64,
) -> Result<bool, Memory>
    requires right { All (IsRight (model_of m.now)) parts.old }
    requires may { MayRenew m.now.part.now change.now (inputs_of parts.old) }
    ensures renewed { (before after : List Tuple) → inputs_of parts.old ≡ partitions m.now.part.now before
        → IsChangeOf before change.now.gone change.now.come after
        → IfOk result (λ renewed. renewed ≡ true → inputs_of parts.new ≡ partitions m.now.part.now after) }
    ensures right { All (IsRight (model_of m.now)) parts.new }
{
    partitions_ascend();
    let gone = change.gone.as_slice();
    let come = change.come.as_slice();
    let touched = touched_keys(alloc, m.part, gone, come)?;
    let groups = touched.as_slice();
    'groups: for group in groups {
        if !renew_group(alloc, m, group, parts, reads)? {
            return Ok(false);
        }
    }
    Ok(true)
}

// The same by the rows of one partition that went and came.
fn renew_group(
    alloc: Global,
    m: &Model<'_>,
    group: &PartChange,
    parts: &mut [KeptPart],
    reads: &mut u64,
) -> Result<bool, Memory>
    requires right { All (IsRight (model_of m.now)) parts.old }
    requires may { OneMayFollow m.now.part.now group.now parts.old }
    ensures followed { IfOk result (λ renewed. renewed ≡ true → OneFollowed m.now.part.now group.now parts.old parts.new) }
    ensures right { All (IsRight (model_of m.now)) parts.new }
{
    match place_of(parts, &group.key) {
        Some(at) => renew_one(alloc, m, group, &mut parts[at], reads),
        None => Ok(false),
    }
}

// The place of the partition with this key. They ascend by their keys; where they did not, it might not be found.
fn place_of(parts: &[KeptPart], key: &Key) -> Option<usize>
    ensures { IfSome result (IsAt parts.now key.now) }
{
    match parts.binary_search_by(|part| part.input.key.cmp(key)) {
        Ok(at) => Some(at),
        Err(_) => None,
    }
}

// Gives a partition its input after the change, by its rows that went and came.
fn renew_one(
    alloc: Global,
    m: &Model<'_>,
    group: &PartChange,
    part: &mut KeptPart,
    reads: &mut u64,
) -> Result<bool, Memory>
    requires right { IsRight (model_of m.now) part.old }
    requires may { MayFollow m.now.part.now group.now part.old.input }
    ensures followed { IfOk result (λ renewed. renewed ≡ true → HasFollowed m.now.part.now group.now part.old.input part.new.input) }
    ensures right { IsRight (model_of m.now) part.new }
{
    if is_long(part) {
        return Ok(false);
    }
    let gone = group.gone.as_slice();
    let come = group.come.as_slice();
    match input_after(alloc, m.part, &part.input, gone, come)? {
        Some(input) => renew_there(alloc, m, part, input, reads),
        None => Ok(false),
    }
}

// Whether a change of a partition is dear: its shape is kept without a course, so that each change would make one anew. What many
// changes come to is then found at once, at the next look.
fn is_long(part: &KeptPart) -> bool {
    part.input.cells.len() > LONGEST_WITH_COURSE
}

// Gives a partition another input, if it is there with that.
fn renew_there(
    alloc: Global,
    m: &Model<'_>,
    part: &mut KeptPart,
    input: PartInput,
    reads: &mut u64,
) -> Result<bool, Memory>
    requires right { IsRight (model_of m.now) part.old }
    requires ready { IsReady m.now.part.now input }
    ensures input { IfOk result (λ renewed. renewed ≡ true → part.new.input ≡ input) }
    ensures there { IfOk result (λ renewed. renewed ≡ true → IsThere m.now.part.now input) }
    ensures right { IsRight (model_of m.now) part.new }
{
    if !is_there(m.part, &input) {
        return Ok(false);
    }
    renew(alloc, m, part, input, reads)?;
    Ok(true)
}

/// Whether a partition with this input is there.
pub fn is_there(part: &ModelPart, input: &PartInput) -> bool
    ensures { result ≡ true → IsThere part.now input.now }
{
    if part.parts == 0 {
        return true;
    }
    !input.cells.is_empty()
}
