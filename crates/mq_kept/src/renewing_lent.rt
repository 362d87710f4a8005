//! The partitions of a kept view, lent, as a change of the item rows of its query leaves them.
ghost use Rattle.std.specs.Prelude.{◌≡◌, List, true, IfOk, IfSome};
ghost use Rattle.std.specs.List.{All};
ghost use Rattle.mq_ir.specs.Keys.{Tuple};
ghost use Rattle.mq_ir.specs.Partitions.{partitions};
ghost use Rattle.mq_ir.specs.Ready.{IsReady};
ghost use Rattle.mq_ir.specs.Unfolding.{model_of};
ghost use Rattle.mq_delta_parts.specs.Woven.{IsChangeOf};
ghost use Rattle.mq_kept.specs.Kept.{IsRight, inputs_of};
ghost use Rattle.mq_kept.specs.Renewed.{HasFollowed, IsAt, IsThere, MayFollow, MayRenew, OneFollowed, OneMayFollow};

use crate::lending::LentPart;
use crate::renewing::is_there;
use mq_delta_items::ItemChange;
use mq_delta_parts::{PartChange, input_after, touched_keys};
use mq_ir::{Model, PartInput, partitions_ascend};
use mq_values::{Key, Memory};
use std::alloc::Global;

/// Puts others in the place of the partitions that a change of the item rows touches, each with the input that it has after the change.
/// `true`: all have the inputs after the change. `false`: a partition came or went, or has a dimension tuple twice; then some may have
/// theirs and others not. `Memory` is the only error.
pub fn renew_lent(
    alloc: Global,
    m: &Model<'_>,
    change: &ItemChange,
    parts: &mut [LentPart<'_>],
) -> Result<bool, Memory>
    requires right { All (IsRight (model_of m.now)) parts.old }
    requires may { MayRenew m.now.part.now change.now (inputs_of parts.old) }
    ensures renewed { (before after : List Tuple) → inputs_of parts.old ≡ partitions m.now.part.now before
        → IsChangeOf before change.now.gone change.now.come after
        → IfOk result (λ renewed. renewed ≡ true → inputs_of parts.new ≡ partitions m.now.part.now after) }
    ensures right { All (IsRight (model_of m.now)) parts.new }
{
    partitions_ascend();
    let gone = change.gone.as_slice();
    let come = change.come.as_slice();
    let touched = touched_keys(alloc, m.part, gone, come)?;
    let groups = touched.as_slice();
    'groups: for group in groups {
        if !renew_group(alloc, m, group, parts)? {
            return Ok(false);
        }
    }
    Ok(true)
}

// The same by the rows of one partition that went and came.
fn renew_group(
    alloc: Global,
    m: &Model<'_>,
    group: &PartChange,
    parts: &mut [LentPart<'_>],
) -> Result<bool, Memory>
    requires right { All (IsRight (model_of m.now)) parts.old }
    requires may { OneMayFollow m.now.part.now group.now parts.old }
    ensures followed { IfOk result (λ renewed. renewed ≡ true → OneFollowed m.now.part.now group.now parts.old parts.new) }
    ensures right { All (IsRight (model_of m.now)) parts.new }
{
    match place_of(parts, &group.key) {
        Some(at) => renew_one(alloc, m, group, &mut parts[at]),
        None => Ok(false),
    }
}

// The place of the partition with this key. They ascend by their keys; where they did not, it might not be found.
fn place_of(parts: &[LentPart<'_>], key: &Key) -> Option<usize>
    ensures { IfSome result (IsAt parts.now key.now) }
{
    match parts.binary_search_by(|part| part.input().key.cmp(key)) {
        Ok(at) => Some(at),
        Err(_) => None,
    }
}

// Puts a partition with the input after the change in the place of one, by its rows that went and came.
fn renew_one(
    alloc: Global,
    m: &Model<'_>,
    group: &PartChange,
    part: &mut LentPart<'_>,
) -> Result<bool, Memory>
    requires right { IsRight (model_of m.now) part.old }
    requires may { MayFollow m.now.part.now group.now part.old.input }
    ensures followed { IfOk result (λ renewed. renewed ≡ true → HasFollowed m.now.part.now group.now part.old.input part.new.input) }
    ensures right { IsRight (model_of m.now) part.new }
{
    let gone = group.gone.as_slice();
    let come = group.come.as_slice();
    match input_after(alloc, m.part, part.input(), gone, come)? {
        Some(input) => Ok(put_there(m, part, input)),
        None => Ok(false),
    }
}

// Puts a partition with this input in the place of one, if it is there with that.
fn put_there(m: &Model<'_>, part: &mut LentPart<'_>, input: PartInput) -> bool
    requires right { IsRight (model_of m.now) part.old }
    requires ready { IsReady m.now.part.now input }
    ensures input { result ≡ true → part.new.input ≡ input }
    ensures there { result ≡ true → IsThere m.now.part.now input }
    ensures right { IsRight (model_of m.now) part.new }
{
    if !is_there(m.part, &input) {
        return false;
    }
    *part = LentPart::own(input);
    true
}
