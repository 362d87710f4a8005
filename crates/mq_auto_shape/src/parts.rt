//! What a rule looks at, as runs of places.
ghost use Rattle.std.specs.Prelude.{◌≡◌, ◌++◌, ◌∷◌, [], length, IfOk, OnOk};
ghost use Rattle.std.specs.List.{All, cons_option, filter_map};
ghost use Rattle.std.specs.List.Sorted.{IsStrictlySortedBy};
ghost use Rattle.mq_values.specs.Order.{cmp_key};
ghost use Rattle.mq_refs.specs.LookParts.{is_within, looks_in};
ghost use Rattle.mq_auto_shape.specs.Edges.{number_looked};
ghost use Rattle.mq_auto_shape.specs.LaneRuns.{numbers_of};
ghost use Rattle.mq_auto_shape.specs.Numbers.{number_at};

use crate::lane_reads::LaneRun;
use crate::numbers::Numbers;
use mq_ir::CellName;
use mq_refs::LookPart;
use mq_values::{Items, Memory};
use std::alloc::Global;

/// The runs of places at which the numbers stand that these parts look at. A cell is looked for beside `near` first.
pub fn runs_of(
    alloc: Global,
    numbers: &Numbers<'_>,
    parts: &[LookPart],
    near: &mut u32,
) -> Result<Items<LaneRun>, Memory>
    requires ascend { IsStrictlySortedBy cmp_key numbers.now.keys }
    requires within { All (is_within (length numbers.now.keys)) parts.now }
    ensures { IfOk result (λ runs. numbers_of numbers.now.lanes runs
        ≡ filter_map (number_looked numbers.now) (looks_in numbers.now.keys parts.now)) }
{
    let mut runs = Items::with_room(alloc, parts.len());
    'parts: for part in parts {
        push_part(numbers, part, near, &mut runs)?;
    }
    Ok(runs)
}

// Puts the run of a part behind the others.
fn push_part(
    numbers: &Numbers<'_>,
    part: &LookPart,
    near: &mut u32,
    runs: &mut Items<LaneRun>,
) -> Result<(), Memory>
    requires ascend { IsStrictlySortedBy cmp_key numbers.now.keys }
    requires within { is_within (length numbers.now.keys) part.now }
    ensures { OnOk result (numbers_of numbers.now.lanes runs.new ≡ numbers_of numbers.now.lanes runs.old
        ++ filter_map (number_looked numbers.now) (looks_in numbers.now.keys (part.now ∷ []))) }
{
    match part {
        LookPart::Measure(name) => push_cell(numbers, name, near, runs),
        LookPart::Run(measure, first, past) => runs.push(LaneRun {
            measure: *measure,
            first: *first,
            past: *past,
        }),
    }
}

// Puts the place of a cell behind the others, where the cell is there.
fn push_cell(
    numbers: &Numbers<'_>,
    name: &CellName,
    near: &mut u32,
    runs: &mut Items<LaneRun>,
) -> Result<(), Memory>
    ensures { OnOk result (numbers_of numbers.now.lanes runs.new ≡ numbers_of numbers.now.lanes runs.old
        ++ cons_option (number_at numbers.now name.now.key name.now.measure) []) }
{
    match numbers.run_at(name.key.as_slice(), name.measure, near) {
        Some(run) => runs.push(run),
        None => Ok(()),
    }
}
