//! The input of a partition after a change of its rows.
ghost use Rattle.std.specs.Prelude.{◌≡◌, List, ◌&&◌, is_none, is_some, IfOk, IfSome};
ghost use Rattle.mq_ir.specs.Keys.{Tuple};
ghost use Rattle.mq_ir.specs.Partitions.{input_of};
ghost use Rattle.mq_delta_parts.specs.Changed.{IsChangeIn};

use crate::amending::amended;
use crate::edits::edits_of;
use mq_ir::{ModelPart, PartInput};
use mq_values::{Key, Memory};
use std::alloc::Global;

/// The input of a partition after a change of its item rows: `old` is its input before, `gone` and `come` are the rows of it that went
/// and came. `None` comes exactly where a dimension tuple stood twice before, or stands twice now; then the input is to be made from all
/// rows (docs/MEANING.md, "Partitions"). `Memory` is the only error.
pub fn input_after(
    alloc: Global,
    part: &ModelPart,
    old: &PartInput,
    gone: &[Key],
    come: &[Key],
) -> Result<Option<PartInput>, Memory>
    ensures input { (before after : List Tuple) → IsChangeIn part.now old.now gone.now come.now before after
        → IfOk result (λ found. IfSome found (λ input. input ≡ input_of part.now after old.now.key)) }
    ensures none { (before after : List Tuple) → IsChangeIn part.now old.now gone.now come.now before after
        → IfOk result (λ found. is_some found ≡ (is_none old.now.repeated && is_none (input_of part.now after old.now.key).repeated)) }
{
    if old.repeated.is_some() {
        return Ok(None);
    }
    let edits = edits_of(alloc, part, gone, come)?;
    match amended(alloc, old.cells.as_slice(), &edits)? {
        Some(cells) => Ok(Some(PartInput {
            key: old.key.copy()?,
            cells,
            repeated: None,
        })),
        None => Ok(None),
    }
}
