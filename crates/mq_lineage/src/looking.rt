//! What the measure of an assignment looks at.
ghost use Rattle.std.specs.Prelude.{◌≡◌, ◌-◌, [], IfOk, slice_get};
ghost use Rattle.std.specs.Option.{option_map_or};
ghost use Rattle.mq_ir.specs.Looks.{looks_of};
ghost use Rattle.mq_ir.specs.Unfolding.{model_of};
ghost use Rattle.mq_refs.specs.Sites.{site_with};

use mq_ir::{Look, Model};
use mq_refs::{CellKeys, looks_over};
use mq_values::{Items, Key, Memory};
use std::alloc::Global;

/// What the rule of a number looks at where it assigns a measure of the cell at `key`; nothing where there is no such rule.
pub fn looks_by<K: CellKeys>(
    alloc: Global,
    m: &Model<'_>,
    keys: &K,
    number: u32,
    key: &Key,
) -> Result<Items<Look>, Memory>
    ensures { IfOk result (λ looks. looks ≡ option_map_or (λ rule. looks_of (site_with (model_of m.now) 0 key.now (K.set keys.now)) rule.right)
        (slice_get (model_of m.now).part.rules (number - 1)) []) }
{
    match m.part.rules.get(number.saturating_sub(1) as usize) {
        Some(rule) => looks_over(alloc, rule, m, key, 0, keys),
        None => Ok(Items::new(alloc)),
    }
}
