//! The partitions of the item rows of a query.
ghost use Rattle.std.specs.Prelude.{◌≡◌, IfOk};
ghost use Rattle.mq_ir.specs.Partitions as spec;

use crate::runs::{ascending, input_of, inputs};
use mq_ir::{ModelPart, PartInput};
use mq_values::{Items, Key, Memory};
use std::alloc::Global;

/// The partitions of the item rows of a query with MODEL, ascending by their keys: one for each distinct partition key,
/// or, without PARTITION BY, just the one of the empty key, also over no rows (docs/MEANING.md, "Partitions").
/// `Memory` is the only error.
pub fn partitions(alloc: Global, q: &ModelPart, items: &[Key]) -> Result<Items<PartInput>, Memory>
    ensures { IfOk result (λ inputs. inputs ≡ spec.partitions q.now items.now) }
{
    if q.parts == 0 {
        return undivided(alloc, q, items);
    }
    let rows = ascending(alloc, q.parts as usize, items)?;
    inputs(alloc, q, &rows)
}

// The one partition of a query without PARTITION BY.
fn undivided(alloc: Global, q: &ModelPart, items: &[Key]) -> Result<Items<PartInput>, Memory>
    requires { q.now.parts ≡ 0 }
    ensures { IfOk result (λ inputs. inputs ≡ spec.partitions q.now items.now) }
{
    let mut inputs = Items::new(alloc);
    inputs.push(input_of(alloc, q, &[], items)?)?;
    Ok(inputs)
}
