//! Lists to begin with.

ghost use Rattle.std.specs.Prelude.{◌≡◌, [], replicate, IfOk};

use mq_values::{Items, Memory};
use std::alloc::Global;

/// `count` empty lists.
pub fn empty_lists<T: Drop>(alloc: Global, count: u32) -> Result<Vec<Items<T>>, Memory>
    ensures { IfOk result (λ v. v.items ≡ replicate count []) }
{
    let mut lists = Vec::new(alloc);
    for _ in 0..count {
        lists.push(Items::new(alloc))?;
    }
    Ok(lists)
}
