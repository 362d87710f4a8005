//! The keys of cells.
ghost use Rattle.std.specs.Prelude.{◌≡◌, IfOk};
ghost use Rattle.std.specs.Map as spec;
ghost use Rattle.mq_ir.specs.Keys.{each_first};

use mq_values::{Items, Key, KeySet, Memory};
use std::alloc::Global;

/// The keys of these cells, in their order.
pub fn keys_of(alloc: Global, cells: &[(Key, Key)]) -> Result<Items<Key>, Memory>
    ensures { IfOk result (λ keys. keys ≡ spec.keys_of cells.now) }
{
    let mut keys = Vec::with_capacity(alloc, cells.len())?;
    for cell in cells {
        keys.push(cell.0.copy()?)?;
    }
    Ok(Items::from_vec(keys))
}

/// These keys, each once, in the order of their first.
pub fn each_once(alloc: Global, keys: &[Key]) -> Result<Items<Key>, Memory>
    ensures { IfOk result (λ once. once ≡ each_first keys.now) }
{
    let mut met = KeySet::new(alloc);
    let mut once = Items::new(alloc);
    'listing: for key in keys {
        if !met.has(key) {
            met.put(key.copy()?)?;
            once.push(key.copy()?)?;
        }
    }
    Ok(once)
}
