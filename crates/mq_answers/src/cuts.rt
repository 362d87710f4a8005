//! Lists that workers share, cut into parts.
ghost use Rattle.std.specs.Prelude.{◌≡◌, ◌<◌, ◌≤◌, length, IfOk};
ghost use Rattle.mq_claims.specs.declared.limits.TheConstants.{MAX_PIECES};
ghost use Rattle.mq_answers.specs.Cuts.{joined};

use crate::workers::Workers;
use mq_values::{Items, Memory};
use std::alloc::Global;

/// How many parts there are for each worker, so that one with little to do helps with what is left.
pub const PARTS_OF_WORKER: usize = 8;

/// The items in order, cut into parts of about the same length: so many for each worker, but no more than there are items.
pub fn cut<T: Drop>(
    alloc: Global,
    items: Items<T>,
    workers: Workers,
) -> Result<Items<Items<T>>, Memory>
    ensures few { IfOk result (λ parts. length parts ≤ MAX_PIECES) }
    ensures same { IfOk result (λ parts. joined parts ≡ items) }
{
    let mut parts = Items::new(alloc);
    let mut left = items.into_vec();
    if left.is_empty() {
        return Ok(parts);
    }
    let mut count = part_count(left.len(), workers);
    'cuts: while count > 1 {
        let last = left.split_off(last_part(left.len(), count))?;
        parts.put_first(Items::from_vec(last))?;
        count -= 1;
    }
    parts.put_first(Items::from_vec(left))?;
    Ok(parts)
}

// Where the last of so many parts of a list begins.
fn last_part(length: usize, parts: usize) -> usize
    requires { 1 < parts }
    ensures { result ≤ length }
{
    length.saturating_sub(length / parts)
}

// How many parts so many items are cut into.
fn part_count(items: usize, workers: Workers) -> usize
    requires { 0 < items }
    ensures { (0 < result) × (result ≤ MAX_PIECES) }
{
    let most = PARTS_OF_WORKER * workers.count() as usize;
    if items < most { items } else { most }
}
