//! Where a key stands among ascending keys.
ghost use Rattle.std.specs.Prelude.{IfOk, IfErr};
ghost use Rattle.std.specs.List.Sorted.{IsStrictlySortedBy};
ghost use Rattle.mq_values.specs.Order.{cmp_key};
ghost use Rattle.mq_dim_index.specs.Places.{FitsAt, StandsAt};

use mq_values::{Key, Value};

/// How many keys there may be: a `u32` numbers each.
pub const MAX_KEYS: usize = u32::MAX as usize;

// The place at which `key` stands, or else the one at which it would.
pub fn search(keys: &[Key], key: &[Value]) -> Result<usize, usize>
    requires { IsStrictlySortedBy cmp_key keys.now }
    ensures found { IfOk result (StandsAt keys.now key.now) }
    ensures absent { IfErr result (FitsAt keys.now key.now) }
{
    keys.binary_search_by(|k| k.as_slice().cmp(key))
}
