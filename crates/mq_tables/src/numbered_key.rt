//! Keys of rows that tell where their row stands.
ghost use Rattle.std.specs.Prelude.{◌≡◌, IfOk};
ghost use Rattle.std.specs.Ordering.{as_partial_cmp};
ghost use Rattle.std.specs.Cmp.{partial_equiv_from_equiv, partial_order_from_agreeing_total};
ghost use Rattle.std.specs.Cmp.Lexicographic.{lists_equiv, lists_per, lists_ties, pointwise};
ghost use Rattle.mq_values.specs.Order.{cmp_key, cmp_value};
ghost use Rattle.mq_values.specs.OrderLaws.{key_total, values_equiv, values_tie};
ghost use Rattle.mq_values.specs.contracts.value.ValuePartialEq.TheImpl.{ghosts as same};

use mq_values::{Key, Memory};
use std::alloc::AllocError;
use std::cmp::Ordering;
use std::marker::Model;

/// The key of a row with the row's number, by which `RowNumbers` tells its place. Contracts see it as the key: no answer rests
/// on the number.
#[derive(Drop)]
pub struct NumberedKey {
    key: Key,
    number: usize,
}

impl Model for NumberedKey {
    ghost use Rattle.mq_ir.specs.Keys.{Tuple};

    ghost Value = { Tuple };

    ghost view = { λ numbered. numbered.key };
}

impl NumberedKey {
    pub fn new(key: Key, number: usize) -> NumberedKey
        ensures { result ≡ key }
    {
        NumberedKey { key, number }
    }

    /// The number of the row.
    pub fn number(&self) -> usize {
        self.number
    }

    /// The key.
    pub fn key(&self) -> &Key
        ensures { result.now ≡ self.now }
    {
        &self.key
    }

    /// The key without the number.
    pub fn into_key(self) -> Key
        ensures { result ≡ self }
    {
        self.key
    }

    /// The same key of the same row once more. Its values are not copied.
    pub fn copy(&self) -> Result<NumberedKey, Memory>
        ensures { IfOk result (λ copy. copy ≡ self.now) }
    {
        Ok(NumberedKey {
            key: self.key.copy()?,
            number: self.number,
        })
    }
}

impl Clone for NumberedKey {
    ghost is_clone = { λ a b. b ≡ a };

    fn clone(&self) -> Result<NumberedKey, AllocError> {
        match self.copy() {
            Ok(copy) => Ok(copy),
            Err(_) => Err(AllocError),
        }
    }
}

impl PartialEq for NumberedKey {
    ghost eq = { pointwise same.eq };

    ghost laws = { lists_per (partial_equiv_from_equiv values_equiv) };

    fn eq(&self, other: &NumberedKey) -> bool {
        self.key == other.key
    }
}

impl Eq for NumberedKey {
    ghost laws = { lists_equiv values_equiv };
}

impl PartialOrd for NumberedKey {
    ghost use Rattle.std.specs.Prelude.{refl};

    ghost partial_cmp = { as_partial_cmp cmp_key };

    ghost laws = { partial_order_from_agreeing_total cmp_key key_total (λ a b. refl) (lists_ties cmp_value values_tie) };

    fn partial_cmp(&self, other: &NumberedKey) -> Option<Ordering> {
        Some(self.cmp(other))
    }
}

impl Ord for NumberedKey {
    ghost use Rattle.std.specs.Prelude.{refl};

    ghost cmp = { cmp_key };

    ghost total = { key_total };

    ghost matches_partial_cmp = { λ a b. refl };

    ghost matches_eq = { lists_ties cmp_value values_tie };

    fn cmp(&self, other: &NumberedKey) -> Ordering {
        self.key.cmp(&other.key)
    }
}
