//! Tuples of values.
ghost use Rattle.std.specs.Prelude.{◌≡◌, [], ◌∷◌, slice_set, IfOk, OnErr, MatchResult};
ghost use Rattle.std.specs.Hash as fed;
ghost use Rattle.std.specs.Hash.{items_Alike};
ghost use Rattle.std.proofs.Common.{rules};
ghost use Rattle.std.specs.Ordering.{as_partial_cmp};
ghost use Rattle.std.specs.Cmp.{partial_equiv_from_equiv, partial_order_from_agreeing_total};
ghost use Rattle.std.specs.Cmp.Rules.{hashing};
ghost use Rattle.std.specs.Cmp.Lexicographic.{pointwise, lists_equiv, lists_ties, lists_per};
ghost use Rattle.mq_values.specs.Keys.{items_behind};
ghost use Rattle.mq_values.specs.Order.{cmp_key, cmp_value};
ghost use Rattle.mq_values.specs.OrderLaws.{key_total, values_equiv, values_tie};
ghost use Rattle.mq_values.specs.contracts.value.ValuePartialEq.TheImpl.{ghosts as same};
ghost use Rattle.mq_values.specs.contracts.value.ValueHash.TheImpl.{ghosts as hashed};

use crate::items::Items;
use crate::memory::Memory;
use crate::value::Value;
use std::alloc::{AllocError, Global};
use std::cmp::Ordering;
use std::fmt;
use std::fmt::{Debug, Formatter, Write};
use std::hash::{Hash, Hasher};
use std::marker::Model;
use std::sync::Arc;

/// A tuple of values that many hold at once, as a row, the key of a partition or of a cell. A copy of it copies no value.
/// Contracts see it as the list of its values.
#[derive(Drop)]
pub struct Key {
    items: Behind,
}

// So many values at most stand in one piece of memory; a longer tuple takes two.
const LONGEST_IN_ONE_PIECE: usize = 3;

#[derive(Drop)]
enum Behind {
    Nothing,
    One(Arc<[Value; 1]>),
    Two(Arc<[Value; 2]>),
    Three(Arc<[Value; 3]>),
    Many(Arc<Vec<Value>>),
}

impl Model for Key {
    ghost use Rattle.std.specs.Prelude.{List};
    ghost use Rattle.mq_values.specs.Keys.{items_behind};
    ghost use Rattle.mq_values.specs.declared.value.Value.{Value as CellValue};

    ghost Value = { List CellValue };

    ghost view = { λ key. items_behind key.items };
}

impl Key {
    /// The empty tuple. It takes no memory.
    pub fn empty() -> Key
        ensures { result ≡ [] }
    {
        Key {
            items: Behind::Nothing,
        }
    }

    pub fn as_slice(&self) -> &[Value]
        ensures { result.now ≡ self.now }
    {
        match &self.items {
            Behind::Nothing => &[],
            Behind::One(items) => items.as_slice(),
            Behind::Two(items) => items.as_slice(),
            Behind::Three(items) => items.as_slice(),
            Behind::Many(items) => items.as_slice(),
        }
    }

    /// The tuple of `items`, to be shared from now on.
    pub fn new(alloc: Global, items: Items<Value>) -> Result<Key, Memory>
        ensures { IfOk result (λ key. key ≡ items) }
    {
        Ok(Key {
            items: put_behind(alloc, items.into_vec())?,
        })
    }

    /// The tuple of one value, to be shared from now on.
    pub fn one(alloc: Global, item: Value) -> Result<Key, Memory>
        ensures { IfOk result (λ key. key ≡ item ∷ []) }
    {
        Ok(Key {
            items: Behind::One(Arc::new(alloc, [item])?),
        })
    }

    /// The same tuple once more. Its values are not copied.
    pub fn copy(&self) -> Result<Key, Memory>
        ensures { IfOk result (λ key. key ≡ self.now) }
    {
        let items = match &self.items {
            Behind::Nothing => Behind::Nothing,
            Behind::One(items) => Behind::One(Arc::try_clone(items)?),
            Behind::Two(items) => Behind::Two(Arc::try_clone(items)?),
            Behind::Three(items) => Behind::Three(Arc::try_clone(items)?),
            Behind::Many(items) => Behind::Many(Arc::try_clone(items)?),
        };
        Ok(Key { items })
    }

    /// Puts `item` in place of the one at `at`, counted from 0, where no other holds the tuple; behind the end it is
    /// dropped. Where others hold the tuple, it is handed back and nothing is changed. It takes no memory.
    pub fn set_if_sole(&mut self, at: usize, item: Value) -> Result<(), Value>
        ensures put { MatchResult result (λ _. self.new ≡ slice_set self.old at item) (λ back. back ≡ item) }
        ensures same { OnErr result (self.new ≡ self.old) }
    {
        match &mut self.items {
            Behind::Nothing => return Ok(()),
            Behind::One(items) => {
                if let Some(items) = Arc::get_mut(items) {
                    put_at(items.as_mut_slice(), at, item);
                    return Ok(());
                }
            }
            Behind::Two(items) => {
                if let Some(items) = Arc::get_mut(items) {
                    put_at(items.as_mut_slice(), at, item);
                    return Ok(());
                }
            }
            Behind::Three(items) => {
                if let Some(items) = Arc::get_mut(items) {
                    put_at(items.as_mut_slice(), at, item);
                    return Ok(());
                }
            }
            Behind::Many(items) => {
                if let Some(items) = Arc::get_mut(items) {
                    put_at(items.as_mut_slice(), at, item);
                    return Ok(());
                }
            }
        }
        Err(item)
    }
}

impl Debug for Key {
    fn fmt<W: Write>(&self, f: &mut Formatter<W>) -> fmt::Result {
        Debug::fmt(&self.as_slice(), f)
    }
}

impl Clone for Key {
    ghost is_clone = { λ a b. b ≡ a };

    fn clone(&self) -> Result<Key, AllocError> {
        match self.copy() {
            Ok(copy) => Ok(copy),
            Err(_) => Err(AllocError),
        }
    }
}

impl PartialEq for Key {
    ghost eq = { pointwise same.eq };

    ghost laws = { lists_per (partial_equiv_from_equiv values_equiv) };

    fn eq(&self, other: &Key) -> bool {
        self.as_slice() == other.as_slice()
    }
}

impl Eq for Key {
    ghost laws = { lists_equiv values_equiv };
}

impl PartialOrd for Key {
    ghost use Rattle.std.specs.Prelude.{refl};

    ghost partial_cmp = { as_partial_cmp cmp_key };

    ghost laws = { partial_order_from_agreeing_total cmp_key key_total (λ a b. refl) (lists_ties cmp_value values_tie) };

    fn partial_cmp(&self, other: &Key) -> Option<Ordering> {
        Some(self.cmp(other))
    }
}

impl Ord for Key {
    ghost use Rattle.std.specs.Prelude.{refl};

    ghost cmp = { cmp_key };

    ghost total = { key_total };

    ghost matches_partial_cmp = { λ a b. refl };

    ghost matches_eq = { lists_ties cmp_value values_tie };

    fn cmp(&self, other: &Key) -> Ordering {
        self.as_slice().cmp(other.as_slice())
    }
}

impl Hash for Key {
    ghost hash_input = { fed.slice hashed.hash_input };

    ghost respects_eq = { (items_Alike {F = hashed.hash_input} (record { fed = Prim.search (hashing, rules) })).fed };

    fn hash<H: Hasher>(&self, state: &mut H) {
        self.as_slice().hash(state);
    }
}

// The values, to be shared.
fn put_behind(alloc: Global, items: Vec<Value>) -> Result<Behind, Memory>
    ensures { IfOk result (λ b. items_behind b ≡ items.items) }
{
    if items.len() > LONGEST_IN_ONE_PIECE {
        return Ok(Behind::Many(Arc::new(alloc, items)?));
    }
    let mut items = items;
    let Some(last) = items.pop() else {
        return Ok(Behind::Nothing);
    };
    let Some(before) = items.pop() else {
        return Ok(Behind::One(Arc::new(alloc, [last])?));
    };
    match items.pop() {
        Some(first) => Ok(Behind::Three(Arc::new(alloc, [first, before, last])?)),
        None => Ok(Behind::Two(Arc::new(alloc, [before, last])?)),
    }
}

// Puts `item` in place of the one at `at`; behind the end it is dropped.
fn put_at(items: &mut [Value], at: usize, item: Value)
    ensures { items.new ≡ slice_set items.old at item }
{
    if at < items.len() {
        items[at] = item;
    }
}
