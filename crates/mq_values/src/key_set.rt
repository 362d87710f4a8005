//! Keys to be looked up.
ghost use Rattle.std.specs.Prelude.{◌≡◌, [], IfOk, OnOk, OnErr};
ghost use Rattle.std.specs.BTreeSet.{insert_key};
ghost use Rattle.mq_values.specs.Order.{cmp_key};
ghost use Rattle.mq_values.specs.KeySets.{HasKeysOf, is_among};

use crate::key::Key;
use crate::memory::Memory;
use std::alloc::Global;
use std::collections::BTreeSet;
use std::marker::Model;

/// Keys, each once. Contracts see them as a list.
#[derive(Drop)]
pub struct KeySet {
    keys: BTreeSet<Key>,
}

impl Model for KeySet {
    ghost use Rattle.std.specs.Prelude.{List};
    ghost use Rattle.mq_values.specs.KeySets.{Tuple};

    ghost Value = { List Tuple };

    ghost view = { λ set. set.keys.keys };
}

impl KeySet {
    /// No keys. It takes no memory.
    pub fn new(alloc: Global) -> KeySet
        ensures { result ≡ [] }
    {
        KeySet {
            keys: BTreeSet::new(alloc),
        }
    }

    /// Whether `key` is among these.
    pub fn has(&self, key: &Key) -> bool
        ensures { result ≡ is_among self.now key.now }
    {
        self.keys.contains(key)
    }

    /// Puts `key` to these; where it is among them already, nothing changes. After `Memory` they are as before.
    pub fn put(&mut self, key: Key) -> Result<(), Memory>
        ensures ok { OnOk result (self.new ≡ insert_key cmp_key self.old key) }
        ensures err { OnErr result (self.new ≡ self.old) }
    {
        self.keys.insert(key)?;
        Ok(())
    }
}

/// The set of these keys.
pub fn set_of(alloc: Global, keys: &[Key]) -> Result<KeySet, Memory>
    ensures { IfOk result (λ set. HasKeysOf keys.now set) }
{
    let mut set = KeySet::new(alloc);
    for key in keys {
        set.put(key.copy()?)?;
    }
    Ok(set)
}
