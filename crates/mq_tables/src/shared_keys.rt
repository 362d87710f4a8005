//! Keys that several tables may hold at once, of which each goes its own way once it changes them.
ghost use Rattle.std.specs.Prelude.{◌≡◌, [], true, false, IfOk, OnOk};
ghost use Rattle.mq_ir.specs.Keys.{is_among};
ghost use Rattle.mq_tables.specs.KeyOrder.{HoldsBoth, Loses};

use crate::numbered_key::NumberedKey;
use crate::own_keys::OwnKeys;
use mq_values::Memory;
use std::alloc::Global;
use std::marker::Model;
use std::sync::Arc;

/// Keys that others may hold too: a copy of them copies no key, and the first change of them, where others do, copies all.
/// Contracts see them as the list of the keys, in an order that nothing rests on.
#[derive(Drop)]
pub struct SharedKeys {
    keys: Option<Arc<OwnKeys>>,
}

impl Model for SharedKeys {
    ghost use Rattle.std.specs.Prelude.{List};
    ghost use Rattle.mq_ir.specs.Keys.{Tuple};
    ghost use Rattle.mq_tables.specs.SharedKeys.{keys_behind};

    ghost Value = { List Tuple };

    ghost view = { λ shared. keys_behind shared.keys };
}

impl SharedKeys {
    /// No key. It takes no memory.
    pub fn empty() -> SharedKeys
        ensures { result ≡ [] }
    {
        SharedKeys { keys: None }
    }

    /// Whether a key is among these. It takes no memory.
    pub fn contains(&self, key: &NumberedKey) -> bool
        ensures { result ≡ is_among self.now key.now }
    {
        match &self.keys {
            Some(keys) => keys.contains(key),
            None => false,
        }
    }

    /// The number of the row of a key, where it is among these. No answer rests on it.
    pub fn number_of(&self, key: &NumberedKey) -> Option<usize> {
        match &self.keys {
            Some(keys) => keys.number_of(key),
            None => None,
        }
    }

    /// The same keys once more. No key is copied.
    pub fn copy(&self) -> Result<SharedKeys, Memory>
        ensures { IfOk result (λ copy. copy ≡ self.now) }
    {
        match &self.keys {
            Some(keys) => Ok(SharedKeys {
                keys: Some(Arc::try_clone(keys)?),
            }),
            None => Ok(SharedKeys::empty()),
        }
    }

    /// Puts others to these. After `Memory` some of them may be here, or none of these.
    pub fn join(&mut self, alloc: Global, others: OwnKeys) -> Result<(), Memory>
        ensures { OnOk result (HoldsBoth others self.old self.new) }
    {
        match self.keys.take() {
            Some(keys) => {
                let mut own = unshared(alloc, keys)?;
                own.join(alloc, others)?;
                self.keys = Some(Arc::new(alloc, own)?);
            }
            None => self.keys = Some(Arc::new(alloc, others)?),
        }
        Ok(())
    }

    /// Takes keys away, where nobody else holds these. Whether it did; else nothing is changed.
    pub fn lose(&mut self, gone: &[NumberedKey]) -> bool
        ensures lost { result ≡ true → Loses self.old gone.now self.new }
        ensures kept { result ≡ false → self.new ≡ self.old }
    {
        match &mut self.keys {
            Some(keys) => lose_behind(keys, gone),
            None => false,
        }
    }
}

// The keys behind a pointer, which are copied where others hold them too.
fn unshared(alloc: Global, keys: Arc<OwnKeys>) -> Result<OwnKeys, Memory>
    ensures { IfOk result (λ own. own ≡ keys.value) }
{
    match Arc::try_unwrap(keys) {
        Ok(own) => Ok(own),
        Err(shared) => shared.copy(alloc),
    }
}

// Takes keys away behind a pointer, where nobody else has it.
fn lose_behind(keys: &mut Arc<OwnKeys>, gone: &[NumberedKey]) -> bool
    ensures lost { result ≡ true → Loses keys.old.value gone.now keys.new.value }
    ensures kept { result ≡ false → keys.new.value ≡ keys.old.value }
{
    match Arc::get_mut(keys) {
        Some(own) => own.lose(gone),
        None => false,
    }
}
