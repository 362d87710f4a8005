//! Keys that nobody else holds.
ghost use Rattle.std.specs.Prelude.{◌≡◌, ◌++◌, [], true, false, not, IfOk, OnOk};
ghost use Rattle.mq_ir.specs.Keys.{is_among};
ghost use Rattle.mq_tables.specs.KeyOrder.{HoldsBoth, Loses, PutsTo};

use crate::ascending::Ascending;
use crate::numbered_key::NumberedKey;
use mq_values::Memory;
use std::alloc::Global;
use std::collections::BTreeSet;
use std::marker::Model;

/// Keys that nobody else holds: those that came in ascending order, and the others. Contracts see them as the list of the
/// keys, in an order that nothing rests on.
#[derive(Drop)]
pub struct OwnKeys {
    last: BTreeSet<NumberedKey>,
    behind: Ascending,
}

impl Model for OwnKeys {
    ghost use Rattle.std.specs.Prelude.{List, ◌++◌};
    ghost use Rattle.mq_ir.specs.Keys.{Tuple};

    ghost Value = { List Tuple };

    ghost view = { λ own. own.last.keys ++ own.behind };
}

impl OwnKeys {
    /// No key. It takes no memory.
    pub fn empty(alloc: Global) -> OwnKeys
        ensures { result ≡ [] }
    {
        OwnKeys {
            last: BTreeSet::new(alloc),
            behind: Ascending::empty(alloc),
        }
    }

    /// Whether a key is among these. It takes no memory.
    pub fn contains(&self, key: &NumberedKey) -> bool
        ensures { result ≡ is_among self.now key.now }
    {
        self.last.contains(key) || self.behind.contains(key)
    }

    /// The number of the row of a key, where it is among these. No answer rests on it.
    pub fn number_of(&self, key: &NumberedKey) -> Option<usize> {
        match self.last.get(key) {
            Some(found) => Some(found.number()),
            None => self.behind.number_of(key),
        }
    }

    /// Puts a key to these, unless it is among them. Whether it was put.
    pub fn put(&mut self, key: &NumberedKey) -> Result<bool, Memory>
        ensures new { IfOk result (λ new. new ≡ not (is_among self.old key.now)) }
        ensures put { IfOk result (λ new. new ≡ true → PutsTo key.now self.old self.new) }
    {
        if self.last.contains(key) {
            return Ok(false);
        }
        if self.behind.push(key)? {
            return Ok(true);
        }
        if self.behind.contains(key) {
            return Ok(false);
        }
        self.last.insert(key.copy()?)?;
        Ok(true)
    }

    /// Puts others to these. After `Memory` some of them may be here.
    pub fn join(&mut self, alloc: Global, others: OwnKeys) -> Result<(), Memory>
        ensures { OnOk result (HoldsBoth others self.old self.new) }
    {
        let (mut last, mut behind) = others.into_parts();
        self.last.append(&mut last)?;
        if self.behind.append(&mut behind)? {
            return Ok(());
        }
        self.last.append(&mut behind.to_set(alloc)?)?;
        Ok(())
    }

    /// Takes keys away. Whether it did; else nothing is changed.
    pub fn lose(&mut self, keys: &[NumberedKey]) -> bool
        ensures lost { result ≡ true → Loses self.old keys.now self.new }
        ensures kept { result ≡ false → self.new ≡ self.old }
    {
        if !self.behind.lose(keys) {
            return false;
        }
        take_away(&mut self.last, keys);
        true
    }

    /// The same keys once more.
    pub fn copy(&self, alloc: Global) -> Result<OwnKeys, Memory>
        ensures { IfOk result (λ copy. copy ≡ self.now) }
    {
        Ok(OwnKeys {
            last: self.last.clone()?,
            behind: self.behind.copy(alloc)?,
        })
    }

    fn into_parts(self) -> (BTreeSet<NumberedKey>, Ascending)
        ensures { result.0.keys ++ result.1 ≡ self }
    {
        (self.last, self.behind)
    }
}

// Takes keys out of others.
fn take_away(keys: &mut BTreeSet<NumberedKey>, others: &[NumberedKey])
    ensures { Loses keys.old.keys others.now keys.new.keys }
{
    'keys: for key in others {
        keys.remove(key);
    }
}
