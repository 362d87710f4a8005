//! Keys in strictly ascending order, of which new ones go to the end, and those that go are noted.
ghost use Rattle.std.specs.Prelude.{◌≡◌, [], ◌∷◌, ◌++◌, true, false, IfOk};
ghost use Rattle.std.specs.BTreeSet.{insert_key};
ghost use Rattle.std.specs.List.Sorted.{IsStrictlySortedBy};
ghost use Rattle.std.specs.Ordering.{is_gt};
ghost use Rattle.mq_values.specs.Order.{cmp_key};
ghost use Rattle.mq_ir.specs.Keys.{is_among};
ghost use Rattle.mq_tables.specs.KeyOrder.{HoldsSame, Loses, LosesOne};
ghost use Rattle.mq_tables.specs.Standing.{standing};

use crate::numbered_key::NumberedKey;
use mq_values::Memory;
use std::alloc::Global;
use std::collections::BTreeSet;
use std::marker::Model;

// Which part of the keys is noted as gone at most.
const PART: usize = 8;

/// Keys, each greater than those before it. Those that go are noted, and taken out once they are many, so that the others
/// need not be moved for each of them. Contracts see the list of those that did not go.
#[derive(Drop)]
pub struct Ascending {
    keys: Vec<NumberedKey>,
    // Those of the keys that went.
    gone: BTreeSet<NumberedKey>,
}

impl Model for Ascending {
    ghost use Rattle.std.specs.Prelude.{List};
    ghost use Rattle.mq_ir.specs.Keys.{Tuple};
    ghost use Rattle.mq_tables.specs.Standing.{Ascend, standing};

    ghost Value = { List Tuple };

    ghost view = { λ ascending. standing ascending.gone.keys ascending.keys.items };

    ghost invariant = { λ ascending. Ascend ascending.gone.keys ascending.keys.items };
}

impl Ascending {
    /// No key. It takes no memory.
    pub fn empty(alloc: Global) -> Ascending
        ensures { result ≡ [] }
    {
        Ascending {
            keys: Vec::new(alloc),
            gone: BTreeSet::new(alloc),
        }
    }

    /// The same keys once more.
    pub fn copy(&self, alloc: Global) -> Result<Ascending, Memory>
        ensures { IfOk result (λ copy. copy ≡ self.now) }
    {
        Ok(Ascending {
            keys: copies(alloc, self.keys.as_slice())?,
            gone: self.gone.clone()?,
        })
    }

    /// Whether a key is among these. Where it is greater than all that came that takes one comparison.
    pub fn contains(&self, key: &NumberedKey) -> bool
        ensures { result ≡ is_among self.now key.now }
    {
        holds(self.keys.as_slice(), key) && !self.gone.contains(key)
    }

    /// The number of the row of a key, where it is among these. No answer rests on it.
    pub fn number_of(&self, key: &NumberedKey) -> Option<usize> {
        if self.gone.contains(key) {
            return None;
        }
        match self.keys.binary_search(key) {
            Ok(at) => Some(self.keys[at].number()),
            Err(_) => None,
        }
    }

    /// Puts a key to the end, where it is greater than all that came. Whether it did; else nothing is changed.
    pub fn push(&mut self, key: &NumberedKey) -> Result<bool, Memory>
        ensures new { IfOk result (λ done. done ≡ true → is_among self.old key.now ≡ false) }
        ensures put { IfOk result (λ done. done ≡ true → self.new ≡ self.old ++ key.now ∷ []) }
        ensures kept { IfOk result (λ done. done ≡ false → self.new ≡ self.old) }
    {
        if !comes_behind(self.keys.as_slice(), key) {
            return Ok(false);
        }
        self.keys.push(key.copy()?)?;
        Ok(true)
    }

    /// Moves other keys to the end, where they are greater than all that came. Whether it did; else nothing is changed.
    pub fn append(&mut self, others: &mut Ascending) -> Result<bool, Memory>
        ensures put { IfOk result (λ done. done ≡ true → self.new ≡ self.old ++ others.old) }
        ensures kept { IfOk result (λ done. done ≡ false → (self.new ≡ self.old) × (others.new ≡ others.old)) }
    {
        settle(&mut others.keys, &mut others.gone);
        if !all_come_behind(self.keys.as_slice(), others.keys.as_slice()) {
            return Ok(false);
        }
        self.keys.append(&mut others.keys)?;
        Ok(true)
    }

    /// The keys as an ordered set.
    pub fn to_set(&self, alloc: Global) -> Result<BTreeSet<NumberedKey>, Memory>
        ensures { IfOk result (λ keys. keys.keys ≡ self.now) }
    {
        let mut set = ordered(alloc, self.keys.as_slice())?;
        keep_standing(&mut set, &self.gone);
        Ok(set)
    }

    /// Takes keys away: some of them one by one, each found by halves, many of them in one pass, where there is memory for an
    /// ordered set of those. Whether it did; else nothing is changed.
    pub fn lose(&mut self, gone: &[NumberedKey]) -> bool
        ensures lost { result ≡ true → Loses self.old gone.now self.new }
        ensures kept { result ≡ false → self.new ≡ self.old }
    {
        if gone.len() <= self.keys.len() / PART {
            lose_each(self, gone);
            self.settle_many();
            return true;
        }
        let Ok(gone) = set_of(*self.keys.allocator(), gone) else {
            return false;
        };
        self.lose_all(&gone);
        true
    }

    // Takes keys away in one pass.
    fn lose_all(&mut self, gone: &BTreeSet<NumberedKey>)
        ensures { Loses self.old gone.now.keys self.new }
    {
        settle(&mut self.keys, &mut self.gone);
        keep_others(&mut self.keys, gone);
    }

    // Takes a key away, where it is among these: it is noted, or taken out, where there is no memory for that.
    fn lose_one(&mut self, key: &NumberedKey)
        ensures { LosesOne key.now self.old self.new }
    {
        if !self.contains(key) {
            return;
        }
        if !put_copy(&mut self.gone, key) {
            take_out(&mut self.keys, key);
        }
    }

    // Takes the keys that went out, once they are many.
    fn settle_many(&mut self)
        ensures { self.new ≡ self.old }
    {
        if self.gone.len() > self.keys.len() / PART {
            settle(&mut self.keys, &mut self.gone);
        }
    }
}

fn copies(alloc: Global, keys: &[NumberedKey]) -> Result<Vec<NumberedKey>, Memory>
    ensures { IfOk result (λ copies. copies.items ≡ keys.now) }
{
    let mut copies = Vec::with_capacity(alloc, keys.len())?;
    'keys: for key in keys {
        copies.push(key.copy()?)?;
    }
    Ok(copies)
}

// Whether a key is among ascending ones. Where it is greater than all of them that takes one comparison.
fn holds(keys: &[NumberedKey], key: &NumberedKey) -> bool
    requires { IsStrictlySortedBy cmp_key keys.now }
    ensures { result ≡ is_among keys.now key.now }
{
    !comes_behind(keys, key) && is_found(keys, key)
}

// Whether a key is greater than the greatest of ascending ones.
fn comes_behind(keys: &[NumberedKey], key: &NumberedKey) -> bool
    requires { IsStrictlySortedBy cmp_key keys.now }
    ensures { result ≡ true → IsStrictlySortedBy cmp_key (keys.now ++ key.now ∷ []) }
{
    match keys.last() {
        None => true,
        Some(greatest) => is_greater(key, greatest),
    }
}

fn is_greater(key: &NumberedKey, other: &NumberedKey) -> bool
    ensures { result ≡ is_gt (cmp_key key.now other.now) }
{
    key.cmp(other).is_gt()
}

// Whether the least of ascending keys is greater than the greatest of others.
fn all_come_behind(keys: &[NumberedKey], others: &[NumberedKey]) -> bool
    requires these { IsStrictlySortedBy cmp_key keys.now }
    requires those { IsStrictlySortedBy cmp_key others.now }
    ensures { result ≡ true → IsStrictlySortedBy cmp_key (keys.now ++ others.now) }
{
    match others.first() {
        None => true,
        Some(least) => comes_behind(keys, least),
    }
}

// Whether a key is among ascending ones, by halves.
fn is_found(keys: &[NumberedKey], key: &NumberedKey) -> bool
    requires { IsStrictlySortedBy cmp_key keys.now }
    ensures { result ≡ is_among keys.now key.now }
{
    keys.binary_search(key).is_ok()
}

// Ascending keys as an ordered set.
fn ordered(alloc: Global, keys: &[NumberedKey]) -> Result<BTreeSet<NumberedKey>, Memory>
    requires { IsStrictlySortedBy cmp_key keys.now }
    ensures { IfOk result (λ set. set.keys ≡ keys.now) }
{
    let mut set: BTreeSet<NumberedKey> = BTreeSet::new(alloc);
    'keys: for key in keys {
        set.insert(key.copy()?)?;
    }
    Ok(set)
}

/// Keys as an ordered set.
pub fn set_of(alloc: Global, keys: &[NumberedKey]) -> Result<BTreeSet<NumberedKey>, Memory>
    ensures { IfOk result (λ set. HoldsSame keys.now set.keys) }
{
    let mut set: BTreeSet<NumberedKey> = BTreeSet::new(alloc);
    'keys: for key in keys {
        set.insert(key.copy()?)?;
    }
    Ok(set)
}

// Keeps the keys that are not among those that are gone.
fn keep_others(keys: &mut Vec<NumberedKey>, gone: &BTreeSet<NumberedKey>)
    ensures left { keys.new.items ≡ standing gone.now.keys keys.old.items }
    ensures ascending { IsStrictlySortedBy cmp_key keys.old.items → IsStrictlySortedBy cmp_key keys.new.items }
{
    keys.retain(|key| !gone.contains(key));
}

// Takes the keys that went out of ascending ones.
fn settle(keys: &mut Vec<NumberedKey>, gone: &mut BTreeSet<NumberedKey>)
    ensures left { keys.new.items ≡ standing gone.old.keys keys.old.items }
    ensures none { gone.new.keys ≡ [] }
    ensures ascending { IsStrictlySortedBy cmp_key keys.old.items → IsStrictlySortedBy cmp_key keys.new.items }
{
    if gone.is_empty() {
        return;
    }
    keep_others(keys, gone);
    gone.clear();
}

// Takes a key out of ascending ones, where it is among them.
fn take_out(keys: &mut Vec<NumberedKey>, key: &NumberedKey)
    requires { IsStrictlySortedBy cmp_key keys.old.items }
    ensures lost { LosesOne key.now keys.old.items keys.new.items }
    ensures ascending { IsStrictlySortedBy cmp_key keys.new.items }
{
    if let Ok(at) = keys.binary_search(key) {
        keys.remove(at);
    }
}

// Takes keys away, one by one.
fn lose_each(keys: &mut Ascending, gone: &[NumberedKey])
    ensures { Loses keys.old gone.now keys.new }
{
    'gone: for key in gone {
        keys.lose_one(key);
    }
}

// Puts a key to others, where there is memory for it. Whether it did; else nothing is changed.
fn put_copy(keys: &mut BTreeSet<NumberedKey>, key: &NumberedKey) -> bool
    ensures put { result ≡ true → keys.new.keys ≡ insert_key cmp_key keys.old.keys key.now }
    ensures kept { result ≡ false → keys.new.keys ≡ keys.old.keys }
{
    match key.copy() {
        Ok(copy) => keys.insert(copy).is_ok(),
        Err(_) => false,
    }
}

// Keeps the keys of an ordered set that did not go.
fn keep_standing(keys: &mut BTreeSet<NumberedKey>, gone: &BTreeSet<NumberedKey>)
    ensures { keys.new.keys ≡ standing gone.now.keys keys.old.keys }
{
    keys.retain(|key| !gone.contains(key));
}
