//! What goes by names, in order of creation.
ghost use Rattle.std.specs.Prelude.{◌≡◌, [], ◌∷◌, ◌++◌, false, length, OnOk, OnErr};
ghost use Rattle.std.specs.Option.{option_copied};
ghost use Rattle.mq_ir.specs.NamedItems as spec;

use indexmap::IndexMap;
use mq_values::{Memory, Words};
use std::alloc::Global;
use std::marker::Model;

/// What goes by a name.
pub trait Called {
    ghost use Rattle.std.specs.Prelude.{◌≡◌, ℕ, List};

    /// The name that it goes by.
    ghost name_of: { Self → List ℕ };

    fn name(&self) -> &Words
        ensures { result.now ≡ name_of self.now };
}

/// Items that go by names, no two by the same one, in order of creation. An item is found by the hash of its name.
/// Contracts see the list of the items.
#[derive(Drop)]
pub struct ByName<T: Called> {
    items: IndexMap<String, T>,
}

impl<T: Called> Model for ByName<T> {
    ghost use Rattle.std.specs.Prelude.{List};
    ghost use Rattle.std.specs.Coded.{coded_list};
    ghost use Rattle.indexmap.specs.IndexMap.{values};
    ghost use Rattle.mq_ir.specs.NamedItems.{HaveTheirNames};

    ghost Value = { List T };

    ghost coded = { coded_list T.code };

    ghost view = { λ named. values named.items };

    ghost invariant = { λ named. HaveTheirNames T.name_of named.items.entries };
}

impl<T: Called> ByName<T> {
    /// No items. It takes no memory.
    pub fn new(alloc: Global) -> ByName<T>
        ensures { result ≡ [] }
    {
        ByName {
            items: IndexMap::new(alloc),
        }
    }

    /// The item of this name, or `None` where there is none.
    pub fn get(&self, name: &str) -> Option<&T>
        ensures { option_copied result ≡ spec.item_of T.name_of self.now name.now }
    {
        self.items.get(name)
    }

    /// Whether there is an item of this name.
    pub fn has(&self, name: &str) -> bool
        ensures { result ≡ spec.has_name T.name_of self.now name.now }
    {
        self.items.contains_key(name)
    }

    pub fn len(&self) -> usize
        ensures { result ≡ length self.now }
    {
        self.items.len()
    }

    /// The items, in order of creation.
    pub fn as_slice(&self) -> &[T]
        ensures { result.now ≡ self.now }
    {
        self.items.values().as_slice()
    }
}

impl<T: Called + Drop> ByName<T> {
    /// Puts an item behind the others, whose name none of them has. After `Memory` the items are as before.
    pub fn put(&mut self, item: T) -> Result<(), Memory>
        requires { spec.has_name T.name_of self.old (T.name_of item) ≡ false }
        ensures ok { OnOk result (self.new ≡ self.old ++ item ∷ []) }
        ensures err { OnErr result (self.new ≡ self.old) }
    {
        let name = String::from_str(*self.items.allocator(), item.name().as_str())?;
        self.items.insert(name, item)?;
        Ok(())
    }

    /// Removes the item of this name. The others keep their order. It takes no memory.
    pub fn remove(&mut self, name: &str)
        ensures { self.new ≡ spec.others T.name_of self.old name.now }
    {
        self.items.shift_remove(name);
    }
}
