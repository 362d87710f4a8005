//! The numbers of a partition's cells.
ghost use Rattle.std.specs.Prelude.{◌≡◌, ◌<◌, true, None, Some, length, is_some, slice_index_or, IfOk, OnOk, OnErr};
ghost use Rattle.std.specs.List.{range_with_len};
ghost use Rattle.std.specs.List.Sorted.{IsStrictlySortedBy};
ghost use Rattle.mq_values.specs.Order.{cmp_key};
ghost use Rattle.mq_dim_index.specs.Places.{is_there, place_of, with_key};
ghost use Rattle.mq_ir.specs.Keys.{Tuple};
ghost use Rattle.mq_cells.specs.Numberings.{AreNumbered, Grows, Numbering, number_of};

use mq_dim_index::DimIndex;
use mq_values::{Key, Memory, Value};
use std::alloc::Global;
use std::marker::Model;

/// The keys of a partition's cells, each with the number of its cell, which stays while other keys come: what is kept of a
/// cell stands at its number, and need not be moved. Contracts see it as the keys and, beside each, its number.
#[derive(Drop)]
pub struct Numbers {
    index: DimIndex,
    numbers: Vec<u32>,
}

impl Model for Numbers {
    ghost use Rattle.mq_cells.specs.Numberings.{AreNumbered, Numbering};

    ghost Value = { Numbering };

    ghost view = { λ s. record { keys = s.index; numbers = s.numbers.items } };

    ghost invariant = { λ s. AreNumbered (record { keys = s.index; numbers = s.numbers.items }) };
}

impl Numbers {
    /// These keys, which ascend, numbered in their order. `Memory` comes too where there are more than a `u32` can number.
    pub fn new(alloc: Global, keys: &[Key]) -> Result<Numbers, Memory>
        requires { IsStrictlySortedBy cmp_key keys.now }
        ensures keys { IfOk result (λ cells. cells.keys ≡ keys.now) }
        ensures numbers { IfOk result (λ cells. cells.numbers ≡ range_with_len 0 (length keys.now)) }
    {
        let index = DimIndex::new(alloc, keys)?;
        let numbers = numbers_below(alloc, index.len())?;
        Ok(Numbers { index, numbers })
    }

    /// The same numbers once more.
    pub fn copy(&self, alloc: Global) -> Result<Numbers, Memory>
        ensures { IfOk result (λ cells. cells ≡ self.now) }
    {
        let index = DimIndex::new(alloc, self.index.keys())?;
        Ok(Numbers {
            index,
            numbers: self.numbers.to_vec(alloc)?,
        })
    }

    /// The keys.
    pub fn index(&self) -> &DimIndex
        ensures { result.now ≡ self.now.keys }
    {
        &self.index
    }

    /// Makes the map of one dimension: only what a range of keys costs depends on it.
    pub fn map_dimension(&mut self, alloc: Global, dimension: u32) -> Result<(), Memory>
        ensures { self.new ≡ self.old }
    {
        self.index.map_dimension(alloc, dimension)
    }

    /// The number of the cell at `key`, or `None` where there is none. The key is looked for at the place `near` and beside it
    /// first, and `near` is where it was found then.
    pub fn find(&self, key: &[Value], near: &mut u32) -> Option<u32>
        ensures found { result ≡ number_of self.now key.now }
        ensures told { AreNumbered self.now }
    {
        let Some(place) = self.index.place_near(key, *near) else {
            return None;
        };
        *near = place;
        Some(self.numbers[place as usize])
    }

    /// The number of the cell whose key stands at a place.
    pub fn at(&self, place: u32) -> u32
        requires { place < length self.now.keys }
        ensures found { (other : Tuple) → number_of self.now (slice_index_or self.now.keys place other) ≡ Some result }
        ensures told { AreNumbered self.now }
    {
        let _ = self.index.keys();
        self.numbers[place as usize]
    }

    /// The number of the cell at `key`; where there is none it comes, with a number that no cell had. After `Memory` the cells
    /// are as before.
    pub fn add(&mut self, key: &Key, near: &mut u32) -> Result<u32, Memory>
        ensures found { IfOk result (λ number. number_of self.new key.now ≡ Some number) }
        ensures keys { OnOk result (self.new.keys ≡ with_key self.old.keys key.now) }
        ensures grows { Grows self.old self.new }
        ensures there { is_some (number_of self.old key.now) ≡ true → self.new ≡ self.old }
        ensures err { OnErr result (self.new ≡ self.old) }
        ensures told { AreNumbered self.new }
    {
        let _ = self.index.keys();
        match self.find(key.as_slice(), near) {
            Some(number) => Ok(number),
            None => join(&mut self.index, &mut self.numbers, key, near),
        }
    }
}

// The numbers from 0, `count` of them.
fn numbers_below(alloc: Global, count: u32) -> Result<Vec<u32>, Memory>
    ensures { IfOk result (λ numbers. numbers.items ≡ range_with_len 0 count) }
{
    let mut numbers = Vec::with_capacity(alloc, count as usize)?;
    for number in 0..count {
        numbers.push(number)?;
    }
    Ok(numbers)
}

// The number of a cell that comes, behind all that there are. After `Memory` all is as before.
fn join(
    index: &mut DimIndex,
    numbers: &mut Vec<u32>,
    key: &Key,
    near: &mut u32,
) -> Result<u32, Memory>
    requires numbered { AreNumbered (record { keys = index.old; numbers = numbers.old.items }) }
    requires lacking { number_of (record { keys = index.old; numbers = numbers.old.items }) key.now ≡ None }
    ensures found { IfOk result (λ number. number_of (record { keys = index.new; numbers = numbers.new.items }) key.now ≡ Some number) }
    ensures keys { OnOk result (index.new ≡ with_key index.old key.now) }
    ensures grows { Grows (record { keys = index.old; numbers = numbers.old.items })
        (record { keys = index.new; numbers = numbers.new.items }) }
    ensures same_index { OnErr result (index.new ≡ index.old) }
    ensures same_numbers { OnErr result (numbers.new.items ≡ numbers.old.items) }
    ensures told { AreNumbered (record { keys = index.new; numbers = numbers.new.items }) }
{
    let number = index.len();
    index.insert(key.copy()?)?;
    // The new key is there: where it stands its number goes in.
    let place = place_in(index, key, number);
    match numbers.insert(place as usize, number) {
        Ok(()) => {
            *near = place;
            Ok(number)
        }
        Err(_) => {
            index.remove(key);
            Err(Memory)
        }
    }
}

// The place of a key that is there, looked for at `near` first.
fn place_in(index: &DimIndex, key: &Key, near: u32) -> u32
    requires { is_there index.now key.now ≡ true }
    ensures { place_of index.now key.now ≡ Some result }
{
    match index.place_near(key.as_slice(), near) {
        Some(place) => place,
        None => unreachable!(),
    }
}
