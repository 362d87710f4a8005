//! The numbers of rows, by which a key tells where its row stands.
use crate::numbered_key::NumberedKey;
use mq_values::Memory;
use std::alloc::Global;

// How many numbers are put among those that went one by one at most.
const FEW: usize = 32;

// How many times a list can be halved.
const HALVES: u32 = 64;

/// The numbers of the rows of a table: they ascend, and one that was given is not given again before all rows are gone. No
/// answer rests on them: what stands at a place that they tell is asked for its key.
#[derive(Drop)]
pub struct RowNumbers {
    // The numbers that were given to rows that went, in order. After want of memory some are missing.
    gone: Vec<usize>,
    next: usize,
}

impl RowNumbers {
    /// The numbers of so many rows.
    pub fn of(alloc: Global, count: usize) -> RowNumbers {
        RowNumbers {
            gone: Vec::new(alloc),
            next: count,
        }
    }

    /// The number of the row that comes next.
    pub fn next(&self) -> usize {
        self.next
    }

    /// The same numbers once more.
    pub fn copy(&self, alloc: Global) -> Result<RowNumbers, Memory> {
        let mut gone = Vec::with_capacity(alloc, self.gone.len())?;
        gone.extend_from_slice(self.gone.as_slice())?;
        Ok(RowNumbers {
            gone,
            next: self.next,
        })
    }

    /// Whether more rows went than are there.
    pub fn are_sparse(&self) -> bool {
        self.gone.len() > self.next / 2
    }

    /// How many rows there are.
    pub fn count(&self) -> usize {
        self.next.saturating_sub(self.gone.len())
    }

    /// The place at which the row of this number stands, where it is there.
    pub fn place_of(&self, number: usize) -> usize {
        match self.gone.binary_search(&number) {
            Ok(before) => number.saturating_sub(before),
            Err(before) => number.saturating_sub(before),
        }
    }

    /// The number of the row that stands at a place.
    pub fn number_at(&self, place: usize) -> usize {
        place.saturating_add(gone_before(self.gone.as_slice(), place))
    }

    /// So many rows come behind the others.
    pub fn come(&mut self, count: usize) {
        self.next = self.next.saturating_add(count);
    }

    /// Rows go, whose keys are numbered by their places, which ascend.
    pub fn lose(&mut self, keys: &[NumberedKey]) {
        let kept = if keys.len() <= FEW {
            self.lose_each(keys)
        } else {
            self.lose_many(keys)
        };
        if kept.is_err() {
            self.gone.clear();
        }
        if self.gone.len() == self.next {
            self.gone.clear();
            self.next = 0;
        }
    }

    // One by one, from the last place on, so that the places before it stay.
    fn lose_each(&mut self, keys: &[NumberedKey]) -> Result<(), Memory> {
        for key in keys.iter().rev() {
            let number = self.number_at(key.number());
            if let Err(before) = self.gone.binary_search(&number) {
                self.gone.insert(before, number)?;
            }
        }
        Ok(())
    }

    // All at once.
    fn lose_many(&mut self, keys: &[NumberedKey]) -> Result<(), Memory> {
        let mut numbers = Vec::with_capacity(*self.gone.allocator(), keys.len())?;
        for key in keys {
            numbers.push(self.number_at(key.number()))?;
        }
        self.gone.append(&mut numbers)?;
        self.gone.sort_unstable();
        Ok(())
    }
}

// How many of the ascending numbers that went stand before the row at a place, by halves.
fn gone_before(gone: &[usize], place: usize) -> usize {
    let mut from: usize = 0;
    let mut to = gone.len();
    for _ in 0..HALVES {
        let middle = from.saturating_add(to.saturating_sub(from) / 2);
        match gone.get(middle) {
            Some(number) if from < to => {
                if number.saturating_sub(middle) > place {
                    to = middle;
                } else {
                    from = middle.saturating_add(1);
                }
            }
            _ => return from,
        }
    }
    from
}
