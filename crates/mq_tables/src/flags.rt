//! Which rows of a table are gone.
ghost use Rattle.std.specs.Prelude.{◌≡◌, ◌≤◌, ◌+◌, ◌++◌, false, length, take, drop, replicate, slice_index_or};
ghost use Rattle.mq_tables.specs.InPlace.{items_left};

use std::marker::Model;

/// For each row whether it is gone. It is told of those from one place on up to another: the rows before and behind are
/// left. Contracts see the list of what is told, row by row.
#[derive(Drop)]
pub struct Flags {
    before: usize,
    told: Vec<bool>,
    behind: usize,
}

impl Model for Flags {
    ghost use Rattle.std.specs.Prelude.{List, Bool, ◌++◌, false, replicate};

    ghost Value = { List Bool };

    ghost view = { λ f. replicate f.before false ++ (f.told.items ++ replicate f.behind false) };
}

impl Flags {
    /// What is told of some rows, with so many before and behind them that are left.
    pub fn of_some(before: usize, told: Vec<bool>, behind: usize) -> Flags
        ensures { result ≡ replicate before false ++ (told.items ++ replicate behind false) }
    {
        Flags {
            before,
            told,
            behind,
        }
    }

    /// Whether the row at a place is gone; no row is where there is no such place.
    pub fn is_gone(&self, place: usize) -> bool
        ensures { result ≡ slice_index_or self.now place false }
    {
        if place < self.before {
            return false;
        }
        match self.told.get(place - self.before) {
            Some(is_gone) => *is_gone,
            None => false,
        }
    }

    /// Takes away the rows that are gone, or what stands beside them, where the last ones may be missing. The others stay in
    /// order.
    pub fn take_away<T: Drop>(&self, items: &mut Vec<T>)
        requires { length items.old.items ≤ length self.now }
        ensures { items.new.items ≡ items_left items.old.items self.now }
    {
        if self.told.is_empty() {
            return;
        }
        if self.told.len() == 1 {
            if self.told[0] {
                take_one(items, self.before);
            }
            return;
        }
        take_each(items, self);
    }
}

// Takes away what stands at a place, where there is one.
fn take_one<T: Drop>(items: &mut Vec<T>, place: usize)
    ensures { items.new.items ≡ take place items.old.items ++ drop (place + 1) items.old.items }
{
    if place < items.len() {
        items.remove(place);
    }
}

// Takes away what is gone, in one pass.
fn take_each<T: Drop>(items: &mut Vec<T>, gone: &Flags)
    requires { length items.old.items ≤ length gone.now }
    ensures { items.new.items ≡ items_left items.old.items gone.now }
{
    let mut kept: usize = 0;
    'items: for at in 0..items.len() {
        if !gone.is_gone(at) {
            items.swap(kept, at);
            kept += 1;
        }
    }
    items.truncate(kept);
}
