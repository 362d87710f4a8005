//! What stood at cells before they changed.
ghost use Rattle.std.specs.Prelude.{◌≡◌, [], OnOk, OnErr};
ghost use Rattle.std.specs.Option.{option_copied};
ghost use Rattle.mq_seq.specs.Tracks.{first_at, noted};

use crate::marked_cells::MarkedCells;
use mq_values::{Key, Memory};
use std::alloc::Global;
use std::collections::BTreeMap;
use std::marker::Model;

/// For each cell that changed, its measures as they were before the first change, where there was such a cell. Contracts
/// see it as a list of keys, each with these.
#[derive(Drop)]
pub struct Noted {
    firsts: BTreeMap<Key, Option<Key>>,
}

impl Model for Noted {
    ghost use Rattle.mq_seq.specs.Tracks.{Firsts};

    ghost Value = { Firsts };

    ghost view = { λ noted. noted.firsts.entries };
}

impl Noted {
    /// Nothing is noted. It takes no memory.
    pub fn new(alloc: Global) -> Noted
        ensures { result ≡ [] }
    {
        Noted {
            firsts: BTreeMap::new(alloc),
        }
    }

    /// What is noted of the cell at `key`, or `None` where nothing is.
    pub fn get(&self, key: &Key) -> Option<&Option<Key>>
        ensures { option_copied result ≡ first_at self.now key.now }
    {
        self.firsts.get(key)
    }

    /// Notes the cell at `key` before it changes, where it has not changed before. After `Memory` all is as before.
    pub fn note(&mut self, alloc: Global, key: &Key, cells: &MarkedCells) -> Result<(), Memory>
        ensures ok { OnOk result (self.new ≡ noted self.old key.now cells.now.cells) }
        ensures err { OnErr result (self.new ≡ self.old) }
    {
        if self.get(key).is_some() {
            return Ok(());
        }
        let first = cells.measures(alloc, key)?;
        self.firsts.insert(key.copy()?, first)?;
        Ok(())
    }
}
