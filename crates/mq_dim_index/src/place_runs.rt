//! Runs of places.
ghost use Rattle.std.specs.Prelude.{◌≡◌, ◌∷◌, [], ◌++◌, ◌<◌, ◌≤◌, ◌+◌, IfOk, OnOk};
ghost use Rattle.mq_dim_index.specs.PlaceRuns.{AreRuns, RisesFrom, numbers_in, numbers_of};
ghost use Rattle.mq_dim_index.specs.declared.search.TheConstants.{MAX_KEYS};

use crate::search::MAX_KEYS;
use mq_values::Memory;
use std::alloc::Global;

/// Places in a row: those from `first` on that stand before `past`.
#[derive(Clone, Copy)]
pub struct PlaceRun {
    pub first: u32,
    pub past: u32,
}

/// Puts a place behind those of these runs. Where it comes next it joins the last run.
pub fn push_place(runs: &mut Vec<PlaceRun>, place: u32) -> Result<(), Memory>
    requires numbered { place < MAX_KEYS }
    requires apart { AreRuns 0 place runs.old.items }
    ensures numbers { OnOk result (numbers_of runs.new.items ≡ numbers_of runs.old.items ++ place ∷ []) }
    ensures apart { OnOk result (AreRuns 0 (place + 1) runs.new.items) }
{
    let alone = PlaceRun {
        first: place,
        past: place + 1,
    };
    match runs.pop() {
        Some(last) if last.past == place => runs.push(PlaceRun {
            first: last.first,
            past: place + 1,
        })?,
        Some(last) => {
            runs.push(last)?;
            runs.push(alone)?;
        }
        None => runs.push(alone)?,
    }
    Ok(())
}

/// These places, which ascend, as runs.
pub fn runs_of(alloc: Global, places: &[u32], count: usize) -> Result<Vec<PlaceRun>, Memory>
    requires ascending { RisesFrom 0 count places.now }
    requires numbered { count ≤ MAX_KEYS }
    ensures numbers { IfOk result (λ runs. numbers_of runs.items ≡ places.now) }
    ensures apart { IfOk result (λ runs. AreRuns 0 count runs.items) }
{
    let mut runs = Vec::new(alloc);
    for place in places {
        push_place(&mut runs, *place)?;
    }
    Ok(runs)
}

/// The places of these runs, one behind another.
pub fn places_of(alloc: Global, runs: &[PlaceRun]) -> Result<Vec<u32>, Memory>
    ensures { IfOk result (λ places. places.items ≡ numbers_of runs.now) }
{
    let mut places = Vec::new(alloc);
    for run in runs {
        add_places(&mut places, *run)?;
    }
    Ok(places)
}

// Puts the places of a run behind these.
fn add_places(places: &mut Vec<u32>, run: PlaceRun) -> Result<(), Memory>
    ensures { OnOk result (places.new.items ≡ places.old.items ++ numbers_in run) }
{
    for place in run.first..run.past {
        places.push(place)?;
    }
    Ok(())
}
