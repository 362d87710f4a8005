//! What a measure comes from, as a set.
ghost use Rattle.std.specs.Prelude.{◌≡◌, ◌<◌, [], ◌∷◌, Some, length, IfOk, OnOk};
ghost use Rattle.std.specs.List.{All, find};
ghost use Rattle.mq_ir.specs.Shape.{assigns};
ghost use Rattle.mq_ir.specs.Unfolding.{model_of};
ghost use Rattle.mq_cells.specs.Stores.{name_assigned};
ghost use Rattle.mq_auto.specs.Walks.{AreOwn};
ghost use Rattle.mq_auto_shape.specs.Edges.{PlacesAre};
ghost use Rattle.mq_auto_shape.specs.Found.{AreRoundsOf};
ghost use Rattle.mq_lineage.specs.Closing.{Closes, HasSourcesOf};
ghost use Rattle.mq_lineage.specs.Found.{IsFound};
ghost use Rattle.mq_lineage.specs.Held.{is_held};
ghost use Rattle.mq_lineage.specs.Ordered.{names_at};

use crate::adding::add_all;
use crate::assigned::assigned_at;
use crate::looking::looks_by;
use crate::source_set::SourceSet;
use mq_auto_shape::Numbers;
use mq_derivation_laws::sources_are_least;
use mq_ir::{CellName, Model, PartShape};
use mq_refs::CellKeys;
use mq_values::{Items, Key, Memory};
use std::alloc::Global;

/// The sources of `target`: the least set that has it and, with each assigned measure, all measures that it looks at. `rounds`
/// are those of `s`, `places` has the place of each assigned measure, and `keys` the cells.
pub fn sources_of<'a, K: CellKeys>(
    alloc: Global,
    m: &Model<'_>,
    s: &PartShape,
    keys: &K,
    rounds: &[Items<u32>],
    places: Numbers<'a>,
    target: &CellName,
) -> Result<SourceSet<'a>, Memory>
    requires keys { K.set keys.now ≡ s.now.cells }
    requires found { IsFound (model_of m.now) s.now }
    requires rounds { AreRoundsOf (model_of m.now) s.now rounds.now }
    requires places { PlacesAre places s.now.assigned }
    ensures sources { IfOk result (λ set. HasSourcesOf (model_of m.now) s.now target.now (is_held set)) }
    ensures places { IfOk result (λ set. set.places ≡ places.entry) }
{
    sources_are_least();
    let mut near = 0;
    let mut found = SourceSet::new(alloc, places, s.assigned.len())?;
    found.add(target, &mut near)?;
    // What a measure looks at is of an earlier round, so one pass from the last round to the first closes the set.
    let mut left = rounds.len();
    'rounds: while left > 0 {
        left -= 1;
        close_round(
            alloc,
            m,
            s,
            keys,
            rounds[left].as_slice(),
            &mut found,
            &mut near,
        )?;
    }
    Ok(found)
}

// Where measures of a round are among these, all that they look at is.
fn close_round<K: CellKeys>(
    alloc: Global,
    m: &Model<'_>,
    s: &PartShape,
    keys: &K,
    round: &[u32],
    found: &mut SourceSet<'_>,
    near: &mut u32,
) -> Result<(), Memory>
    requires keys { K.set keys.now ≡ s.now.cells }
    requires own { AreOwn s.now }
    requires within { All (λ place. place < length s.now.assigned) round.now }
    ensures closes { OnOk result
        (Closes (model_of m.now) s.now (names_at s.now.assigned round.now) (is_held found.old) (is_held found.new)) }
    ensures places { found.new.places ≡ found.old.places }
{
    let mut left = round.len();
    'places: while left > 0 {
        left -= 1;
        let a = assigned_at(s, round[left]);
        close_at(alloc, m, s, keys, a, found, near)?;
    }
    Ok(())
}

// Where the measure of an assignment is among these, all that it looks at is.
fn close_at<K: CellKeys>(
    alloc: Global,
    m: &Model<'_>,
    s: &PartShape,
    keys: &K,
    a: &(Key, u32, u32),
    found: &mut SourceSet<'_>,
    near: &mut u32,
) -> Result<(), Memory>
    requires keys { K.set keys.now ≡ s.now.cells }
    requires own { find (assigns a.now.1 a.now.0) s.now.assigned ≡ Some a.now }
    ensures closes { OnOk result (Closes (model_of m.now) s.now (name_assigned a.now ∷ []) (is_held found.old) (is_held found.new)) }
    ensures places { found.new.places ≡ found.old.places }
{
    if !found.has(&a.0, a.1, near)? {
        return Ok(());
    }
    let looks = looks_by(alloc, m, keys, a.2, &a.0)?;
    add_all(looks.as_slice(), found, near)
}
