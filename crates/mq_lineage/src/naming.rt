//! The measures that a derivation tells, in order, each with its rule.
ghost use Rattle.std.specs.Prelude.{◌≡◌, ◌<◌, ◌++◌, [], ◌∷◌, None, Some, length, map, IfOk, OnOk};
ghost use Rattle.std.specs.List.{All, find};
ghost use Rattle.mq_ir.specs.declared.query.Look.TheVariants.{Measure};
ghost use Rattle.mq_ir.specs.Automatic.{rule_at};
ghost use Rattle.mq_ir.specs.Shape.{assigns};
ghost use Rattle.mq_cells.specs.Stores.{name_assigned};
ghost use Rattle.mq_auto.specs.Walks.{AreOwn};
ghost use Rattle.mq_lineage.specs.Held.{is_held};
ghost use Rattle.mq_lineage.specs.Ordered.{AreWithin, names_at, names_in};
ghost use Rattle.mq_lineage.specs.Told.{told_among, told_bare, told_with};

use crate::assigned::assigned_at;
use crate::source_set::SourceSet;
use mq_ir::{CellName, PartShape};
use mq_values::{Items, Key, Memory};
use std::alloc::Global;

/// A measure with the number of its rule, where it has one.
pub type Told = (CellName, Option<u32>);

/// These measures, which no rule assigns, and then those of the rounds that are sources, each with its rule.
pub fn told_in(
    alloc: Global,
    s: &PartShape,
    rounds: &[Items<u32>],
    sources: &SourceSet<'_>,
    given: &[CellName],
) -> Result<Items<Told>, Memory>
    requires own { AreOwn s.now }
    requires within { AreWithin s.now.assigned rounds.now }
    requires bare { All (λ c. rule_at s.now (Measure c) ≡ None) given.now }
    ensures { IfOk result (λ told. told ≡ map (told_with s.now) given.now
        ++ told_among s.now (is_held sources.now) (names_in s.now.assigned rounds.now)) }
{
    let mut told = Items::with_room(alloc, given.len());
    push_given(given, &mut told)?;
    let mut near = 0;
    'rounds: for round in rounds {
        push_round(s, round.as_slice(), sources, &mut near, &mut told)?;
    }
    Ok(told)
}

// These measures, without a rule.
fn push_given(given: &[CellName], told: &mut Items<Told>) -> Result<(), Memory>
    ensures { OnOk result (told.new ≡ told.old ++ map told_bare given.now) }
{
    'given: for name in given {
        told.push((copy_name(name)?, None))?;
    }
    Ok(())
}

// The sources of a round.
fn push_round(
    s: &PartShape,
    round: &[u32],
    sources: &SourceSet<'_>,
    near: &mut u32,
    told: &mut Items<Told>,
) -> Result<(), Memory>
    requires own { AreOwn s.now }
    requires within { All (λ place. place < length s.now.assigned) round.now }
    ensures { OnOk result (told.new ≡ told.old ++ told_among s.now (is_held sources.now) (names_at s.now.assigned round.now)) }
{
    'places: for place in round {
        let a = assigned_at(s, *place);
        push_source(s, a, sources, near, told)?;
    }
    Ok(())
}

// The measure of an assignment, where it is a source.
fn push_source(
    s: &PartShape,
    a: &(Key, u32, u32),
    sources: &SourceSet<'_>,
    near: &mut u32,
    told: &mut Items<Told>,
) -> Result<(), Memory>
    requires { find (assigns a.now.1 a.now.0) s.now.assigned ≡ Some a.now }
    ensures { OnOk result (told.new ≡ told.old ++ told_among s.now (is_held sources.now) (name_assigned a.now ∷ [])) }
{
    if sources.has(&a.0, a.1, near)? {
        let name = CellName {
            key: a.0.copy()?,
            measure: a.1,
        };
        told.push((name, Some(a.2)))?;
    }
    Ok(())
}

/// The same name once more.
pub fn copy_name(name: &CellName) -> Result<CellName, Memory>
    ensures { IfOk result (λ copy. copy ≡ name.now) }
{
    Ok(CellName {
        key: name.key.copy()?,
        measure: name.measure,
    })
}
