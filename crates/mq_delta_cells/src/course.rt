//! What a walk over a shape goes by.
ghost use Rattle.std.specs.Prelude.{◌≡◌, ◌-◌, List, Some, map, slice_get, IfOk, IfSome};
ghost use Rattle.std.specs.List.{All};
ghost use Rattle.std.specs.Option.{option_copied};
ghost use Rattle.mq_ir.specs.Unfolding.{model_of};
ghost use Rattle.mq_auto.specs.Walks.{AreOwn};
ghost use Rattle.mq_auto_shape.specs.Edges.{looks_by};
ghost use Rattle.mq_auto_shape.specs.Found.{AreRoundsOf, IsRuled};
ghost use Rattle.mq_delta_cells.specs.Courses.{IsCourse, looks_among, stays_course};
ghost use Rattle.mq_delta_cells.specs.Readers.{HasReadersOf};
ghost use Rattle.mq_ir.specs.declared.query.Look.{Look};
ghost use Rattle.mq_delta_cells.specs.Tables.{HasRulesOf};

use crate::number_table::NumberTable;
use crate::reader_table::{ReaderTable, readers_of};
use mq_dim_index::DimIndex;
use mq_ir::{Look, Model, PartShape, Rule};
use mq_refs::{CellKeys, RefsOrder, ShapeKeys, looks_over, refs_order};
use mq_values::{Items, Key, Memory};
use std::alloc::Global;

/// The keys of a shape as indexes, the rounds in which its assignments come, what each of them looks at and which of them look at
/// a measure, where that is gathered, the rules by the measures that they assign, and what is known of the order of the
/// model's references. It serves for every partition with the keys of the shape.
#[derive(Drop)]
pub struct Course {
    pub base: DimIndex,
    pub cells: DimIndex,
    pub rounds: Items<Items<u32>>,
    pub looks: Option<Items<Items<Look>>>,
    pub readers: Option<ReaderTable>,
    pub rules: NumberTable,
    pub refs: RefsOrder,
}

/// The course of a shape of which these are the rounds and the indexes of the keys. What each assignment looks at is gathered, and
/// who looks at a measure is not, so a walk asks every assignment. `Memory` is the only error; it comes too where there are more
/// assignments than a `u32` can number.
pub fn course_of(
    alloc: Global,
    m: &Model<'_>,
    shape: &PartShape,
    rounds: Items<Items<u32>>,
    base: DimIndex,
    cells: DimIndex,
) -> Result<Course, Memory>
    requires own { AreOwn shape.now }
    requires ruled { All (IsRuled (model_of m.now)) shape.now.assigned }
    requires rounds { AreRoundsOf (model_of m.now) shape.now rounds }
    requires base { base ≡ shape.now.base }
    requires cells { cells ≡ shape.now.cells }
    ensures { IfOk result (IsCourse (model_of m.now) shape.now) }
{
    let looks = all_looks(alloc, m, shape, &cells)?;
    course_with(alloc, m, shape, rounds, base, cells, Some(looks))
}

/// The same for one walk: what an assignment looks at is asked of its rule when its turn comes, so no list of it is kept.
pub fn course_for_walk(
    alloc: Global,
    m: &Model<'_>,
    shape: &PartShape,
    rounds: Items<Items<u32>>,
    base: DimIndex,
    cells: DimIndex,
) -> Result<Course, Memory>
    requires own { AreOwn shape.now }
    requires ruled { All (IsRuled (model_of m.now)) shape.now.assigned }
    requires rounds { AreRoundsOf (model_of m.now) shape.now rounds }
    requires base { base ≡ shape.now.base }
    requires cells { cells ≡ shape.now.cells }
    ensures { IfOk result (IsCourse (model_of m.now) shape.now) }
{
    course_with(alloc, m, shape, rounds, base, cells, None)
}

// The course with these lists of what its assignments look at, or none.
fn course_with(
    alloc: Global,
    m: &Model<'_>,
    shape: &PartShape,
    rounds: Items<Items<u32>>,
    base: DimIndex,
    cells: DimIndex,
    looks: Option<Items<Items<Look>>>,
) -> Result<Course, Memory>
    requires own { AreOwn shape.now }
    requires ruled { All (IsRuled (model_of m.now)) shape.now.assigned }
    requires rounds { AreRoundsOf (model_of m.now) shape.now rounds }
    requires base { base ≡ shape.now.base }
    requires cells { cells ≡ shape.now.cells }
    requires looks { IfSome looks (λ looks. looks ≡ map (looks_by (model_of m.now) shape.now) shape.now.assigned) }
    ensures { IfOk result (IsCourse (model_of m.now) shape.now) }
{
    let rules = rules_of(alloc, shape, &cells)?;
    Ok(Course {
        base,
        cells,
        rounds,
        looks,
        readers: None,
        rules,
        refs: refs_order(m),
    })
}

/// The same course with who looks at a measure, where what each assignment looks at is gathered: a walk where values alone moved
/// visits those that look at what changed, and no others. It is for a course that serves more than once. `Memory` comes too where
/// there are more assignments, or looks, than a `u32` can number.
pub fn with_readers(alloc: Global, course: Course) -> Result<Course, Memory>
    ensures { IfOk result (stays_course course) }
{
    let readers = readers_in(alloc, &course)?;
    Ok(Course { readers, ..course })
}

// Who looks at a measure, where a course has what each assignment looks at.
fn readers_in(alloc: Global, course: &Course) -> Result<Option<ReaderTable>, Memory>
    ensures { IfOk result (λ readers. (lists : List (List Look)) → IfSome course.now.looks (λ looks. looks ≡ lists)
        → HasReadersOf course.now.cells lists readers) }
{
    match &course.looks {
        Some(lists) => Ok(Some(readers_of(alloc, &course.cells, lists.as_slice())?)),
        None => Ok(None),
    }
}

// What each assignment of a shape with these cells looks at.
fn all_looks(
    alloc: Global,
    m: &Model<'_>,
    shape: &PartShape,
    cells: &DimIndex,
) -> Result<Items<Items<Look>>, Memory>
    ensures { IfOk result (λ looks. looks ≡ map (looks_among (model_of m.now) cells.now) shape.now.assigned) }
{
    let assigned = shape.assigned.as_slice();
    let mut looks = Items::with_room(alloc, assigned.len());
    for a in assigned {
        looks.push(looks_by_cells(alloc, m, cells, a)?)?;
    }
    Ok(looks)
}

/// What an assignment looks at over these cells.
pub fn looks_by_cells(
    alloc: Global,
    m: &Model<'_>,
    cells: &DimIndex,
    a: &(Key, u32, u32),
) -> Result<Items<Look>, Memory>
    ensures { IfOk result (λ looks. looks ≡ looks_among (model_of m.now) cells.now a.now) }
{
    // What a right side looks at does not depend on which cells the input has.
    looks_at(alloc, m, &ShapeKeys { base: cells, cells }, a)
}

/// What an assignment looks at over these keys.
pub fn looks_at<K: CellKeys>(
    alloc: Global,
    m: &Model<'_>,
    keys: &K,
    a: &(Key, u32, u32),
) -> Result<Items<Look>, Memory>
    ensures { IfOk result (λ looks. looks ≡ looks_among (model_of m.now) (K.set keys.now) a.now) }
{
    match rule_numbered(m, a.2) {
        Some(rule) => looks_over(alloc, rule, m, &a.0, 0, keys),
        None => Ok(Items::new(alloc)),
    }
}

/// The rules of a shape by the measures that they assign, over an index of cells. Where one is assigned twice, the first counts.
pub fn rules_of(alloc: Global, shape: &PartShape, cells: &DimIndex) -> Result<NumberTable, Memory>
    ensures { IfOk result (HasRulesOf shape.now cells.now) }
{
    let assigned = shape.assigned.as_slice();
    let mut rules = NumberTable::new(alloc);
    let mut near = 0;
    let mut at = assigned.len();
    // From the last to the first.
    'putting: while at > 0 {
        at -= 1;
        let a = &assigned[at];
        rules.put(cells, &a.0, a.1, a.2, &mut near)?;
    }
    Ok(rules)
}

/// The rule with this number, counted from 1.
pub fn rule_numbered<'a>(m: &Model<'a>, number: u32) -> Option<&'a Rule>
    ensures { option_copied result ≡ slice_get m.now.part.now.rules (number - 1) }
{
    let part = m.part;
    part.rules.get(number.saturating_sub(1) as usize)
}

/// The rule of an assignment by one.
pub fn rule_of<'a>(m: &Model<'a>, a: &(Key, u32, u32)) -> &'a Rule
    requires { IsRuled (model_of m.now) a.now }
    ensures { Some result.now ≡ slice_get m.now.part.now.rules (a.now.2 - 1) }
{
    let part = m.part;
    &part.rules.as_slice()[(a.2 - 1) as usize]
}
