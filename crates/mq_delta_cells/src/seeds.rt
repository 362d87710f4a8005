//! Where a change begins.
ghost use Rattle.std.specs.Prelude.{◌≡◌, Some, IfOk};
ghost use Rattle.std.specs.List.{find};
ghost use Rattle.mq_ir.specs.declared.query.Look.TheVariants.{Measure, Presence};
ghost use Rattle.mq_ir.specs.Affected as affected;
ghost use Rattle.mq_ir.specs.Automatic.{node_of, rule_at};
ghost use Rattle.mq_ir.specs.Shape.{assigns};
ghost use Rattle.mq_ir.specs.Unfolding.{model_of};
ghost use Rattle.mq_auto_shape.specs.Edges.{looks_by};
ghost use Rattle.mq_cells.specs.Stores.{cell_name, name_assigned};
ghost use Rattle.mq_delta_cells.specs.Tables.{HasRulesOf, is_in_table};
ghost use Rattle.mq_delta_cells.specs.Seeds as spec;
ghost use Rattle.mq_delta_cells.specs.Seeds.{AreDifferences, AreSeeds};

use crate::course::looks_at;
use crate::mark_table::MarkTable;
use crate::number_table::NumberTable;
use crate::work::Work;
use mq_change_laws::same_looks_are_one;
use mq_dim_index::DimIndex;
use mq_ir::{CellName, Look, PartShape};
use mq_refs::ShapeKeys;
use mq_values::{Items, Key, KeySet, Memory};
use std::alloc::Global;

/// How a new shape differs from an old one: the cells that one of them has alone, the keys that one of their inputs has
/// alone, the cells of the old one as an index, where they ascend, and its rules by the measures that they assign, over the
/// cells of the new one.
#[derive(Drop)]
pub struct Differences {
    pub cells: KeySet,
    pub base: KeySet,
    pub were: Option<DimIndex>,
    pub rules: NumberTable,
}

/// A change: the old shape, the measures that moved, the same to be looked up, and how the new shape differs from the old
/// one, where it does.
#[derive(Drop)]
pub struct Seeds<'a> {
    pub old: &'a PartShape,
    pub moved: &'a [CellName],
    pub names: MarkTable,
    pub differ: Option<Differences>,
}

/// Whether the change begins at measure `m` of the cell at `key` where no rule assigns it; where a rule does, whether its cell comes
/// or goes.
pub fn begins_at_measure(work: &Work<'_>, key: &Key, m: u32, near: &mut u32) -> Result<bool, Memory>
    requires rules { HasRulesOf work.now.shape.now work.now.course.now.cells work.now.course.now.rules }
    requires seeds { AreSeeds work.now.shape.now work.now.course.now.cells work.now.seeds.now }
    ensures { IfOk result (λ begins. begins ≡ spec.is_told_outside work.now.seeds.now.old.now work.now.shape.now
        work.now.seeds.now.moved.now (Measure (cell_name key.now m))) }
{
    match &work.seeds.differ {
        None => moves_at(work, key, m, near),
        Some(differences) => differs_at(work, differences, key, m, near),
    }
}

// The same where the shapes are one.
fn moves_at(work: &Work<'_>, key: &Key, m: u32, near: &mut u32) -> Result<bool, Memory>
    requires rules { HasRulesOf work.now.shape.now work.now.course.now.cells work.now.course.now.rules }
    requires seeds { AreSeeds work.now.shape.now work.now.course.now.cells work.now.seeds.now }
    requires same { work.now.seeds.now.old.now ≡ work.now.shape.now }
    ensures { IfOk result (λ begins. begins ≡ spec.is_told_outside work.now.seeds.now.old.now work.now.shape.now
        work.now.seeds.now.moved.now (Measure (cell_name key.now m))) }
{
    if work.seeds.names.has(&work.course.cells, key, m, near)? {
        Ok(!is_ruled(work, &work.course.rules, key, m, near)?)
    } else {
        Ok(false)
    }
}

// The same where they differ in this way.
fn differs_at(
    work: &Work<'_>,
    differences: &Differences,
    key: &Key,
    m: u32,
    near: &mut u32,
) -> Result<bool, Memory>
    requires rules { HasRulesOf work.now.shape.now work.now.course.now.cells work.now.course.now.rules }
    requires seeds { AreSeeds work.now.shape.now work.now.course.now.cells work.now.seeds.now }
    requires differ { AreDifferences work.now.seeds.now.old.now work.now.shape.now work.now.course.now.cells differences.now }
    ensures { IfOk result (λ begins. begins ≡ spec.is_told_outside work.now.seeds.now.old.now work.now.shape.now
        work.now.seeds.now.moved.now (Measure (cell_name key.now m))) }
{
    if differences.cells.has(key) {
        return Ok(true);
    }
    differs_by_rules(work, differences, key, m, near)
}

// Whether a change begins at a measure whose cell is in both shapes or in neither, and that no rule of the new one assigns.
fn differs_by_rules(
    work: &Work<'_>,
    differences: &Differences,
    key: &Key,
    m: u32,
    near: &mut u32,
) -> Result<bool, Memory>
    requires rules { HasRulesOf work.now.shape.now work.now.course.now.cells work.now.course.now.rules }
    requires seeds { AreSeeds work.now.shape.now work.now.course.now.cells work.now.seeds.now }
    requires differ { AreDifferences work.now.seeds.now.old.now work.now.shape.now work.now.course.now.cells differences.now }
    ensures { IfOk result (λ begins. begins ≡ spec.outside_by work.now.seeds.now.old.now work.now.shape.now
        work.now.seeds.now.moved.now (cell_name key.now m)
        (rule_at work.now.seeds.now.old.now (Measure (cell_name key.now m))) (rule_at work.now.shape.now (Measure (cell_name key.now m)))) }
{
    if is_ruled(work, &work.course.rules, key, m, near)? {
        return Ok(false);
    }
    if is_ruled(work, &differences.rules, key, m, near)? {
        return Ok(true);
    }
    if differences.base.has(key) {
        return Ok(true);
    }
    work.seeds.names.has(&work.course.cells, key, m, near)
}

/// Whether the change begins at a presence.
pub fn begins_at_presence(work: &Work<'_>, key: &Key) -> bool
    requires { AreSeeds work.now.shape.now work.now.course.now.cells work.now.seeds.now }
    ensures { result ≡ spec.is_told_outside work.now.seeds.now.old.now work.now.shape.now work.now.seeds.now.moved.now
        (Presence key.now) }
{
    match &work.seeds.differ {
        None => false,
        Some(differences) => differences.base.has(key),
    }
}

// Whether one of these rules, by the cells of the course, assigns measure `m` of the cell at `key`.
fn is_ruled(
    work: &Work<'_>,
    rules: &NumberTable,
    key: &Key,
    m: u32,
    near: &mut u32,
) -> Result<bool, Memory>
    ensures { IfOk result (λ ruled. ruled ≡ is_in_table work.now.course.now.cells rules.now (cell_name key.now m)) }
{
    let number = rules.get(&work.course.cells, key, m, near)?;
    Ok(number.is_some())
}

/// Whether the change begins at the measure of an assignment, which looks at these.
pub fn begins_at_target(
    alloc: Global,
    work: &Work<'_>,
    a: &(Key, u32, u32),
    looks: &[Look],
    near: &mut u32,
) -> Result<bool, Memory>
    requires seeds { AreSeeds work.now.shape.now work.now.course.now.cells work.now.seeds.now }
    requires own { find (assigns a.now.1 a.now.0) work.now.shape.now.assigned ≡ Some a.now }
    requires looks { looks.now ≡ looks_by (model_of work.now.model.now) work.now.shape.now a.now }
    ensures { IfOk result (λ begins. begins
        ≡ spec.is_told (model_of work.now.model.now) work.now.seeds.now.old.now work.now.shape.now work.now.seeds.now.moved.now
        (node_of a.now)) }
{
    match &work.seeds.differ {
        None => {
            same_looks_are_one();
            Ok(false)
        }
        Some(differences) => {
            if differences.cells.has(&a.0) {
                return Ok(true);
            }
            differs_by_looks(alloc, work, differences, a, looks, near)
        }
    }
}

// Whether the old shape has no rule, another rule or other looks for an assignment.
fn differs_by_looks(
    alloc: Global,
    work: &Work<'_>,
    differences: &Differences,
    a: &(Key, u32, u32),
    looks: &[Look],
    near: &mut u32,
) -> Result<bool, Memory>
    requires differ { AreDifferences work.now.seeds.now.old.now work.now.shape.now work.now.course.now.cells differences.now }
    requires own { find (assigns a.now.1 a.now.0) work.now.shape.now.assigned ≡ Some a.now }
    requires looks { looks.now ≡ looks_by (model_of work.now.model.now) work.now.shape.now a.now }
    ensures { IfOk result (λ begins. begins
        ≡ spec.told_by (model_of work.now.model.now) work.now.seeds.now.old.now work.now.shape.now work.now.seeds.now.moved.now
        (name_assigned a.now) (rule_at work.now.seeds.now.old.now (node_of a.now)) (rule_at work.now.shape.now (node_of a.now))) }
{
    let rule_was = differences.rules.get(&work.course.cells, &a.0, a.1, near)?;
    match rule_was {
        None => Ok(true),
        Some(number) => {
            if number == a.2 {
                let were = looks_were(alloc, work, differences, a)?;
                return Ok(!are_same_looks(were.as_slice(), looks));
            }
            Ok(true)
        }
    }
}

// What an assignment looked at over the old shape, whose cells are searched where they ascend, and else gone through.
fn looks_were(
    alloc: Global,
    work: &Work<'_>,
    differences: &Differences,
    a: &(Key, u32, u32),
) -> Result<Items<Look>, Memory>
    requires differ { AreDifferences work.now.seeds.now.old.now work.now.shape.now work.now.course.now.cells differences.now }
    ensures { IfOk result (λ looks. looks ≡ looks_by (model_of work.now.model.now) work.now.seeds.now.old.now a.now) }
{
    match &differences.were {
        Some(cells) => looks_at(alloc, work.model, &ShapeKeys { base: cells, cells }, a),
        None => looks_at(alloc, work.model, work.seeds.old, a),
    }
}

// Whether two lists of looks are one.
fn are_same_looks(a: &[Look], b: &[Look]) -> bool
    ensures { result ≡ affected.are_same_looks a.now b.now }
{
    if a.len() != b.len() {
        return false;
    }
    for i in 0..a.len() {
        if !is_same_look(&a[i], &b[i]) {
            return false;
        }
    }
    true
}

// Whether two looks are one.
fn is_same_look(a: &Look, b: &Look) -> bool
    ensures { result ≡ affected.is_same_look a.now b.now }
{
    match (a, b) {
        (Look::Measure(a), Look::Measure(b)) => {
            a.key.cmp(&b.key).is_eq() && a.measure == b.measure
        }
        (Look::Presence(a), Look::Presence(b)) => a.cmp(b).is_eq(),
        _ => false,
    }
}
