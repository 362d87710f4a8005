//! Scenarios: what makes, drops, changes and compares them (docs/LANGUAGE.md, "The order of binding").

ghost use Rattle.std.specs.Prelude.{nat_le, Ok};
ghost use Rattle.mq_lexer.specs.Words as words;
ghost use Rattle.mq_values.specs.Answers.{Gives};
ghost use Rattle.mq_ir.specs.Results.{each};
ghost use Rattle.mq_bind_scopes.specs.Refusals as refusals;
ghost use Rattle.mq_binder.specs.ScenarioWalk as spec;

use crate::change_trees::change_bound;
use crate::lists::limited;
use crate::tables::is_taken;
use mq_ast::ChangeTree;
use mq_bind_scopes::{duplicate_name, limit, unknown_name};
use mq_ir::{Bound, Catalog, LIMIT_OF_COMPARED, LIMIT_OF_SCENARIO_CHANGES, LIMIT_OF_SCENARIOS};
use mq_lexer::folded;
use mq_values::{Fail, Items, MAX_COMPARED, MAX_SCENARIO_CHANGES, MAX_SCENARIOS, Refused, Words};
use std::alloc::Global;

// CREATE SCENARIO: the name, and the number of scenarios.
fn scenario_created(catalog: &Catalog, name: Words) -> Result<Bound, Fail<Refused>>
    ensures { Gives result (spec.scenario_created catalog.now name) }
{
    if is_taken(catalog, &name) {
        return Err(duplicate_name(name));
    }
    if catalog.scenarios.len() >= MAX_SCENARIOS {
        return Err(limit(LIMIT_OF_SCENARIOS));
    }
    Ok(Bound::CreateScenario(name))
}

/// CREATE SCENARIO.
pub fn create_scenario(
    alloc: Global,
    catalog: &Catalog,
    name: &Words,
) -> Result<Bound, Fail<Refused>>
    ensures { Gives result (spec.scenario_created catalog.now (words.folded name.now)) }
{
    let name = folded(alloc, name.as_str())?;
    scenario_created(catalog, name)
}

// The name of a scenario that is there.
fn scenario_named(alloc: Global, catalog: &Catalog, name: &Words) -> Result<Words, Fail<Refused>>
    ensures { Gives result (spec.scenario_named catalog.now name.now) }
{
    let name = folded(alloc, name.as_str())?;
    if !catalog.is_scenario(name.as_str()) {
        return Err(unknown_name(name));
    }
    Ok(name)
}

/// DROP SCENARIO.
pub fn drop_scenario(alloc: Global, catalog: &Catalog, name: &Words) -> Result<Bound, Fail<Refused>>
    ensures { Gives result (spec.scenario_dropped catalog.now (words.folded name.now)) }
{
    let name = scenario_named(alloc, catalog, name)?;
    Ok(Bound::DropScenario(name))
}

// A change that a scenario takes in, where it has not as many as it may have. Generic, since it only moves and drops
// what it is given.
fn if_room<T: Drop>(count: usize, change: T) -> Result<T, Fail<Refused>>
    ensures { Gives result (refusals.refused_where (nat_le MAX_SCENARIO_CHANGES count) (refusals.limit LIMIT_OF_SCENARIO_CHANGES) (Ok change)) }
{
    if count >= MAX_SCENARIO_CHANGES {
        return Err(limit(LIMIT_OF_SCENARIO_CHANGES));
    }
    Ok(change)
}

// UNDER: the scenario, the change by itself, and the number of the scenario's changes.
fn under_bound(
    alloc: Global,
    catalog: &Catalog,
    scenario: Words,
    tree: &ChangeTree,
) -> Result<Bound, Fail<Refused>>
    ensures { Gives result (spec.under_bound catalog.now scenario tree.now) }
{
    if !catalog.is_scenario(scenario.as_str()) {
        return Err(unknown_name(scenario));
    }
    let change = change_bound(alloc, catalog, tree)?;
    let change = if_room(catalog.change_count(scenario.as_str()), change)?;
    Ok(Bound::Under(scenario, change))
}

/// A change under a scenario.
pub fn under(
    alloc: Global,
    catalog: &Catalog,
    scenario: &Words,
    tree: &ChangeTree,
) -> Result<Bound, Fail<Refused>>
    ensures { Gives result (spec.under_bound catalog.now (words.folded scenario.now) tree.now) }
{
    let scenario = folded(alloc, scenario.as_str())?;
    under_bound(alloc, catalog, scenario, tree)
}

fn each_named(
    alloc: Global,
    catalog: &Catalog,
    names: &[Words],
) -> Result<Items<Words>, Fail<Refused>>
    ensures { Gives result (each (spec.scenario_named catalog.now) names.now) }
{
    let mut scenarios = Items::new(alloc);
    'names: for name in names {
        scenarios.push(scenario_named(alloc, catalog, name)?)?;
    }
    Ok(scenarios)
}

// The scenarios of COMPARE from left to right, and their number.
fn scenarios_named(
    alloc: Global,
    catalog: &Catalog,
    names: &[Words],
) -> Result<Items<Words>, Fail<Refused>>
    ensures { Gives result (spec.scenarios_named catalog.now names.now) }
{
    let scenarios = each_named(alloc, catalog, names)?;
    limited(MAX_COMPARED, LIMIT_OF_COMPARED, scenarios)
}

// COMPARE: the view, and then the scenarios.
fn comparison_bound(
    alloc: Global,
    catalog: &Catalog,
    view: Words,
    names: &[Words],
) -> Result<Bound, Fail<Refused>>
    ensures { Gives result (spec.comparison_bound catalog.now view names.now) }
{
    if !catalog.is_view(view.as_str()) {
        return Err(unknown_name(view));
    }
    let scenarios = scenarios_named(alloc, catalog, names)?;
    Ok(Bound::Compare(view, scenarios))
}

/// COMPARE.
pub fn compare(
    alloc: Global,
    catalog: &Catalog,
    view: &Words,
    names: &[Words],
) -> Result<Bound, Fail<Refused>>
    ensures { Gives result (spec.comparison_bound catalog.now (words.folded view.now) names.now) }
{
    let view = folded(alloc, view.as_str())?;
    comparison_bound(alloc, catalog, view, names)
}
