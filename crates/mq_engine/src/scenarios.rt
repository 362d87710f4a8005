//! The calls of scenarios.
ghost use Rattle.std.specs.Prelude.{◌≡◌, ◌<◌, ◌+◌, false, length, map, IfOk, IfSome, OnOk, OnErr};
ghost use Rattle.std.specs.List.{All};
ghost use Rattle.std.specs.Option.{option_copied};
ghost use Rattle.mq_values.specs.Answers.{Gives, result_map};
ghost use Rattle.mq_values.specs.declared.limits.TheConstants.{MAX_SCENARIO_CHANGES};
ghost use Rattle.mq_ir.specs.Names.{is_scenario};
ghost use Rattle.mq_ir.specs.Ready.{QueryIsReady};
ghost use Rattle.mq_ir.specs.Scenarios as spec;
ghost use Rattle.mq_compared.specs.Kept.{IsKeptOf};
ghost use Rattle.mq_engine.specs.Catalogs.{catalog_of};
ghost use Rattle.mq_engine.specs.Scenarios.{HaveOwnNames, IsBounded, changes_under, longer, with_change};
ghost use Rattle.mq_engine.specs.Sessions.{view_compared};

use crate::change_copies::{same_change, same_changes};
use crate::engine::Engine;
use crate::views::NoView;
use mq_answers::Crew;
use mq_compared::{compared_beside, compared_under};
use mq_io::Gate;
use mq_ir::{BoundQuery, ByName, Change, Compared, Scenario};
use mq_kept::StandingView;
use mq_tables::Tables;
use mq_values::{Boxed, Fail, Items, Memory, Words};
use std::alloc::Global;
use std::thread::Threads;

impl Engine {
    /// Adds a scenario whose name no other has: it is the last, and has no changes. After `Memory` nothing is changed.
    pub fn create_scenario(&mut self, alloc: Global, name: &str) -> Result<(), Memory>
        requires { is_scenario (catalog_of self.old) name.now ≡ false }
        ensures ok { OnOk result (self.new ≡ spec.create_scenario self.old name.now) }
        ensures err { OnErr result (self.new ≡ self.old) }
    {
        let name = Words::new(alloc, name)?;
        let changes = Items::new(alloc);
        self.catalog.scenarios.put(Scenario { name, changes })
    }

    /// Adds a change at the end of the changes of a scenario that has room for one more, and answers how many it has then. No
    /// table is altered. After `Memory` nothing is changed.
    pub fn add_change(&mut self, name: &str, c: Change) -> Result<u32, Memory>
        requires { length (spec.changes_at self.old name.now) < MAX_SCENARIO_CHANGES }
        ensures ok { IfOk result (λ count. (self.new ≡ spec.add_change self.old name.now c) × (count ≡ length (spec.changes_at self.old name.now) + 1)) }
        ensures err { OnErr result (self.new ≡ self.old) }
    {
        let count = count_with_one_more(&self.catalog.scenarios, name);
        let scenarios = with_one_more(self.alloc, &self.catalog.scenarios, name, c)?;
        self.catalog.scenarios = scenarios;
        Ok(count)
    }

    /// Drops the scenario of this name. It takes no memory.
    pub fn drop_scenario(&mut self, name: &str)
        ensures { self.new ≡ spec.drop_scenario self.old name.now }
    {
        self.catalog.scenarios.remove(name);
    }

    /// What the view of this name answers under each of these scenarios, over the tables as they stand: what its query answers
    /// over the tables as the changes of the scenario leave them, or the number of its first change that is refused, from 1,
    /// with the refusal. `NoView` comes exactly where no such view is (docs/MEANING.md, "Scenarios").
    pub fn compare<R: Threads + Sync, G: Gate>(
        &self,
        rt: &R,
        alloc: Global,
        view: &str,
        names: &[Words],
        gate: &G,
    ) -> Result<Vec<Compared>, Fail<NoView>>
        ensures { Gives (result_map (λ found. found.items) result) (view_compared self.now view.now names.now) }
    {
        match self.catalog.views.get(view) {
            Some(found) => Ok(compared_beside_each(
                &self.crew(rt, gate),
                alloc,
                &self.tables,
                &found.query,
                self.kept.get(view),
                &self.catalog.scenarios,
                names,
            )?),
            None => Err(Fail::Cause(NoView {
                name: Words::new(alloc, view)?,
            })),
        }
    }

    /// The same. The changes of a scenario are made in place where that can be, and taken back, so that no row of the tables is
    /// copied; nothing of the engine is changed, after an error too.
    pub fn compare_in_place<R: Threads + Sync, G: Gate>(
        &mut self,
        rt: &R,
        alloc: Global,
        view: &str,
        names: &[Words],
        gate: &G,
    ) -> Result<Vec<Compared>, Fail<NoView>>
        ensures exact { Gives (result_map (λ found. found.items) result) (view_compared self.old view.now names.now) }
        ensures same { self.new ≡ self.old }
    {
        let crew = self.crew(rt, gate);
        match self.catalog.views.get(view) {
            Some(found) => Ok(compared_under_each(
                &crew,
                alloc,
                &mut self.tables,
                &found.query,
                self.kept.get(view),
                &self.catalog.scenarios,
                names,
            )?),
            None => Err(Fail::Cause(NoView {
                name: Words::new(alloc, view)?,
            })),
        }
    }
}

// The changes of the scenario of this name; none where there is none.
fn changes_of<'a>(scenarios: &'a ByName<Scenario>, name: &str) -> &'a [Change]
    ensures { result.now ≡ changes_under scenarios.now name.now }
{
    match scenarios.get(name) {
        Some(scenario) => scenario.changes.as_slice(),
        None => &[],
    }
}

// How many changes a scenario has that takes one more in.
fn count_with_one_more(scenarios: &ByName<Scenario>, name: &str) -> u32
    requires { length (changes_under scenarios.now name.now) < MAX_SCENARIO_CHANGES }
    ensures { result ≡ length (changes_under scenarios.now name.now) + 1 }
{
    changes_of(scenarios, name).len() as u32 + 1
}

// The scenarios with a change at the end of those of this name. The change stands on the heap meanwhile, for the proof.
fn with_one_more(
    alloc: Global,
    scenarios: &ByName<Scenario>,
    name: &str,
    c: Change,
) -> Result<ByName<Scenario>, Memory>
    requires { HaveOwnNames scenarios.now }
    ensures { IfOk result (λ after. after ≡ with_change scenarios.now name.now c) }
{
    let c = Boxed::new(alloc, c)?;
    with_change(alloc, scenarios, name, c.get())
}

fn with_change(
    alloc: Global,
    scenarios: &ByName<Scenario>,
    name: &str,
    c: &Change,
) -> Result<ByName<Scenario>, Memory>
    requires { HaveOwnNames scenarios.now }
    ensures { IfOk result (λ after. after ≡ with_change scenarios.now name.now c.now) }
{
    let mut after = ByName::new(alloc);
    for scenario in scenarios.as_slice() {
        after.put(longer(alloc, scenario, name, c)?)?;
    }
    Ok(after)
}

// The same scenario, with the change where it has this name.
fn longer(alloc: Global, scenario: &Scenario, name: &str, c: &Change) -> Result<Scenario, Memory>
    ensures { IfOk result (λ after. after ≡ longer name.now c.now scenario.now) }
{
    let mut changes = same_changes(alloc, scenario.changes.as_slice())?;
    if name == scenario.name.as_str() {
        changes.push(same_change(alloc, c)?)?;
    }
    let name = scenario.name.copy()?;
    Ok(Scenario { name, changes })
}

// What a query answers under each of these scenarios, over tables that are only lent.
fn compared_beside_each<R: Threads + Sync, G: Gate>(
    crew: &Crew<'_, '_, R, G>,
    alloc: Global,
    tables: &Tables,
    q: &BoundQuery,
    kept: Option<&StandingView>,
    scenarios: &ByName<Scenario>,
    names: &[Words],
) -> Result<Vec<Compared>, Memory>
    requires ready { QueryIsReady q.now }
    requires kept { IfSome (option_copied kept) (IsKeptOf tables.now q.now) }
    requires bounded { All IsBounded scenarios.now }
    ensures { IfOk result (λ found. found.items ≡ map (λ name. spec.compared tables.now q.now (changes_under scenarios.now name)) names.now) }
{
    let mut found = Vec::with_capacity(alloc, names.len())?;
    for name in names {
        let changes = changes_of(scenarios, name.as_str());
        found.push(compared_beside(crew, alloc, tables, q, kept, changes)?)?;
    }
    Ok(found)
}

// The same, where the changes may be made in place: the tables are as before after each scenario.
fn compared_under_each<R: Threads + Sync, G: Gate>(
    crew: &Crew<'_, '_, R, G>,
    alloc: Global,
    tables: &mut Tables,
    q: &BoundQuery,
    kept: Option<&StandingView>,
    scenarios: &ByName<Scenario>,
    names: &[Words],
) -> Result<Vec<Compared>, Memory>
    requires ready { QueryIsReady q.now }
    requires kept { IfSome (option_copied kept) (IsKeptOf tables.old q.now) }
    requires bounded { All IsBounded scenarios.now }
    ensures exact { IfOk result (λ found. found.items ≡ map (λ name. spec.compared tables.old q.now (changes_under scenarios.now name)) names.now) }
    ensures same { tables.new ≡ tables.old }
{
    let mut found = Vec::with_capacity(alloc, names.len())?;
    for name in names {
        let changes = changes_of(scenarios, name.as_str());
        found.push(compared_under(crew, alloc, tables, q, kept, changes)?)?;
    }
    Ok(found)
}
