//! The names that statements are bound under, and what they stand for.
ghost use Rattle.std.specs.Prelude.{◌≡◌};
ghost use Rattle.std.specs.Option.{option_copied};
ghost use Rattle.mq_ir.specs.Names as spec;

use crate::by_name::{ByName, Called};
use crate::query::{BoundQuery, ModelPart};
use crate::statement::{Change, Schema};
use mq_values::{Items, Words};

/// A table with its columns.
#[derive(Drop)]
pub struct TableEntry {
    pub name: Words,
    pub schema: Schema,
}

impl Called for TableEntry {
    ghost name_of = { λ entry. entry.name };

    fn name(&self) -> &Words {
        &self.name
    }
}

/// A view: the query that it stands for (docs/MEANING.md, "Statements").
#[derive(Drop)]
pub struct View {
    pub name: Words,
    pub query: BoundQuery,
}

impl Called for View {
    ghost name_of = { λ view. view.name };

    fn name(&self) -> &Words {
        &self.name
    }
}

/// A scenario: changes over the tables as they stand, one after another, that never alter them (docs/MEANING.md,
/// "Scenarios").
#[derive(Drop)]
pub struct Scenario {
    pub name: Words,
    pub changes: Items<Change>,
}

impl Called for Scenario {
    ghost name_of = { λ scenario. scenario.name };

    fn name(&self) -> &Words {
        &self.name
    }
}

/// The names that statements are bound under: tables, views and scenarios, each in order of creation. No two have the
/// same name.
#[derive(Drop)]
pub struct Catalog {
    pub tables: ByName<TableEntry>,
    pub views: ByName<View>,
    pub scenarios: ByName<Scenario>,
}

impl Catalog {
    /// The columns of the table of this name, or `None` where there is none.
    pub fn table(&self, name: &str) -> Option<&Schema>
        ensures { option_copied result ≡ spec.schema_of self.now name.now }
    {
        let entry = self.tables.get(name)?;
        Some(&entry.schema)
    }

    /// Whether there is a view of this name.
    pub fn is_view(&self, name: &str) -> bool
        ensures { result ≡ spec.is_view self.now name.now }
    {
        self.views.has(name)
    }

    /// The MODEL clause of the view of this name, or `None` where there is no such view, or it has none.
    pub fn model(&self, view: &str) -> Option<&ModelPart>
        ensures { option_copied result ≡ spec.model_of self.now view.now }
    {
        let found = self.views.get(view)?;
        found.query.model.as_ref()
    }

    /// Whether there is a scenario of this name.
    pub fn is_scenario(&self, name: &str) -> bool
        ensures { result ≡ spec.is_scenario self.now name.now }
    {
        self.scenarios.has(name)
    }

    /// How many changes the scenario of this name has; none where there is no such scenario.
    pub fn change_count(&self, scenario: &str) -> usize
        ensures { result ≡ spec.change_count self.now scenario.now }
    {
        match self.scenarios.get(scenario) {
            Some(found) => found.changes.len(),
            None => 0,
        }
    }
}
