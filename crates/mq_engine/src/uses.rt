//! What uses a table: views read it, and scenarios change it.
ghost use Rattle.std.specs.Prelude.{◌≡◌};
ghost use Rattle.std.specs.List.{list_any};
ghost use Rattle.std.specs.Option.{option_copied};
ghost use Rattle.mq_ir.specs.Changes.{table_of as spec_table_of};
ghost use Rattle.mq_ir.specs.Statement as spec;
ghost use Rattle.mq_ir.specs.Tables.{is_name};
ghost use Rattle.mq_engine.specs.Catalogs as catalogs;

use mq_ir::{Catalog, Change, Scenario, View};
use mq_kept::query_reads;
use mq_tables::table_of;
use mq_values::Words;

/// The name of what uses this table, or `None` where nothing does.
pub fn user_of<'a>(catalog: &'a Catalog, table: &str) -> Option<&'a Words>
    ensures { option_copied result ≡ catalogs.user_of catalog.now table.now }
{
    if let Some(view) = first_reader(catalog.views.as_slice(), table) {
        return Some(&view.name);
    }
    let scenario = first_changer(catalog.scenarios.as_slice(), table)?;
    Some(&scenario.name)
}

// The first view that reads this table.
fn first_reader<'a>(views: &'a [View], table: &str) -> Option<&'a View>
    ensures { option_copied result ≡ spec.first_reader views.now table.now }
{
    views.iter().find(|view| query_reads(&view.query, table))
}

// The first scenario that changes this table.
fn first_changer<'a>(scenarios: &'a [Scenario], table: &str) -> Option<&'a Scenario>
    ensures { option_copied result ≡ spec.first_changer scenarios.now table.now }
{
    scenarios
        .iter()
        .find(|scenario| is_changed(scenario.changes.as_slice(), table))
}

// Whether one of these changes is of this table.
fn is_changed(changes: &[Change], table: &str) -> bool
    ensures { result ≡ list_any (λ c. is_name table.now (spec_table_of c)) changes.now }
{
    changes.iter().any(|c| table == table_of(c).as_str())
}
