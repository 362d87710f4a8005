//! Which tables a query reads.
ghost use Rattle.std.specs.Prelude.{◌≡◌, []};
ghost use Rattle.std.specs.List.{list_any};
ghost use Rattle.std.specs.Option.{option_map_or};
ghost use Rattle.mq_ir.specs.Statement as spec;
ghost use Rattle.mq_ir.specs.Tables.{is_name};

use mq_ir::{BoundQuery, ModelPart, PlainPart, RefPart};
use mq_values::Words;

/// Whether a query reads this table: in its FROM, in a reference or in a FOR subquery.
#[tactic(auto, using(crate::proofs::ReadLemmas::query_uses))]
pub fn query_reads(query: &BoundQuery, table: &str) -> bool
    ensures { result ≡ list_any (is_name table.now) (spec.tables_read query.now) }
{
    is_among(query.from.tables.as_slice(), table) || model_reads(&query.model, table)
}

fn model_reads(model: &Option<ModelPart>, table: &str) -> bool
    ensures { result ≡ list_any (is_name table.now) (option_map_or spec.tables_of_model model.now []) }
{
    match model {
        Some(part) => part_reads(part, table),
        None => false,
    }
}

/// Whether a reference or a FOR subquery of a model reads this table.
#[tactic(auto, using(crate::proofs::ReadLemmas::model_uses))]
pub fn part_reads(part: &ModelPart, table: &str) -> bool
    ensures { result ≡ list_any (is_name table.now) (spec.tables_of_model part.now) }
{
    reference_reads(part.refs.as_slice(), table) || list_reads(part.lists.as_slice(), table)
}

// Whether one of these references reads this table.
fn reference_reads(refs: &[RefPart], table: &str) -> bool
    ensures { result ≡ list_any (λ r. list_any (is_name table.now) r.source.from.tables) refs.now }
{
    refs.iter()
        .any(|part| is_among(part.source.from.tables.as_slice(), table))
}

// The same of FOR subqueries.
fn list_reads(lists: &[PlainPart], table: &str) -> bool
    ensures { result ≡ list_any (λ list. list_any (is_name table.now) list.from.tables) lists.now }
{
    lists
        .iter()
        .any(|list| is_among(list.from.tables.as_slice(), table))
}

// Whether one of these names is that of the table.
fn is_among(names: &[Words], table: &str) -> bool
    ensures { result ≡ list_any (is_name table.now) names.now }
{
    names.iter().any(|name| table == name.as_str())
}
