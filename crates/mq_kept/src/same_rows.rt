//! Whether what the model of a query reads has the same rows in two sets of tables.
ghost use Rattle.std.specs.Prelude.{◌≡◌, true};
ghost use Rattle.std.specs.List.{All};
ghost use Rattle.mq_ir.specs.Tables.{rows_of};
ghost use Rattle.mq_kept.specs.Beside.{HasSameSources, HaveSameRows};

use crate::comparing::are_same_keys;
use mq_ir::{ModelPart, PlainPart, RefPart};
use mq_tables::TableSet;
use mq_values::Words;

/// Whether each table that a reference or a FOR subquery reads has the same rows in both. `false` tells nothing.
pub fn has_same_sources<T: TableSet, U: TableSet>(before: &T, under: &U, part: &ModelPart) -> bool
    ensures { result ≡ true → HasSameSources (T.tables before.now) (U.tables under.now) part.now }
{
    have_same_refs(before, under, part.refs.as_slice())
        && have_same_lists(before, under, part.lists.as_slice())
}

fn have_same_refs<T: TableSet, U: TableSet>(before: &T, under: &U, refs: &[RefPart]) -> bool
    ensures { result ≡ true → All (λ r. HaveSameRows (T.tables before.now) (U.tables under.now) r.source.from.tables) refs.now }
{
    for part in refs {
        if !have_same_rows(before, under, part.source.from.tables.as_slice()) {
            return false;
        }
    }
    true
}

fn have_same_lists<T: TableSet, U: TableSet>(before: &T, under: &U, lists: &[PlainPart]) -> bool
    ensures { result ≡ true → All (λ list. HaveSameRows (T.tables before.now) (U.tables under.now) list.from.tables) lists.now }
{
    for part in lists {
        if !have_same_rows(before, under, part.from.tables.as_slice()) {
            return false;
        }
    }
    true
}

// Whether the tables of these names have the same rows in both.
fn have_same_rows<T: TableSet, U: TableSet>(before: &T, under: &U, names: &[Words]) -> bool
    ensures { result ≡ true → HaveSameRows (T.tables before.now) (U.tables under.now) names.now }
{
    for name in names {
        if !has_same_rows(before, under, name.as_str()) {
            return false;
        }
    }
    true
}

// Whether the table of this name has the same rows in both.
fn has_same_rows<T: TableSet, U: TableSet>(before: &T, under: &U, name: &str) -> bool
    ensures { result ≡ true → rows_of (U.tables under.now) name.now ≡ rows_of (T.tables before.now) name.now }
{
    let Some(a) = before.rows(name) else {
        return false;
    };
    let Some(b) = under.rows(name) else {
        return false;
    };
    are_same_keys(a, b)
}
