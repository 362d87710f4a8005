//! Bound statements and queries: the forms in which the engine is handed what it is to do.
//! In: nothing, the crate is data. Out: the types, and in specs/ what each of them means.
//! The definitions that it holds are listed in docs/MEANING.md.
#![tactic(auto)]

mod by_name;
mod catalog;
mod expression;
mod laws_of_left_sides;
mod laws_of_order;
mod laws_of_reads;
mod laws_of_results;
mod laws_of_rows;
mod laws_of_sorting;
mod limit_numbers;
mod placed_fault;
mod query;
mod statement;

pub use by_name::{ByName, Called};
pub use catalog::{Catalog, Scenario, TableEntry, View};
pub use expression::{BoundArm, BoundProd, BoundSum, Expr, Leaf, RangePlace, Test, Worth};
pub use laws_of_left_sides::{
    combinations_are_counted, last_list_turns_fastest, missing_targets_are_created,
    symbolic_upsert_creates_none, update_creates_none,
};
pub use laws_of_order::{affected_is_least_closed, levelled_stays, rounds_are_enough};
pub use laws_of_reads::{
    presence_is_of_the_input, reads_are_among_looks, same_looks_make_the_same_step,
    steps_read_their_looks,
};
pub use laws_of_results::worked_results;
pub use laws_of_rows::{
    first_rows_count, partitions_ascend, rows_have_one_group, rows_have_one_partition,
    values_convert_once,
};
pub use laws_of_sorting::stable_sorts_ascend;
pub use limit_numbers::{
    LIMIT_OF_COLUMNS, LIMIT_OF_COMPARED, LIMIT_OF_DIMENSIONS, LIMIT_OF_FROM_ITEMS,
    LIMIT_OF_MEASURES, LIMIT_OF_PARTITION_COLUMNS, LIMIT_OF_PRINTED_COLUMNS, LIMIT_OF_REFERENCES,
    LIMIT_OF_ROWS, LIMIT_OF_RULES, LIMIT_OF_SCALE, LIMIT_OF_SCENARIO_CHANGES, LIMIT_OF_SCENARIOS,
    LIMIT_OF_TABLES, LIMIT_OF_TURNS, LIMIT_OF_VALUES, LIMIT_OF_VIEWS,
};
pub use placed_fault::{PlacedFault, kind_of, plain_fault};
pub use query::{
    Answer, BoundQuery, CellName, ColRef, Compared, Derivation, DerivationStep, Explained,
    FromPart, ItemPart, Iterate, Left, LeftItem, ListSource, Look, Model, ModelPart, OutCell,
    PartInput, PartResult, PartShape, PlainPart, RefArray, RefPart, RowList, Rule, SingleLeft,
    SinglePlace, Slot,
};
pub use statement::{Bound, CellAsked, Change, Column, Row, Schema, TableDef};
