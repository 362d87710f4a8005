//! The values of the engine and what they are kept in: numbers, texts, dates, lists, trees and shared keys go in.
//! Out come their sums, products, quotients, conversions, orders and printed texts, or a fault by its name.
//! Each call gives what `specs/` defines: Number, Text, Calendar, Order, Print, Convert and Aggregate.
#![tactic(auto)]

mod arithmetic;
mod boxed;
mod calendar_laws;
mod convert;
mod day;
mod digits;
mod dim_tests;
mod faults;
mod items;
mod key;
mod key_set;
mod laws;
mod limits;
mod mantissa;
mod memory;
mod number;
mod number_laws;
mod operators;
mod order;
mod printing;
mod shared;
mod tally;
mod text;
mod value;
mod words;

pub use arithmetic::{add, div, mul, sub};
pub use boxed::Boxed;
pub use calendar_laws::{dates_and_ordinals_are_one_to_one, ordinals_ascend_as_dates_do};
pub use convert::{cast, concat, length};
pub use day::{Day, day_of, days_between, shift, shift_back};
pub use dim_tests::{compare, truth_and, truth_not, truth_or};
pub use faults::{FaultKind, QueryFault, Refused, ValueFault};
pub use items::Items;
pub use key::Key;
pub use key_set::{KeySet, set_of};
pub use laws::{
    keys_are_ordered, order_agrees_with_comparison, values_are_ordered, values_print_apart,
};
pub use limits::{
    DEFAULT_ORDINAL, MAX_BASE_ROWS, MAX_CELLS_OF_PARTITION, MAX_CELLS_OF_QUERY,
    MAX_CELLS_OF_REFERENCE, MAX_COLUMNS, MAX_COMPARED, MAX_DEPTH, MAX_DIMENSIONS, MAX_FILE_BYTES,
    MAX_FROM_ITEMS, MAX_MANTISSA, MAX_MEASURES, MAX_ORDINAL, MAX_PARTITION_COLUMNS,
    MAX_PRINTED_COLUMNS, MAX_REFERENCES, MAX_ROWS, MAX_RULES, MAX_SCALE, MAX_SCENARIO_CHANGES,
    MAX_SCENARIOS, MAX_SCRIPT_BYTES, MAX_SINGLE_LEFT_SIDES, MAX_TABLES, MAX_TEXT_BYTES, MAX_TURNS,
    MAX_VALUES, MAX_VIEWS, MAX_WORD_BYTES, MAX_YEAR, MIN_QUOTIENT_SCALE, MONTHS,
};
pub use memory::{Fail, Memory};
pub use number::Num;
pub use number_laws::{
    casts_back_nearby, floors_below, orders_by_worth, prints_apart, rounds_to_nearest,
    subtracts_by_negation,
};
pub use operators::{Agg, CmpOp, DimTest, Func, Mode, ProdOp, SumOp};
pub use order::{cmp_sql, cmp_total};
pub use printing::print;
pub use shared::Shared;
pub use tally::Tally;
pub use text::Text;
pub use value::{Kind, Value};
pub use words::Words;
