//! What binding asks of a name, a kind or a place before it goes over any expression: what is in sight and where an expression stands go
//! in, and out come what a name means, the kinds of nodes, whether something may stand there, and the refusals. Each is defined in specs/
//! by its own name (Names, Kinds, Positions, Misuses and their kin).
#![tactic(auto)]

mod for_steps;
mod heads;
mod kinds;
mod misuse_numbers;
mod misuses;
mod names;
mod options;
mod positions;
mod refusals;
mod scopes;
mod symbolic_sides;

pub use for_steps::steps_fit;
pub use heads::head_bound;
pub use kinds::{
    ExprKind, aggregate_kind, cast_kind, column_kind, is_assignable, is_condition_kind, is_index,
    kind_fits, number_scale, of_column, product_kind, rounded_kind, sum_kind, value_kind, wider,
};
pub use misuse_numbers::{
    MISUSE_OF_AGGREGATE, MISUSE_OF_CONDITION_IN_BRACKETS, MISUSE_OF_CONDITION_IN_CELL,
    MISUSE_OF_EXPLAINED_VIEW, MISUSE_OF_FOR, MISUSE_OF_ITEM_WITHOUT_NAME, MISUSE_OF_ITERATE,
    MISUSE_OF_NAME_IN_RULE, MISUSE_OF_OPTIONS, MISUSE_OF_ORDER, MISUSE_OF_PLACE_COUNT,
    MISUSE_OF_REFERENCE_MEASURE, MISUSE_OF_RULE_FORM, MISUSE_OF_SHOWN_ITEM,
    MISUSE_OF_UNGROUPED_COLUMN, MISUSE_OF_VALUE_COUNT,
};
pub use misuses::{
    aggregate_without_group, any_inside_place, cell_out_of_place, cv_out_of_place, in_condition,
    is_ungrouped, other_place_count, outside_rules, previous_outside_until, turn_without_iterate,
};
pub use names::{called, column_named, found_called, is_reference_measure, place_called};
pub use options::{ignores_nav, options_clash};
pub use positions::{
    aggregated, bracketed, dimension_at, inner, is_left, owner_of, place_kind, standing,
    standing_on,
};
pub use refusals::{duplicate_name, limit, mismatch, misuse, number, unknown_name};
pub use scopes::{
    Bracket, Found, ModelNames, Named, Owner, Part, Placed, Position, Printed, ReferenceNames,
    RowColumn, Scope,
};
pub use symbolic_sides::is_order_misused;
