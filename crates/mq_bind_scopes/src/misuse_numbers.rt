//! The numbers under which a refusal names the misuses of grouped queries, MODEL clauses and explained cells (docs/LANGUAGE.md, "Misuses").

/// In a grouped query, a column outside an aggregate that GROUP BY does not name.
pub const MISUSE_OF_UNGROUPED_COLUMN: u32 = 1;

/// An aggregate where there is no group.
pub const MISUSE_OF_AGGREGATE: u32 = 2;

/// A form of rules outside its place.
pub const MISUSE_OF_RULE_FORM: u32 = 3;

/// A bracket with another number of places than there are dimensions.
pub const MISUSE_OF_PLACE_COUNT: u32 = 4;

/// A condition in a bracket that is no test of the place's dimension.
pub const MISUSE_OF_CONDITION_IN_BRACKETS: u32 = 5;

/// A single cell that a test names, other than by an equality.
pub const MISUSE_OF_CONDITION_IN_CELL: u32 = 6;

/// A FOR that names other dimensions than it stands for, or whose list has another width.
pub const MISUSE_OF_FOR: u32 = 7;

/// ORDER BY on a left side where it has no meaning.
pub const MISUSE_OF_ORDER: u32 = 8;

/// ITERATE with AUTOMATIC ORDER.
pub const MISUSE_OF_ITERATE: u32 = 9;

/// A plain name where a rule has no row.
pub const MISUSE_OF_NAME_IN_RULE: u32 = 10;

/// Options that contradict or repeat each other.
pub const MISUSE_OF_OPTIONS: u32 = 11;

/// With MODEL, an item of the SELECT list that is no plain model column.
pub const MISUSE_OF_SHOWN_ITEM: u32 = 12;

/// An item of a list of a model or reference that has no name.
pub const MISUSE_OF_ITEM_WITHOUT_NAME: u32 = 13;

/// A measure of a reference where a measure of the main model has to stand.
pub const MISUSE_OF_REFERENCE_MEASURE: u32 = 14;

/// A cell to be explained of a view that is not in AUTOMATIC ORDER; one without MODEL is none either.
pub const MISUSE_OF_EXPLAINED_VIEW: u32 = 15;

/// A cell to be explained with another number of partition values than partition columns, or of values than dimensions.
pub const MISUSE_OF_VALUE_COUNT: u32 = 16;
