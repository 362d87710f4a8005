//! The limits of the language (docs/LANGUAGE.md, "Limits"). Code and definitions cite them from here.

/// How many tables there may be.
pub const MAX_TABLES: usize = 64;

/// How many columns a table may have.
pub const MAX_COLUMNS: usize = 32;

/// How many rows a table may have.
pub const MAX_ROWS: usize = 500_000;

/// How many values all tables may hold: each has rows times columns of them.
pub const MAX_VALUES: usize = 4_000_000;

/// How many views there may be.
pub const MAX_VIEWS: usize = 8;

/// How many scenarios there may be.
pub const MAX_SCENARIOS: usize = 4;

/// How many changes a scenario may have.
pub const MAX_SCENARIO_CHANGES: usize = 1_000;

/// How many scenarios a COMPARE may name.
pub const MAX_COMPARED: usize = 4;

/// How many items may stand in FROM.
pub const MAX_FROM_ITEMS: usize = 4;

/// How many columns a query may print.
pub const MAX_PRINTED_COLUMNS: usize = 16;

/// How many columns PARTITION BY may have.
pub const MAX_PARTITION_COLUMNS: usize = 4;

/// How many dimensions a model may have, the main one or a reference.
pub const MAX_DIMENSIONS: usize = 5;

/// How many measures a model may have, the main one or a reference.
pub const MAX_MEASURES: usize = 6;

/// How many rules a model may have.
pub const MAX_RULES: usize = 100;

/// The greatest number of ITERATE. The least is 1.
pub const MAX_TURNS: usize = 10_000;

/// How many digits a number may have behind its point.
pub const MAX_SCALE: u8 = 12;

/// How many digits a quotient has behind its point at least.
pub const MIN_QUOTIENT_SCALE: u8 = 6;

/// The greatest mantissa: a number's digits without the point make no more. The least mantissa lies one further from 0.
pub const MAX_MANTISSA: u128 = 170_141_183_460_469_231_731_687_303_715_884_105_727;

/// The last year of the calendar. The first is the year 1.
pub const MAX_YEAR: u32 = 9_999;

/// How many months a year has.
pub const MONTHS: u32 = 12;

/// The ordinal of the last day of the calendar, 9999-12-31. That of the first, 0001-01-01, is 1.
pub const MAX_ORDINAL: u32 = 3_652_059;

/// The ordinal of 2000-01-01, which a null date reads as under IGNORE NAV.
pub const DEFAULT_ORDINAL: u32 = 730_120;

/// How many references a model may have.
pub const MAX_REFERENCES: usize = 2;

/// How many base rows a query may have.
pub const MAX_BASE_ROWS: usize = 100_000;

/// How many cells all partitions of a query may have.
pub const MAX_CELLS_OF_QUERY: usize = 100_000;

/// How many cells a partition may have.
pub const MAX_CELLS_OF_PARTITION: usize = 20_000;

/// How many cells a reference may have.
pub const MAX_CELLS_OF_REFERENCE: usize = 10_000;

/// How many single left sides a rule may stand for.
pub const MAX_SINGLE_LEFT_SIDES: usize = 10_000;

/// How many constructs of a statement may be open at once.
pub const MAX_DEPTH: usize = 64;

/// How many bytes a script may have.
pub const MAX_SCRIPT_BYTES: usize = 16_777_216;

/// How many bytes a file for LOAD may have.
pub const MAX_FILE_BYTES: usize = 16_777_216;

/// How many bytes a word may have, a name as well as a reserved word.
pub const MAX_WORD_BYTES: usize = 128;

/// How many bytes a text may have.
pub const MAX_TEXT_BYTES: usize = 256;
