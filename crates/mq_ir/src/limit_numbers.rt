//! The numbers under which a refusal names the limits of the language (docs/LANGUAGE.md, "The whole language").

pub const LIMIT_OF_TABLES: u32 = 1;

pub const LIMIT_OF_COLUMNS: u32 = 2;

pub const LIMIT_OF_ROWS: u32 = 3;

pub const LIMIT_OF_VALUES: u32 = 4;

pub const LIMIT_OF_VIEWS: u32 = 5;

pub const LIMIT_OF_FROM_ITEMS: u32 = 6;

pub const LIMIT_OF_PRINTED_COLUMNS: u32 = 7;

pub const LIMIT_OF_PARTITION_COLUMNS: u32 = 8;

pub const LIMIT_OF_DIMENSIONS: u32 = 9;

pub const LIMIT_OF_MEASURES: u32 = 10;

pub const LIMIT_OF_RULES: u32 = 11;

pub const LIMIT_OF_TURNS: u32 = 12;

pub const LIMIT_OF_SCALE: u32 = 13;

pub const LIMIT_OF_REFERENCES: u32 = 14;

pub const LIMIT_OF_SCENARIOS: u32 = 15;

pub const LIMIT_OF_SCENARIO_CHANGES: u32 = 16;

pub const LIMIT_OF_COMPARED: u32 = 17;
