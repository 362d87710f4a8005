//! The parts of a MODEL clause in their order (docs/LANGUAGE.md, "The MODEL clause"): where a part ends, no token stands
//! with which this part or an earlier one begins.

/// An option: IGNORE, KEEP, UNIQUE.
pub const OPTION: u8 = 1;

/// RETURN.
pub const RETURN: u8 = 2;

/// REFERENCE.
pub const REFERENCE: u8 = 3;

/// MAIN.
pub const MAIN: u8 = 4;

/// PARTITION BY.
pub const PARTITION: u8 = 5;

/// A mode: UPDATE, UPSERT, ALL.
pub const MODE: u8 = 6;

/// The order of the rules: AUTOMATIC, SEQUENTIAL.
pub const ORDER: u8 = 7;

/// ITERATE.
pub const ITERATE: u8 = 8;

/// UNTIL.
pub const UNTIL: u8 = 9;

/// None of these.
pub const NONE: u8 = 10;
