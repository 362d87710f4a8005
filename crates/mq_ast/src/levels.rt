//! How loosely a token goes on what stands before it, as levels: where a part of a level ends, no token of that level
//! or of one below may stand (docs/LANGUAGE.md, "Expressions", "Queries").

/// A path: a point goes on.
pub const PATH: u8 = 1;

/// A primary expression, alone or with a sign: a bracket goes on.
pub const PRIMARY: u8 = 2;

/// A product: `*` and `/` go on.
pub const PRODUCT: u8 = 3;

/// A sum: `+`, `-` and `||` go on.
pub const SUM: u8 = 4;

/// A test with or without NOT: a comparison, BETWEEN, IN, IS and NOT go on.
pub const TEST: u8 = 5;

/// A chain by AND: AND goes on.
pub const CONJUNCTION: u8 = 6;

/// An expression: OR goes on.
pub const EXPRESSION: u8 = 7;

/// An item with its alias: AS and a name go on.
pub const ITEM: u8 = 8;

/// The items of FROM: a comma, JOIN, INNER, CROSS and ON go on.
pub const SOURCES: u8 = 9;

/// The items of FROM with WHERE.
pub const FILTERED: u8 = 10;

/// The plain part of a query: GROUP goes on.
pub const PLAIN: u8 = 11;

/// A query: MODEL, ORDER, ASC and DESC go on.
pub const QUERY: u8 = 12;

/// Tokens that go on nothing.
pub const NONE: u8 = 13;
