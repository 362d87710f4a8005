//! How far a store counts.

/// The count of what was read stays where it has come to this.
pub const MAX_LOOKS: u64 = u64::MAX;

/// How many assignments a shape may have for its first fault to be found: a `u32` numbers each.
pub const MAX_ASSIGNMENTS: usize = u32::MAX as usize;
