//! How large a board may be.

/// How many pieces a board may have.
pub const MAX_PIECES: usize = 1_048_576;

/// How many seats a board may have, the first one among them.
pub const MAX_SEATS: u32 = 64;
