//! The statuses of a run (docs/LANGUAGE.md, "Statuses").

/// All was done, and no line was an error or a fault.
pub const DONE: u8 = 0;

/// All was done, and some line was an error or a fault.
pub const FLAWED: u8 = 1;

/// The words of the command line are none that are known.
pub const BAD_WORDS: u8 = 2;

/// The source failed.
pub const READ_FAILED: u8 = 3;

/// The sink failed.
pub const WRITE_FAILED: u8 = 4;

/// Want of memory.
pub const NO_MEMORY: u8 = 5;

/// The script has more bytes than a script may have.
pub const TOO_LONG: u8 = 6;

/// The script is not UTF-8.
pub const NOT_UTF8: u8 = 7;
