//! The inputs of the partitions of a query with MODEL after a change of its item rows.
//! The old input of a partition and the rows of it that went and came go in; out comes its input over the rows as they stand now, found
//! by searching and merging, without a look at the rows that stay.
#![tactic(auto)]

mod amending;
mod cuts;
mod edits;
mod groups;
mod inputs;
mod laws;

pub use groups::{PartChange, touched_keys};
pub use inputs::input_after;
pub use laws::{other_partitions_stay, partitions_change};
