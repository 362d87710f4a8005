//! In go a number and a size, or the bytes of an output as they are written.
//! Out come the script that they generate, or a summary of the output in five lines.
//! They meet the definitions of specs/Script and specs/Summary.
#![tactic(auto)]

mod draws;
mod laws;
mod lines;
mod pieces;
mod script;
mod sink;
mod told;

pub use laws::scripts_are_text;
pub use script::{generated, statement_count};
pub use sink::SummarySink;

#[cfg(test)]
mod tests;
